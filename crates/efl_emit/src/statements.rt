// The statements of FORTRAN that a statement of EFL becomes.
ghost use Rattle.std.specs.Prelude.{◌≡◌, OnOk, option_map};
ghost use Rattle.efl_program.specs.Typed as typed;
ghost use Rattle.efl_typed_tree.specs.declared.statement.TypedClause.{out-TypedClause};
ghost use Rattle.efl_typed_tree.specs.Views.{action_of, clauses_of, expr_of, kind_of, stmt_of, stmts_of};
ghost use Rattle.routes.specs.Code.{label_behind};
ghost use Rattle.routes.specs.Routes.{AndRoute};
ghost use Rattle.efl_emit.specs.Emitted.{EmittedIn};
ghost use Rattle.efl_emit.specs.Names.{emission_of, made_of, operand_of};
ghost use Rattle.efl_emit.specs.Rings.{around_of, behind_of};
ghost use Rattle.efl_emit.specs.Statements.{all_before, block_of, clause_before, clauses_before, default_before, first_of, have_none, loop_of, route_of, tested_of, turn_of};

use crate::{
    Emitter, Evaluated, Naming, Operand, RingKind, Rings, Turn, break_label, emit_action,
    emit_action_if_any, emit_bottom, emit_cases, emit_expression, emit_read, emit_return,
    emit_start, emit_top, emit_write, next_label, operand_not, put_choice, put_marks,
};
use efl_tree::LoopKind;
use efl_typed_tree::{TypedAction, TypedClause, TypedExpr, TypedKind, TypedRange, TypedStmt};
use ground::Place;
use std::alloc::AllocError;

#[cycle(emit)]
fn emit_statement(
    out: &mut Emitter,
    naming: &Naming,
    statement: &TypedStmt,
    rings: &Rings,
    number: usize,
) -> Result<(), AllocError>
    ensures { OnOk result (EmittedIn (made_of naming.now) (AndRoute (route_of naming.now (stmt_of statement.now) (around_of rings.now) number)) (behind_of rings.now) (emission_of out.old) (emission_of out.new)) }
{
    put_marks(out, naming, statement.place, &statement.labels)?;
    emit_kind(out, naming, statement.place, &statement.kind, rings, number)
}

// What a statement is, behind its labels.
#[cycle(emit)]
fn emit_kind(
    out: &mut Emitter,
    naming: &Naming,
    place: Place,
    kind: &TypedKind,
    rings: &Rings,
    number: usize,
) -> Result<(), AllocError>
    ensures { OnOk result (EmittedIn (made_of naming.now) (AndRoute (route_of naming.now (kind_of place kind.now) (around_of rings.now) number)) (behind_of rings.now) (emission_of out.old) (emission_of out.new)) }
{
    match kind {
        TypedKind::Empty => Ok(()),
        TypedKind::Block(list) => emit_block(out, naming, list, rings, number),
        TypedKind::Act(action) => emit_action(out, naming, place, action, number),
        TypedKind::If(e, body, None) => emit_if(out, naming, place, e, body, rings, number),
        TypedKind::If(e, body, Some(other)) => {
            emit_either(out, naming, place, e, body, other, rings, number)
        }
        TypedKind::While(e, body) => emit_while(out, naming, place, e, body, rings, number),
        TypedKind::For(first, e, step, body) => {
            emit_for(out, naming, place, first, e, step, body, rings, number)
        }
        TypedKind::Repeat(body, None) => emit_repeat(out, naming, place, body, rings, number),
        TypedKind::Repeat(body, Some((e, at))) => {
            emit_until(out, naming, place, body, e, *at, rings, number)
        }
        TypedKind::Do(variable, range, body) => {
            emit_do(out, naming, place, *variable, range, body, rings, number)
        }
        TypedKind::Switch(e, list) => emit_switch(out, naming, place, e, list, rings, number),
        TypedKind::Break(count, kind) => out.put_jump(place, break_label(rings, *kind, *count)),
        TypedKind::Next(count, kind) => out.put_jump(place, next_label(rings, *kind, *count)),
        TypedKind::Return(e) => emit_return(out, naming, place, e, number),
        TypedKind::Goto(label) => out.put_jump(place, naming.label(label)),
        TypedKind::Write(unit, items) => emit_write(out, naming, place, unit, items, number),
        TypedKind::Read(unit, items) => emit_read(out, naming, place, unit, items, number),
    }
}

/// The statements of a list, one after another.
#[cycle(emit)]
pub fn emit_list(
    out: &mut Emitter,
    naming: &Naming,
    list: &[TypedStmt],
    rings: &Rings,
    number: usize,
) -> Result<(), AllocError>
    ensures { OnOk result (EmittedIn (made_of naming.now) (all_before naming.now (stmts_of list.now) (around_of rings.now) number) (behind_of rings.now) (emission_of out.old) (emission_of out.new)) }
{
    for statement in list {
        emit_statement(out, naming, statement, rings, number)?;
    }
    Ok(())
}

// A list whose labels a jump out of it may reach.
#[cycle(emit)]
fn emit_block(
    out: &mut Emitter,
    naming: &Naming,
    list: &[TypedStmt],
    rings: &Rings,
    number: usize,
) -> Result<(), AllocError>
    ensures { OnOk result (EmittedIn (made_of naming.now) (block_of naming.now (stmts_of list.now) (around_of rings.now) number) (behind_of rings.now) (emission_of out.old) (emission_of out.new)) }
{
    emit_list(out, naming, list, rings, number)
}

#[cycle(emit)]
fn emit_if(
    out: &mut Emitter,
    naming: &Naming,
    place: Place,
    e: &TypedExpr,
    body: &TypedStmt,
    rings: &Rings,
    number: usize,
) -> Result<(), AllocError>
    ensures { OnOk result (EmittedIn (made_of naming.now) (AndRoute (route_of naming.now (typed.If place (expr_of e.now) (stmt_of body.now)) (around_of rings.now) number)) (behind_of rings.now) (emission_of out.old) (emission_of out.new)) }
{
    let value = emit_expression(out, naming, place, e, number)?;
    let behind = out.fresh_label(naming)?;
    let test = operand_not(out.alloc(), value.operand)?;
    put_choice(out, place, test, behind)?;
    let inside = Rings::Ring(RingKind::Other, behind, &*rings);
    emit_statement(out, naming, body, &inside, number)?;
    out.put_here(place, behind)
}

#[cycle(emit)]
fn emit_either(
    out: &mut Emitter,
    naming: &Naming,
    place: Place,
    e: &TypedExpr,
    body: &TypedStmt,
    other: &TypedStmt,
    rings: &Rings,
    number: usize,
) -> Result<(), AllocError>
    ensures { OnOk result (EmittedIn (made_of naming.now) (AndRoute (route_of naming.now (typed.IfElse place (expr_of e.now) (stmt_of body.now) (stmt_of other.now)) (around_of rings.now) number)) (behind_of rings.now) (emission_of out.old) (emission_of out.new)) }
{
    let value = emit_expression(out, naming, place, e, number)?;
    let behind = out.fresh_label(naming)?;
    let inside = Rings::Ring(RingKind::Other, behind, &*rings);
    emit_first(
        out,
        naming,
        place,
        value.operand,
        body,
        behind,
        &inside,
        number,
    )?;
    emit_statement(out, naming, other, &inside, number)?;
    out.put_here(place, behind)
}

// The first statement of an `if` with an `else`, and a jump behind the other.
#[cycle(emit)]
fn emit_first(
    out: &mut Emitter,
    naming: &Naming,
    place: Place,
    value: Operand,
    body: &TypedStmt,
    behind: u32,
    rings: &Rings,
    number: usize,
) -> Result<(), AllocError>
    requires { label_behind (behind_of rings.now) 0 ≡ behind }
    ensures { OnOk result (EmittedIn (made_of naming.now) (first_of naming.now place (operand_of value) (stmt_of body.now) (around_of rings.now) number) (behind_of rings.now) (emission_of out.old) (emission_of out.new)) }
{
    let otherwise = out.fresh_label(naming)?;
    let test = operand_not(out.alloc(), value)?;
    put_choice(out, place, test, otherwise)?;
    let inside = Rings::Ring(RingKind::Other, otherwise, &*rings);
    emit_statement(out, naming, body, &inside, number)?;
    out.put_jump(place, behind)?;
    out.put_here(place, otherwise)
}

// A loop with what is done before each turn and behind it.
#[cycle(emit)]
fn emit_loop(
    out: &mut Emitter,
    naming: &Naming,
    place: Place,
    turn: Turn,
    body: &TypedStmt,
    kind: LoopKind,
    rings: &Rings,
    number: usize,
) -> Result<(), AllocError>
    ensures { OnOk result (EmittedIn (made_of naming.now) (loop_of naming.now place turn.entry (stmt_of body.now) kind (around_of rings.now) number) (behind_of rings.now) (emission_of out.old) (emission_of out.new)) }
{
    let head = out.fresh_label(naming)?;
    let behind = out.fresh_label(naming)?;
    out.put_here(place, head)?;
    emit_top(out, naming, place, turn, behind, number)?;
    let inside = Rings::Ring(RingKind::Behind(kind), behind, &*rings);
    emit_turn(out, naming, place, body, kind, &inside, number)?;
    emit_bottom(out, naming, place, turn, behind, number)?;
    out.put_jump(place, head)?;
    out.put_here(place, behind)
}

// The statement of a loop, behind which its next turn begins.
#[cycle(emit)]
fn emit_turn(
    out: &mut Emitter,
    naming: &Naming,
    place: Place,
    body: &TypedStmt,
    kind: LoopKind,
    rings: &Rings,
    number: usize,
) -> Result<(), AllocError>
    ensures { OnOk result (EmittedIn (made_of naming.now) (turn_of naming.now place (stmt_of body.now) kind (around_of rings.now) number) (behind_of rings.now) (emission_of out.old) (emission_of out.new)) }
{
    let next = out.fresh_label(naming)?;
    let inside = Rings::Ring(RingKind::Next(kind), next, &*rings);
    emit_statement(out, naming, body, &inside, number)?;
    out.put_here(place, next)
}

#[cycle(emit)]
fn emit_while(
    out: &mut Emitter,
    naming: &Naming,
    place: Place,
    e: &TypedExpr,
    body: &TypedStmt,
    rings: &Rings,
    number: usize,
) -> Result<(), AllocError>
    ensures { OnOk result (EmittedIn (made_of naming.now) (AndRoute (route_of naming.now (typed.While place (expr_of e.now) (stmt_of body.now)) (around_of rings.now) number)) (behind_of rings.now) (emission_of out.old) (emission_of out.new)) }
{
    let turn = Turn::While(e);
    emit_loop(
        out,
        naming,
        place,
        turn,
        body,
        LoopKind::While,
        rings,
        number,
    )
}

#[cycle(emit)]
fn emit_for(
    out: &mut Emitter,
    naming: &Naming,
    place: Place,
    first: &Option<TypedAction>,
    e: &Option<TypedExpr>,
    step: &Option<TypedAction>,
    body: &TypedStmt,
    rings: &Rings,
    number: usize,
) -> Result<(), AllocError>
    ensures { OnOk result (EmittedIn (made_of naming.now) (AndRoute (route_of naming.now (typed.For place (option_map action_of first.now) (option_map expr_of e.now) (option_map action_of step.now) (stmt_of body.now)) (around_of rings.now) number)) (behind_of rings.now) (emission_of out.old) (emission_of out.new)) }
{
    emit_action_if_any(out, naming, place, first, number)?;
    let turn = Turn::For(e, step);
    emit_loop(out, naming, place, turn, body, LoopKind::For, rings, number)
}

#[cycle(emit)]
fn emit_repeat(
    out: &mut Emitter,
    naming: &Naming,
    place: Place,
    body: &TypedStmt,
    rings: &Rings,
    number: usize,
) -> Result<(), AllocError>
    ensures { OnOk result (EmittedIn (made_of naming.now) (AndRoute (route_of naming.now (typed.Repeat place (stmt_of body.now)) (around_of rings.now) number)) (behind_of rings.now) (emission_of out.old) (emission_of out.new)) }
{
    emit_loop(
        out,
        naming,
        place,
        Turn::Always,
        body,
        LoopKind::Repeat,
        rings,
        number,
    )
}

#[cycle(emit)]
fn emit_until(
    out: &mut Emitter,
    naming: &Naming,
    place: Place,
    body: &TypedStmt,
    e: &TypedExpr,
    at: Place,
    rings: &Rings,
    number: usize,
) -> Result<(), AllocError>
    ensures { OnOk result (EmittedIn (made_of naming.now) (AndRoute (route_of naming.now (typed.RepeatUntil place (stmt_of body.now) (expr_of e.now) at) (around_of rings.now) number)) (behind_of rings.now) (emission_of out.old) (emission_of out.new)) }
{
    let turn = Turn::Until(e, at);
    emit_loop(
        out,
        naming,
        place,
        turn,
        body,
        LoopKind::Repeat,
        rings,
        number,
    )
}

#[cycle(emit)]
fn emit_do(
    out: &mut Emitter,
    naming: &Naming,
    place: Place,
    variable: usize,
    range: &TypedRange,
    body: &TypedStmt,
    rings: &Rings,
    number: usize,
) -> Result<(), AllocError>
    ensures { OnOk result (EmittedIn (made_of naming.now) (AndRoute (route_of naming.now (typed.Do place variable (expr_of range.now.first) (expr_of range.now.last) (option_map expr_of range.now.step) (stmt_of body.now)) (around_of rings.now) number)) (behind_of rings.now) (emission_of out.old) (emission_of out.new)) }
{
    let start = emit_start(out, naming, place, variable, range, number)?;
    let turn = Turn::Do(variable, start.limit, start.by);
    emit_loop(
        out,
        naming,
        place,
        turn,
        body,
        LoopKind::Do,
        rings,
        start.next,
    )
}

#[cycle(emit)]
fn emit_switch(
    out: &mut Emitter,
    naming: &Naming,
    place: Place,
    e: &TypedExpr,
    list: &[TypedClause],
    rings: &Rings,
    number: usize,
) -> Result<(), AllocError>
    ensures { OnOk result (EmittedIn (made_of naming.now) (AndRoute (route_of naming.now (typed.Switch place (expr_of e.now) (clauses_of list.now)) (around_of rings.now) number)) (behind_of rings.now) (emission_of out.old) (emission_of out.new)) }
{
    let value = emit_expression(out, naming, place, e, number)?;
    let behind = out.fresh_label(naming)?;
    let inside = Rings::Ring(RingKind::Behind(LoopKind::Switch), behind, &*rings);
    emit_clauses(out, naming, place, value, list, list, &inside)?;
    out.put_here(place, behind)
}

// The clauses one behind the other, and then the default of them all, where temporaries up to the value are in use.
#[cycle(emit)]
fn emit_clauses(
    out: &mut Emitter,
    naming: &Naming,
    place: Place,
    value: Evaluated,
    list: &[TypedClause],
    all: &[TypedClause],
    rings: &Rings,
) -> Result<(), AllocError>
    ensures { OnOk result (EmittedIn (made_of naming.now) (clauses_before naming.now place (operand_of value.operand) (clauses_of list.now) (clauses_of all.now) (around_of rings.now) value.next) (behind_of rings.now) (emission_of out.old) (emission_of out.new)) }
{
    match list.split_first() {
        None => emit_default(out, naming, all, rings, value.next),
        Some((clause, others)) => {
            if have_none(&clause.tests) {
                emit_clauses(out, naming, place, value, others, all, rings)
            } else {
                emit_clause(out, naming, place, value, clause, others, all, rings)
            }
        }
    }
}

// A clause with constants, and then the others.
#[cycle(emit)]
fn emit_clause(
    out: &mut Emitter,
    naming: &Naming,
    place: Place,
    value: Evaluated,
    clause: &TypedClause,
    others: &[TypedClause],
    all: &[TypedClause],
    rings: &Rings,
) -> Result<(), AllocError>
    ensures { OnOk result (EmittedIn (made_of naming.now) (clause_before naming.now place (operand_of value.operand) (out-TypedClause clause.now).tests.items (stmts_of (out-TypedClause clause.now).body.items) (clauses_of others.now) (clauses_of all.now) (around_of rings.now) value.next) (behind_of rings.now) (emission_of out.old) (emission_of out.new)) }
{
    let behind = out.fresh_label(naming)?;
    let inside = Rings::Ring(RingKind::Other, behind, &*rings);
    emit_tested(out, naming, place, value, clause, behind, &inside)?;
    emit_clauses(out, naming, place, value, others, all, &inside)?;
    out.put_here(place, behind)
}

// The constants of a clause, its statements, and a jump behind the other clauses.
#[cycle(emit)]
fn emit_tested(
    out: &mut Emitter,
    naming: &Naming,
    place: Place,
    value: Evaluated,
    clause: &TypedClause,
    behind: u32,
    rings: &Rings,
) -> Result<(), AllocError>
    requires { label_behind (behind_of rings.now) 0 ≡ behind }
    ensures { OnOk result (EmittedIn (made_of naming.now) (tested_of naming.now place (operand_of value.operand) (out-TypedClause clause.now).tests.items (stmts_of (out-TypedClause clause.now).body.items) (around_of rings.now) value.next) (behind_of rings.now) (emission_of out.old) (emission_of out.new)) }
{
    let others = out.fresh_label(naming)?;
    let inside = Rings::Ring(RingKind::Other, others, &*rings);
    emit_cases(out, naming, place, value.operand, &clause.tests, others)?;
    emit_block(out, naming, &clause.body, &inside, value.next)?;
    out.put_jump(place, behind)?;
    out.put_here(place, others)
}

// The statements of the default, which may be missing.
#[cycle(emit)]
fn emit_default(
    out: &mut Emitter,
    naming: &Naming,
    list: &[TypedClause],
    rings: &Rings,
    number: usize,
) -> Result<(), AllocError>
    ensures { OnOk result (EmittedIn (made_of naming.now) (default_before naming.now (clauses_of list.now) (around_of rings.now) number) (behind_of rings.now) (emission_of out.old) (emission_of out.new)) }
{
    match list.split_first() {
        None => Ok(()),
        Some((clause, others)) => {
            if clause.fallback {
                emit_block(out, naming, &clause.body, rings, number)
            } else {
                emit_default(out, naming, others, rings, number)
            }
        }
    }
}

// Whether a clause has no constants.
fn have_none(tests: &[i64]) -> bool
    ensures { result ≡ have_none tests.now }
{
    tests.is_empty()
}
