// The statements of FORTRAN that a statement of Ratfor becomes. Each statement is taken, and its parts are handed on.
ghost use Rattle.std.specs.Prelude.{◌≡◌, ◌+◌, ◌≤◌, ◌∷◌, List, length, None, IfOk, OnOk, Bool, true, false};
ghost use Rattle.f66_tree.specs.Views.{formula_of, lines_of, par_of};
ghost use Rattle.rat_tree.specs.Syntax.{Do, Switch, For, RepeatUntil, If, IfElse};
ghost use Rattle.rat_tree.specs.Views.{act_if_any, command, commands, clauses, formula_if_any};
ghost use Rattle.rat_lower.specs.Around.{rings_of};
ghost use Rattle.rat_lower.specs.Code.{all_labels, clause_labels, default_label, here, labels, with_test};
ghost use Rattle.rat_lower.specs.Emitted.{Adds, AllEmitted, ClausesEmitted, Emitted, first_default, labels_past};

use crate::{
    Around, Maker, append, put, put_act, put_back, put_break, put_cases, put_do, put_head,
    put_here, put_jump, put_mark, put_next, put_otherwise, put_return, put_turn, put_unless,
    put_value,
};
use f66_tree::{Counting, Expr, Stmt, StmtKind};
use ground::{List, Memory, Place};
use rat_tree::{ForHead, RatCase, RatKind, RatStmt};

#[cycle(emit)]
fn emit(
    maker: &mut Maker,
    code: &mut List<Stmt>,
    statement: RatStmt,
    around: &Around,
) -> Result<(), Memory>
    requires { maker.old.made + length maker.old.taken + labels (command statement) ≤ 77000 }
    ensures { OnOk result (Emitted (command statement) (rings_of around.now) maker.old maker.new (lines_of code.old.items) (lines_of code.new.items)) }
{
    put_mark(code, &statement)?;
    let RatStmt { label, place, kind } = statement;
    match kind {
        RatKind::Empty => Ok(()),
        RatKind::Block(list) => emit_all(maker, code, list, around),
        RatKind::If(e, body, other) => {
            let body = Box::into_inner(body);
            match other {
                None => emit_if(maker, code, place, e, body, around),
                Some(other) => {
                    emit_either(maker, code, place, e, body, Box::into_inner(other), around)
                }
            }
        }
        RatKind::While(e, body) => {
            emit_loop(
                maker,
                code,
                place,
                Some(e),
                None,
                Box::into_inner(body),
                around,
            )
        }
        RatKind::For(head, body) => {
            let ForHead { first, test, step } = Box::into_inner(head);
            put_act(code, place, first)?;
            emit_loop(
                maker,
                code,
                place,
                test,
                step,
                Box::into_inner(body),
                around,
            )
        }
        RatKind::Repeat(body, until) => {
            let body = Box::into_inner(body);
            match until {
                None => emit_loop(maker, code, place, None, None, body, around),
                Some((e, at)) => emit_until(maker, code, place, body, e, at, around),
            }
        }
        RatKind::Do(counting, body) => {
            let counting = Box::into_inner(counting);
            emit_do(maker, code, place, counting, Box::into_inner(body), around)
        }
        RatKind::Switch(e, list) => emit_switch(maker, code, place, e, list, around),
        RatKind::Break(count) => Ok(put_break(code, place, count, around)?),
        RatKind::Next(count) => Ok(put_next(code, place, count, around)?),
        RatKind::Return(value) => Ok(put_return(maker, code, place, value)?),
        RatKind::Plain(kind) => Ok(put(code, label, place, kind)?),
    }
}

/// The statements of a list, one after another.
#[cycle(emit)]
pub fn emit_all(
    maker: &mut Maker,
    code: &mut List<Stmt>,
    list: List<RatStmt>,
    around: &Around,
) -> Result<(), Memory>
    requires { maker.old.made + length maker.old.taken + all_labels (commands list.items) ≤ 77000 }
    ensures { OnOk result (AllEmitted (commands list.items) (rings_of around.now) maker.old maker.new (lines_of code.old.items) (lines_of code.new.items)) }
{
    for statement in list {
        emit(maker, code, statement, around)?;
    }
    Ok(())
}

#[cycle(emit)]
fn emit_if(
    maker: &mut Maker,
    code: &mut List<Stmt>,
    place: Place,
    e: Expr,
    body: RatStmt,
    around: &Around,
) -> Result<(), Memory>
    requires { maker.old.made + length maker.old.taken + (labels (command body) + 1) ≤ 77000 }
    ensures { OnOk result (Emitted (If place (formula_of e) (command body)) (rings_of around.now) maker.old maker.new (lines_of code.old.items) (lines_of code.new.items)) }
{
    let behind = maker.fresh_label()?;
    put_unless(maker.alloc(), code, place, e, behind)?;
    emit(maker, code, body, around)?;
    put_here(code, place, behind)?;
    Ok(())
}

#[cycle(emit)]
fn emit_either(
    maker: &mut Maker,
    code: &mut List<Stmt>,
    place: Place,
    e: Expr,
    body: RatStmt,
    other: RatStmt,
    around: &Around,
) -> Result<(), Memory>
    requires { maker.old.made + length maker.old.taken + (labels (command body) + labels (command other) + 2) ≤ 77000 }
    ensures { OnOk result (Emitted (IfElse place (formula_of e) (command body) (command other)) (rings_of around.now) maker.old maker.new (lines_of code.old.items) (lines_of code.new.items)) }
{
    let (otherwise, behind) = maker.two_labels()?;
    put_unless(maker.alloc(), code, place, e, otherwise)?;
    emit(maker, code, body, around)?;
    put_otherwise(code, place, behind, otherwise)?;
    emit(maker, code, other, around)?;
    put_here(code, place, behind)?;
    Ok(())
}

// A loop with what is tested before each turn and what is done behind it, where there is something.
#[cycle(emit)]
fn emit_loop(
    maker: &mut Maker,
    code: &mut List<Stmt>,
    place: Place,
    test: Option<Expr>,
    step: Option<StmtKind>,
    body: RatStmt,
    around: &Around,
) -> Result<(), Memory>
    requires { maker.old.made + length maker.old.taken + (labels (command body) + 3) ≤ 77000 }
    ensures { OnOk result (Emitted (For place None (formula_if_any test) (act_if_any step) (command body)) (rings_of around.now) maker.old maker.new (lines_of code.old.items) (lines_of code.new.items)) }
{
    let (head, again, behind) = begin_loop(maker, code, place, test)?;
    emit(maker, code, body, &Around::Loop(behind, again, &*around))?;
    put_turn(code, place, again, step)?;
    put_back(code, place, head, behind)?;
    Ok(())
}

/// The labels of a loop, of which the first is put with what is tested before each turn.
fn begin_loop(
    maker: &mut Maker,
    code: &mut List<Stmt>,
    place: Place,
    test: Option<Expr>,
) -> Result<(u32, u32, u32), Memory>
    requires { maker.old.made + length maker.old.taken + 3 ≤ 77000 }
    ensures first { IfOk result (λ labels. labels.0 ≡ labels_past maker.old.taken maker.old.made) }
    ensures second { IfOk result (λ labels. labels.1 ≡ labels_past maker.old.taken (maker.old.made + 1)) }
    ensures third { IfOk result (λ labels. labels.2 ≡ labels_past maker.old.taken (maker.old.made + 2)) }
    ensures made { OnOk result (maker.new.made ≡ maker.old.made + 3) }
    ensures taken { OnOk result (maker.new.taken ≡ maker.old.taken) }
    ensures spare { OnOk result (maker.new.spare ≡ maker.old.spare) }
    ensures own { OnOk result (maker.new.own ≡ maker.old.own) }
    ensures head { IfOk result (λ labels. Adds (lines_of code.old.items) (lines_of code.new.items) (λ rest. here labels.0 place ∷ with_test place (formula_if_any test) labels.2 rest)) }
{
    let (head, again, behind) = maker.three_labels()?;
    put_head(maker.alloc(), code, place, head, test, behind)?;
    Ok((head, again, behind))
}

#[cycle(emit)]
fn emit_until(
    maker: &mut Maker,
    code: &mut List<Stmt>,
    place: Place,
    body: RatStmt,
    e: Expr,
    at: Place,
    around: &Around,
) -> Result<(), Memory>
    requires { maker.old.made + length maker.old.taken + (labels (command body) + 3) ≤ 77000 }
    ensures { OnOk result (Emitted (RepeatUntil place (command body) (formula_of e) at) (rings_of around.now) maker.old maker.new (lines_of code.old.items) (lines_of code.new.items)) }
{
    let (head, again, behind) = maker.three_labels()?;
    put_here(code, place, head)?;
    emit(maker, code, body, &Around::Loop(behind, again, &*around))?;
    put_here(code, place, again)?;
    put_unless(maker.alloc(), code, at, e, head)?;
    put_here(code, place, behind)?;
    Ok(())
}

#[cycle(emit)]
fn emit_do(
    maker: &mut Maker,
    code: &mut List<Stmt>,
    place: Place,
    counting: Counting,
    body: RatStmt,
    around: &Around,
) -> Result<(), Memory>
    requires { maker.old.made + length maker.old.taken + (labels (command body) + 2) ≤ 77000 }
    ensures { OnOk result (Emitted (Do place counting.variable (par_of counting.first) (par_of counting.last) (par_of counting.step) (command body)) (rings_of around.now) maker.old maker.new (lines_of code.old.items) (lines_of code.new.items)) }
{
    let (end, behind) = maker.two_labels()?;
    put_do(maker.alloc(), code, place, end, counting)?;
    emit(maker, code, body, &Around::Loop(behind, end, &*around))?;
    put_here(code, place, end)?;
    put_here(code, place, behind)?;
    Ok(())
}

// The value is compared with all cases before the first body.
#[cycle(emit)]
fn emit_switch(
    maker: &mut Maker,
    code: &mut List<Stmt>,
    place: Place,
    e: Expr,
    list: List<RatCase>,
    around: &Around,
) -> Result<(), Memory>
    requires { maker.old.made + length maker.old.taken + (clause_labels (clauses list.items) + 1) ≤ 77000 }
    ensures { OnOk result (Emitted (Switch place (formula_of e) (clauses list.items)) (rings_of around.now) maker.old maker.new (lines_of code.old.items) (lines_of code.new.items)) }
{
    let behind = maker.fresh_label()?;
    let spare = maker.spare()?;
    put_value(code, place, spare, e)?;
    let mut bodies = Vec::new(maker.alloc());
    let default = emit_clauses(maker, code, &mut bodies, list, behind, around)?;
    put_jump(code, place, default)?;
    append(code, bodies)?;
    put_here(code, place, behind)?;
    Ok(())
}

// The tests of the clauses, and their bodies apart; the answer is where the switch goes on with none of its cases.
#[cycle(emit)]
fn emit_clauses(
    maker: &mut Maker,
    code: &mut List<Stmt>,
    bodies: &mut List<Stmt>,
    list: List<RatCase>,
    behind: u32,
    around: &Around,
) -> Result<u32, Memory>
    requires { maker.old.made + length maker.old.taken + clause_labels (clauses list.items) ≤ 77000 }
    ensures emitted { OnOk result (ClausesEmitted (clauses list.items) behind (rings_of around.now) maker.old maker.new (lines_of code.old.items) (lines_of code.new.items) (lines_of bodies.old.items) (lines_of bodies.new.items)) }
    ensures default { IfOk result (λ label. label ≡ default_label (labels_past maker.old.taken) maker.old.spare maker.old.own (clauses list.items) maker.old.made behind) }
{
    let mut default = None;
    for clause in list {
        let label = maker.fresh_label()?;
        let RatCase {
            tests,
            fallback,
            body,
            place,
        } = clause;
        put_cases(maker, code, place, tests, label)?;
        put_here(bodies, place, label)?;
        emit_all(maker, bodies, body, around)?;
        put_jump(bodies, place, behind)?;
        default = first_default(default, fallback, label);
    }
    Ok(default.unwrap_or(behind))
}

// The label of the first default so far.
fn first_default(before: Option<u32>, fallback: bool, label: u32) -> Option<u32>
    ensures { result ≡ first_default before fallback label }
{
    match before {
        None if fallback => Some(label),
        _ => before,
    }
}
