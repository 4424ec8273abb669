// How many temporaries statements need: the most that are in use at once within them, where some are in use before them.
ghost use Rattle.std.specs.Prelude.{◌≡◌, ◌+◌, max, IfOk, option_map};
ghost use Rattle.efl_routes.specs.Expressions.{made};
ghost use Rattle.efl_routes.specs.Statements.{made_if_any};
ghost use Rattle.efl_typed_tree.specs.Views.{action_of, clauses_of, expr_of, stmt_of, stmts_of};
ghost use Rattle.efl_room.specs.Branches.{with_other, with_until};
ghost use Rattle.efl_lowered.specs.Needs.{all_need, clauses_need, needs, of_any};

use crate::{of_action, of_any, of_if_any, of_items, of_taken, of_value, plus};
use efl_typed_tree::{TypedAction, TypedClause, TypedExpr, TypedKind, TypedRange, TypedStmt};
use ground::Place;
use std::alloc::AllocError;

/// How many temporaries a body needs.
pub fn needs(body: &[TypedStmt]) -> Result<usize, AllocError>
    ensures { IfOk result (λ n. n ≡ all_need (stmts_of body.now) 0) }
{
    list_needs(body, 0)
}

// The statements of a list, one after another.
#[cycle(needs)]
fn list_needs(list: &[TypedStmt], number: usize) -> Result<usize, AllocError>
    ensures { IfOk result (λ n. n ≡ all_need (stmts_of list.now) number) }
{
    let mut most = number;
    for statement in list {
        most = most.max(statement_needs(statement, number)?);
    }
    Ok(most)
}

#[cycle(needs)]
fn statement_needs(statement: &TypedStmt, number: usize) -> Result<usize, AllocError>
    ensures { IfOk result (λ n. n ≡ needs (stmt_of statement.now) number) }
{
    match &statement.kind {
        TypedKind::Empty => Ok(number),
        TypedKind::Block(list) => list_needs(list, number),
        TypedKind::Act(action) => of_action(action, number),
        TypedKind::If(e, body, other) => if_needs(e, body, other, number),
        TypedKind::While(e, body) => with_value(e, body, number),
        TypedKind::For(first, e, step, body) => for_needs(first, e, step, body, number),
        TypedKind::Repeat(body, until) => repeat_needs(body, until, number),
        TypedKind::Do(_, range, body) => do_needs(range, body, number),
        TypedKind::Switch(e, list) => switch_needs(e, list, number),
        TypedKind::Break(_, _) => Ok(number),
        TypedKind::Next(_, _) => Ok(number),
        TypedKind::Goto(_) => Ok(number),
        TypedKind::Return(e) => of_if_any(e, number),
        TypedKind::Write(unit, items) => of_items(items, of_if_any(unit, number)?),
        TypedKind::Read(unit, items) => of_taken(items, of_if_any(unit, number)?),
    }
}

// A statement beside an expression.
#[cycle(needs)]
fn with_value(e: &TypedExpr, body: &TypedStmt, number: usize) -> Result<usize, AllocError>
    ensures { IfOk result (λ n. n ≡ max (number + made (expr_of e.now)) (needs (stmt_of body.now) number)) }
{
    let value = of_value(e, number)?;
    let body = statement_needs(body, number)?;
    Ok(value.max(body))
}

#[cycle(needs)]
fn if_needs(
    e: &TypedExpr,
    body: &TypedStmt,
    other: &Option<Box<TypedStmt>>,
    number: usize,
) -> Result<usize, AllocError>
    ensures { IfOk result (λ n. n ≡ max (number + made (expr_of e.now)) (with_other other.now number (needs (stmt_of body.now) number))) }
{
    match other {
        None => with_value(e, body, number),
        Some(other) => either_needs(e, body, other, number),
    }
}

#[cycle(needs)]
fn repeat_needs(
    body: &TypedStmt,
    until: &Option<(TypedExpr, Place)>,
    number: usize,
) -> Result<usize, AllocError>
    ensures { IfOk result (λ n. n ≡ with_until until.now number (needs (stmt_of body.now) number)) }
{
    match until {
        None => statement_needs(body, number),
        Some(until) => with_value(&until.0, body, number),
    }
}

#[cycle(needs)]
fn either_needs(
    e: &TypedExpr,
    body: &TypedStmt,
    other: &TypedStmt,
    number: usize,
) -> Result<usize, AllocError>
    ensures { IfOk result (λ n. n ≡ max (number + made (expr_of e.now)) (max (needs (stmt_of body.now) number) (needs (stmt_of other.now) number))) }
{
    let value = of_value(e, number)?;
    let body = statement_needs(body, number)?;
    let other = statement_needs(other, number)?;
    Ok(value.max(body.max(other)))
}

#[cycle(needs)]
fn for_needs(
    first: &Option<TypedAction>,
    e: &Option<TypedExpr>,
    step: &Option<TypedAction>,
    body: &TypedStmt,
    number: usize,
) -> Result<usize, AllocError>
    ensures { IfOk result (λ n. n ≡ max (of_any (option_map action_of first.now) number) (max (number + made_if_any (option_map expr_of e.now)) (max (of_any (option_map action_of step.now) number) (needs (stmt_of body.now) number)))) }
{
    let first = of_any(first, number)?;
    let value = of_if_any(e, number)?;
    let step = of_any(step, number)?;
    let body = statement_needs(body, number)?;
    Ok(first.max(value.max(step.max(body))))
}

// Within a `do` its limit and its step are kept, and two are needed to turn.
#[cycle(needs)]
fn do_needs(range: &TypedRange, body: &TypedStmt, number: usize) -> Result<usize, AllocError>
    ensures { IfOk result (λ n. let kept = number + made (expr_of range.now.last) + made_if_any (option_map expr_of range.now.step) in
        n ≡ max (kept + made (expr_of range.now.first)) (max (kept + 2) (needs (stmt_of body.now) kept))) }
{
    let kept = of_if_any(&range.step, of_value(&range.last, number)?)?;
    let first = of_value(&range.first, kept)?;
    let turn = plus(kept, 2)?;
    let body = statement_needs(body, kept)?;
    Ok(first.max(turn.max(body)))
}

#[cycle(needs)]
fn switch_needs(e: &TypedExpr, list: &[TypedClause], number: usize) -> Result<usize, AllocError>
    ensures { IfOk result (λ n. let value = number + made (expr_of e.now) in n ≡ max value (clauses_need (clauses_of list.now) value)) }
{
    let value = of_value(e, number)?;
    let most = clauses_need(list, value)?;
    Ok(value.max(most))
}

// The statements of the clauses of a switch.
#[cycle(needs)]
fn clauses_need(list: &[TypedClause], number: usize) -> Result<usize, AllocError>
    ensures { IfOk result (λ n. n ≡ clauses_need (clauses_of list.now) number) }
{
    let mut most = number;
    for clause in list {
        most = most.max(list_needs(&clause.body, number)?);
    }
    Ok(most)
}
