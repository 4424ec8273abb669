// How many temporaries are in use behind the parts of a statement, where some are in use before them.
ghost use Rattle.std.specs.Prelude.{◌≡◌, ◌+◌, IfOk, option_map};
ghost use Rattle.efl_routes.specs.Expressions.{made};
ghost use Rattle.efl_routes.specs.Statements.{made_if_any};
ghost use Rattle.efl_typed_tree.specs.Views.{action_of, expr_of, read_items_of, write_items_of};
ghost use Rattle.efl_lowered.specs.Needs.{of_act, of_any, of_items, of_taken};

use crate::{made, made_for, plus};
use efl_typed_tree::{TypedAction, TypedExpr, TypedReadItem, TypedWriteItem};
use std::alloc::AllocError;

/// With those of an expression.
pub fn of_value(e: &TypedExpr, number: usize) -> Result<usize, AllocError>
    ensures { IfOk result (λ n. n ≡ number + made (expr_of e.now)) }
{
    plus(number, made(e)?)
}

/// With those of an expression, where there is one.
pub fn of_if_any(e: &Option<TypedExpr>, number: usize) -> Result<usize, AllocError>
    ensures { IfOk result (λ n. n ≡ number + made_if_any (option_map expr_of e.now)) }
{
    match e {
        None => Ok(number),
        Some(e) => of_value(e, number),
    }
}

/// With those of an action.
pub fn of_action(action: &TypedAction, number: usize) -> Result<usize, AllocError>
    ensures { IfOk result (λ n. n ≡ of_act (action_of action.now) number) }
{
    match action {
        TypedAction::Evaluate(e) => of_value(e, number),
        TypedAction::Invoke(_, list) => plus(number, made_for(list)?),
    }
}

/// With those of an action, where there is one.
pub fn of_any(action: &Option<TypedAction>, number: usize) -> Result<usize, AllocError>
    ensures { IfOk result (λ n. n ≡ of_any (option_map action_of action.now) number) }
{
    match action {
        None => Ok(number),
        Some(action) => of_action(action, number),
    }
}

/// With those of the items of a `write`, each of which has one besides those of its expression.
pub fn of_items(items: &[TypedWriteItem], number: usize) -> Result<usize, AllocError>
    ensures { IfOk result (λ n. n ≡ of_items (write_items_of items.now) number) }
{
    let mut count = number;
    for item in items {
        if let TypedWriteItem::Value(e, _) = item {
            count = plus(of_value(e, count)?, 1)?;
        }
    }
    Ok(count)
}

/// With those of the items of a `read`, each of which has one.
pub fn of_taken(items: &[TypedReadItem], number: usize) -> Result<usize, AllocError>
    ensures { IfOk result (λ n. n ≡ of_taken (read_items_of items.now) number) }
{
    let mut count = number;
    for item in items {
        if let TypedReadItem::Take(_, _) = item {
            count = plus(count, 1)?;
        }
    }
    Ok(count)
}
