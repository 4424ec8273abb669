// How many temporaries an expression takes.
ghost use Rattle.std.specs.Prelude.{◌≡◌, ◌+◌, IfOk, option_map};
ghost use Rattle.efl_routes.specs.Expressions.{made, made_for, made_in};
ghost use Rattle.efl_typed_tree.specs.Views.{expr_of, exprs_of, site_of};
ghost use Rattle.efl_room.specs.Actuals.{place_in};

use efl_typed_tree::{Scalar, TypedExpr};
use std::alloc::AllocError;

/// A sum; more than any memory has use for is refused.
pub fn plus(a: usize, b: usize) -> Result<usize, AllocError>
    ensures { IfOk result (λ n. n ≡ a + b) }
{
    match a.checked_add(b) {
        Some(sum) => Ok(sum),
        None => Err(AllocError),
    }
}

/// The variable that an actual is.
pub fn place_in(e: &TypedExpr) -> Option<Scalar>
    ensures { option_map site_of result ≡ place_in (expr_of e.now) }
{
    match e {
        TypedExpr::At(x) => Some(*x),
        _ => None,
    }
}

/// How many temporaries an expression takes.
#[cycle(count)]
pub fn made(e: &TypedExpr) -> Result<usize, AllocError>
    ensures { IfOk result (λ n. n ≡ made (expr_of e.now)) }
{
    match e {
        TypedExpr::Int(_) | TypedExpr::Truth(_) => Ok(0),
        TypedExpr::At(_) => Ok(1),
        TypedExpr::Call(_, _, list) => plus(made_for(list)?, 1),
        TypedExpr::Known(_, list) => plus(made_in(list)?, 1),
        TypedExpr::Group(a) | TypedExpr::Assign(None, _, a) => made(a),
        TypedExpr::Plus(a) | TypedExpr::Minus(a) | TypedExpr::Not(a) => plus(made(a)?, 1),
        TypedExpr::Up(_) | TypedExpr::Down(_) => Ok(2),
        TypedExpr::Pair(_, a, b) => {
            let left = made(a)?;
            plus(plus(left, made(b)?)?, 1)
        }
        TypedExpr::Assign(Some(_), _, a) => plus(plus(1, made(a)?)?, 1),
    }
}

// How many temporaries expressions take.
#[cycle(count)]
fn made_in(list: &[TypedExpr]) -> Result<usize, AllocError>
    ensures { IfOk result (λ n. n ≡ made_in (exprs_of list.now)) }
{
    let mut count = 0;
    for e in list {
        count = plus(count, made(e)?)?;
    }
    Ok(count)
}

/// How many temporaries actuals take.
#[cycle(count)]
pub fn made_for(list: &[TypedExpr]) -> Result<usize, AllocError>
    ensures { IfOk result (λ n. n ≡ made_for (exprs_of list.now)) }
{
    let mut count = 0;
    for e in list {
        if place_in(e).is_none() {
            count = plus(count, made(e)?)?;
        }
    }
    Ok(count)
}
