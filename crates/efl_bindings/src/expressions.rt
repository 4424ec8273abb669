// Expressions as typed trees.
ghost use Rattle.std.specs.Prelude.{◌≡◌, IfOk, option_map};
ghost use Rattle.efl_tree.specs.Syntax.{At, Call};
ghost use Rattle.efl_tree.specs.Views.{expr_of, exprs_of, expr_if_any, place_of};
ghost use Rattle.efl_typed.specs.Typing.{Context, called, value_kind};
ghost use Rattle.efl_bindings.specs.Sites.{IsSite};
ghost use Rattle.efl_bindings.specs.Typed.{IsTyped, AreTyped, IsTypedIfAny, IsAction, IsActionIfAny};

use crate::operators::{intrinsic, typed_op, typed_op_if_any};
use crate::{Site, typed_target};
use efl_tree::{EflExpr, EflName, EflPlace};
use efl_typed_tree::{TypedAction, TypedExpr};
use ground::{Kind, List};
use std::alloc::{AllocError, Global};

/// An expression of a part there.
#[cycle(typed_expression)]
pub fn typed_expression(alloc: Global, e: &EflExpr, site: &Site) -> Result<TypedExpr, AllocError>
    ensures { IfOk result (λ t. IsTyped site.now (expr_of e.now) t) }
{
    match e {
        EflExpr::Int(value) => Ok(TypedExpr::Int(*value)),
        EflExpr::Truth(value) => Ok(TypedExpr::Truth(*value)),
        EflExpr::At(place) => typed_value(alloc, place, site),
        EflExpr::Call(name, list) => typed_call(alloc, name, list, site),
        EflExpr::Group(a) => Ok(TypedExpr::Group(typed_boxed(alloc, a, site)?)),
        EflExpr::Plus(a) => Ok(TypedExpr::Plus(typed_boxed(alloc, a, site)?)),
        EflExpr::Minus(a) => Ok(TypedExpr::Minus(typed_boxed(alloc, a, site)?)),
        EflExpr::Not(a) => Ok(TypedExpr::Not(typed_boxed(alloc, a, site)?)),
        EflExpr::Up(place) => Ok(TypedExpr::Up(typed_target(place, site))),
        EflExpr::Down(place) => Ok(TypedExpr::Down(typed_target(place, site))),
        EflExpr::Pair(op, a, b) => {
            let a = typed_boxed(alloc, a, site)?;
            let b = typed_boxed(alloc, b, site)?;
            Ok(TypedExpr::Pair(typed_op(*op), a, b))
        }
        EflExpr::Assign(op, place, a) => {
            let a = typed_boxed(alloc, a, site)?;
            Ok(TypedExpr::Assign(typed_op_if_any(*op), typed_target(place, site), a))
        }
    }
}

#[cycle(typed_expression)]
fn typed_boxed(alloc: Global, e: &EflExpr, site: &Site) -> Result<Box<TypedExpr>, AllocError>
    ensures { IfOk result (λ t. IsTyped site.now (expr_of e.now) t.value) }
{
    let e = typed_expression(alloc, e, site)?;
    Ok(Box::new(alloc, e)?)
}

/// What stands at a place: a variable, or a call.
#[cycle(typed_expression)]
fn typed_value(alloc: Global, place: &EflPlace, site: &Site) -> Result<TypedExpr, AllocError>
    ensures { IfOk result (λ t. IsTyped site.now (At (place_of place.now)) t) }
{
    if place.subscripts.is_empty() {
        return Ok(TypedExpr::At(typed_target(place, site)));
    }
    typed_call(alloc, &place.first, &place.subscripts, site)
}

#[cycle(typed_expression)]
fn typed_call(
    alloc: Global,
    name: &EflName,
    list: &[EflExpr],
    site: &Site,
) -> Result<TypedExpr, AllocError>
    ensures { IfOk result (λ t. IsTyped site.now (Call name.now (exprs_of list.now)) t) }
{
    let list = typed_expressions(alloc, list, site)?;
    match called(name, site) {
        None => Ok(TypedExpr::Known(intrinsic(name.as_bytes()), list)),
        Some((number, kind)) => Ok(TypedExpr::Call(number, kind, list)),
    }
}

/// The procedure that a name calls, with the type of its value.
fn called(name: &EflName, site: &Site) -> Option<(usize, Kind)>
    ensures { (c : Context) → IsSite c site.now → result ≡ option_map (λ n. (n, value_kind c.procedures n)) (called c name.now) }
{
    site.procedures.procedure(name.as_bytes())
}

/// Expressions of a part there.
#[cycle(typed_expression)]
pub fn typed_expressions(
    alloc: Global,
    list: &[EflExpr],
    site: &Site,
) -> Result<List<TypedExpr>, AllocError>
    ensures { IfOk result (λ all. AreTyped site.now (exprs_of list.now) all.items) }
{
    let mut all = Vec::new(alloc);
    for e in list {
        all.push(typed_expression(alloc, e, site)?)?;
    }
    Ok(all)
}

/// An expression of a part there, if there is one.
pub fn typed_if_any(
    alloc: Global,
    e: &Option<EflExpr>,
    site: &Site,
) -> Result<Option<TypedExpr>, AllocError>
    ensures { IfOk result (λ t. IsTypedIfAny site.now (expr_if_any e.now) t) }
{
    match e {
        None => Ok(None),
        Some(e) => Ok(Some(typed_expression(alloc, e, site)?)),
    }
}

/// A statement that is an expression or a call.
pub fn typed_action(alloc: Global, e: &EflExpr, site: &Site) -> Result<TypedAction, AllocError>
    ensures { IfOk result (λ t. IsAction site.now (expr_of e.now) t) }
{
    match e {
        EflExpr::Call(name, list) => typed_invocation(alloc, name, list, site),
        _ => Ok(TypedAction::Evaluate(typed_expression(alloc, e, site)?)),
    }
}

fn typed_invocation(
    alloc: Global,
    name: &EflName,
    list: &[EflExpr],
    site: &Site,
) -> Result<TypedAction, AllocError>
    ensures { IfOk result (λ t. IsAction site.now (Call name.now (exprs_of list.now)) t) }
{
    let list = typed_expressions(alloc, list, site)?;
    match called(name, site) {
        None => Ok(TypedAction::Evaluate(TypedExpr::Int(0))),
        Some((number, _)) => Ok(TypedAction::Invoke(number, list)),
    }
}

/// The same, if there is one.
pub fn typed_action_if_any(
    alloc: Global,
    e: &Option<EflExpr>,
    site: &Site,
) -> Result<Option<TypedAction>, AllocError>
    ensures { IfOk result (λ t. IsActionIfAny site.now (expr_if_any e.now) t) }
{
    match e {
        None => Ok(None),
        Some(e) => Ok(Some(typed_action(alloc, e, site)?)),
    }
}
