// What the productions of acts make, and of operands that begin with a name.
ghost use Rattle.std.specs.Prelude.{◌≡◌, ◌++◌, [], None, Some, Option, IfOk};
ghost use Rattle.efl_tree.specs.Syntax.{At, Call, Path, Assign};
ghost use Rattle.efl_tree.specs.Views.{expr_of, exprs_of, steps_of, place_of};
ghost use Rattle.efl_parse_values.specs.Kinds.{Called, Reached, Stored};
ghost use Rattle.efl_parse_values.specs.Values.{value, values, at, others, expr, rest, located, joins_of, tail_of, rest_of};
ghost use Rattle.efl_parse_values.specs.Parts.{as_expr, as_exprs, as_joins, as_rest, as_path, as_steps, place_in, name_in, sign_in, operator_of as operation, bare};
ghost use Rattle.efl_parse_expressions.specs.Phrases.{joined, with_steps as with_steps_so, with_arguments as with_arguments_so, completed, stepped};

use crate::expressions::{chained, join, step};
use efl_parse_values::{
    ExpressionValue, Rest, Tail, Value, into_expr, into_name, into_path, into_rest, operator_of,
    ordered, ordered_steps, place_of, pop_value, skip, take_sign,
};
use efl_tree::{EflExpr, EflName, EflOperator, EflPlace, EflStep};
use ground::List;
use std::alloc::{AllocError, Global};

fn call(name: EflName, arguments: List<EflExpr>) -> EflExpr
    ensures { expr_of result ≡ Call name (exprs_of arguments.items) }
{
    EflExpr::Call(name, arguments)
}

#[tactic(auto, using(efl_tree::proofs::Rows::at_expr))]
fn reach(place: EflPlace) -> EflExpr
    ensures { expr_of result ≡ At (place_of place) }
{
    EflExpr::At(place)
}

fn assign(operator: Option<EflOperator>, place: EflPlace, right: Box<EflExpr>) -> EflExpr
    ensures { expr_of result ≡ Assign operator (place_of place) (expr_of right.value) }
{
    EflExpr::Assign(operator, place, right)
}

/// What a name begins, by what stands behind it.
pub fn complete(alloc: Global, name: EflName, rest: Rest) -> Result<EflExpr, AllocError>
    ensures { IfOk result (λ e. expr_of e ≡ completed name (rest_of rest)) }
{
    let Rest {
        arguments,
        steps,
        tail,
    } = rest;
    match tail {
        Tail::Called(list) => {
            drop(steps);
            join(alloc, call(name, arguments), list)
        }
        Tail::Reached(list) => join(alloc, reach(place(name, arguments, steps)), list),
        Tail::Stored(operator, right) => Ok(assign(operator, place(name, arguments, steps), right)),
    }
}

fn place(first: EflName, subscripts: List<EflExpr>, steps: List<EflStep>) -> EflPlace
    ensures { place_of result ≡ Path first (exprs_of subscripts.items) (steps_of steps.items) }
{
    EflPlace {
        first,
        subscripts,
        steps,
    }
}

pub fn named_by(alloc: Global, parts: &mut Vec<Value>) -> Result<Value, AllocError>
    ensures { IfOk result (λ v. value v ≡ expr (completed (name_in (at 1 (values parts.old.items))) (as_rest (at 0 (values parts.old.items))))) }
{
    let rest = into_rest(alloc, pop_value(parts));
    let name = into_name(pop_value(parts));
    Ok(Value::Expression(ExpressionValue::Expr(complete(alloc, name, rest)?)))
}

fn rest_value(part: Rest) -> Value
    ensures { value result ≡ rest (rest_of part) }
{
    Value::Expression(ExpressionValue::Rest(part))
}

/// A tail with no arguments and no steps before it.
fn bare_rest(alloc: Global, tail: Tail) -> Rest
    ensures { rest_of result ≡ bare (tail_of tail) }
{
    Rest {
        arguments: Vec::new(alloc),
        steps: Vec::new(alloc),
        tail,
    }
}

fn with_steps(steps: List<EflStep>, mut part: Rest) -> Rest
    ensures { rest_of result ≡ with_steps_so (steps_of steps.items) (rest_of part) }
{
    part.steps = steps;
    part
}

fn with_arguments(arguments: List<EflExpr>, mut part: Rest) -> Rest
    ensures { rest_of result ≡ with_arguments_so (exprs_of arguments.items) (rest_of part) }
{
    part.arguments = arguments;
    part
}

/// Steps and what follows them.
fn stepped_rest(alloc: Global, parts: &mut Vec<Value>) -> Rest
    ensures rest { rest_of result ≡ with_steps_so (as_steps (at 1 (values parts.old.items))) (as_rest (at 0 (values parts.old.items))) }
    ensures others { values parts.new.items ≡ others (others (values parts.old.items)) }
{
    let part = into_rest(alloc, pop_value(parts));
    with_steps(ordered_steps(alloc, pop_value(parts)), part)
}

pub fn steps_by(alloc: Global, parts: &mut Vec<Value>) -> Value
    ensures { value result ≡ rest (with_steps_so (as_steps (at 1 (values parts.old.items))) (as_rest (at 0 (values parts.old.items)))) }
{
    rest_value(stepped_rest(alloc, parts))
}

/// Arguments in parentheses, steps, and what follows them.
pub fn arguments_and_steps_by(alloc: Global, parts: &mut Vec<Value>) -> Value
    ensures { value result ≡ rest (with_arguments_so (as_exprs (at 3 (values parts.old.items))) (with_steps_so (as_steps (at 1 (values parts.old.items))) (as_rest (at 0 (values parts.old.items))))) }
{
    let part = stepped_rest(alloc, parts);
    skip(parts);
    rest_value(with_arguments(ordered::<EflExpr>(alloc, pop_value(parts)), part))
}

/// Arguments in parentheses, and what follows them.
pub fn arguments_by(alloc: Global, parts: &mut Vec<Value>) -> Value
    ensures { value result ≡ rest (with_arguments_so (as_exprs (at 2 (values parts.old.items))) (as_rest (at 0 (values parts.old.items)))) }
{
    let part = into_rest(alloc, pop_value(parts));
    skip(parts);
    rest_value(with_arguments(ordered::<EflExpr>(alloc, pop_value(parts)), part))
}

/// A place with no operators behind it.
fn reached_rest(alloc: Global, steps: List<EflStep>) -> Rest
    ensures { rest_of result ≡ with_steps_so (steps_of steps.items) (bare (Reached [])) }
{
    with_steps(steps, bare_rest(alloc, Tail::Reached(Vec::new(alloc))))
}

pub fn reached_by(alloc: Global, parts: &mut Vec<Value>) -> Value
    ensures { value result ≡ rest (with_steps_so (as_steps (at 0 (values parts.old.items))) (bare (Reached []))) }
{
    rest_value(reached_rest(alloc, ordered_steps(alloc, pop_value(parts))))
}

pub fn reached_with_arguments_by(alloc: Global, parts: &mut Vec<Value>) -> Value
    ensures { value result ≡ rest (with_arguments_so (as_exprs (at 2 (values parts.old.items))) (with_steps_so (as_steps (at 0 (values parts.old.items))) (bare (Reached [])))) }
{
    let part = reached_rest(alloc, ordered_steps(alloc, pop_value(parts)));
    skip(parts);
    rest_value(with_arguments(ordered::<EflExpr>(alloc, pop_value(parts)), part))
}

pub fn called_with_joins_by(alloc: Global, parts: &mut Vec<Value>) -> Result<Value, AllocError>
    ensures { IfOk result (λ v. value v ≡ rest (bare (Called (as_joins (at 1 (values parts.old.items)) ++ as_joins (at 0 (values parts.old.items)))))) }
{
    let list = chained(alloc, parts)?;
    Ok(rest_value(bare_rest(alloc, Tail::Called(list))))
}

pub fn reached_with_joins_by(alloc: Global, parts: &mut Vec<Value>) -> Result<Value, AllocError>
    ensures { IfOk result (λ v. value v ≡ rest (bare (Reached (as_joins (at 1 (values parts.old.items)) ++ as_joins (at 0 (values parts.old.items)))))) }
{
    let list = chained(alloc, parts)?;
    Ok(rest_value(bare_rest(alloc, Tail::Reached(list))))
}

/// A call with no arguments or with those that stand before it.
pub fn called(alloc: Global) -> Value
    ensures { value result ≡ rest (bare (Called [])) }
{
    rest_value(bare_rest(alloc, Tail::Called(Vec::new(alloc))))
}

fn stored(alloc: Global, operator: Option<EflOperator>, right: EflExpr) -> Result<Value, AllocError>
    ensures { IfOk result (λ v. value v ≡ rest (bare (Stored operator (expr_of right)))) }
{
    let right = Box::new(alloc, right)?;
    Ok(rest_value(bare_rest(alloc, Tail::Stored(operator, right))))
}

pub fn stored_by(alloc: Global, parts: &mut Vec<Value>) -> Result<Value, AllocError>
    ensures { IfOk result (λ v. value v ≡ rest (bare (Stored None (as_expr (at 0 (values parts.old.items)))))) }
{
    stored(alloc, None, into_expr(pop_value(parts)))
}

pub fn stored_with_operator_by(alloc: Global, parts: &mut Vec<Value>) -> Result<Value, AllocError>
    ensures { IfOk result (λ v. value v ≡ rest (bare (Stored (Some (operation (sign_in (at 1 (values parts.old.items))))) (as_expr (at 0 (values parts.old.items)))))) }
{
    let right = into_expr(pop_value(parts));
    let operator = operator_of(take_sign(pop_value(parts)));
    stored(alloc, Some(operator), right)
}

pub fn step_deed_by(alloc: Global, parts: &mut Vec<Value>) -> Value
    ensures { value result ≡ located (place_in (at 1 (values parts.old.items))) (stepped (at 1 (values parts.old.items)) (as_path (at 0 (values parts.old.items)))) }
{
    let target = into_path(alloc, pop_value(parts));
    let sign = pop_value(parts);
    let place = place_of(&sign);
    Value::Expression(ExpressionValue::Located(place, step(sign, target)))
}
