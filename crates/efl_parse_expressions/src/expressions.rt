// What the productions of expressions make.
ghost use Rattle.std.specs.Prelude.{◌≡◌, ◌∷◌, ◌++◌, [], reverse, IfOk};
ghost use Rattle.efl_tree.specs.Syntax.{Int, Truth, Group, Not, Pair, Path, Member, Overlay, EflSteps, NoStep};
ghost use Rattle.efl_tree.specs.Views.{expr_of, exprs_of, step_then, steps_of, place_of};
ghost use Rattle.efl_parse_values.specs.Values.{value, values, last_of, others, at, expr, joins, path, steps, joins_of};
ghost use Rattle.efl_parse_values.specs.Parts.{as_expr, as_exprs, as_joins, as_path, as_steps, name_in, integer_in, sign_in, is_true, operator_of as operation};
ghost use Rattle.efl_parse_expressions.specs.Phrases.{joined, joint, signed_expr, stepped};

use efl_parse_values::{
    ExpressionValue, Value, into_expr, into_joins, into_name, into_path, into_steps, is_decrement,
    is_minus, operator_of, ordered, ordered_steps, pop_value, skip, take_integer, take_sign,
    take_truth,
};
use efl_tree::{EflExpr, EflName, EflOperator, EflPlace, EflStep};
use ground::List;
use std::alloc::{AllocError, Global};

fn pair(
    alloc: Global,
    operator: EflOperator,
    left: EflExpr,
    right: EflExpr,
) -> Result<EflExpr, AllocError>
    ensures { IfOk result (λ e. expr_of e ≡ Pair operator (expr_of left) (expr_of right)) }
{
    let left = Box::new(alloc, left)?;
    let right = Box::new(alloc, right)?;
    Ok(EflExpr::Pair(operator, left, right))
}

/// Operands grouped to the left.
pub fn join(
    alloc: Global,
    mut first: EflExpr,
    mut tail: Vec<(EflOperator, EflExpr)>,
) -> Result<EflExpr, AllocError>
    ensures { IfOk result (λ e. expr_of e ≡ joined (expr_of first) (joins_of tail.items)) }
{
    while let Some((operator, right)) = tail.pop() {
        first = pair(alloc, operator, first, right)?;
    }
    Ok(first)
}

/// Operators with operands, and those behind them.
#[tactic(auto, using(crate::proofs::Joins::joins_behind))]
pub fn chain(
    mut front: Vec<(EflOperator, EflExpr)>,
    mut back: Vec<(EflOperator, EflExpr)>,
) -> Result<Vec<(EflOperator, EflExpr)>, AllocError>
    ensures { IfOk result (λ r. joins_of r.items ≡ joins_of front.items ++ joins_of back.items) }
{
    back.append(&mut front)?;
    Ok(back)
}

/// The operators and operands that are the last two parts.
pub fn chained(
    alloc: Global,
    parts: &mut Vec<Value>,
) -> Result<Vec<(EflOperator, EflExpr)>, AllocError>
    ensures { IfOk result (λ r. joins_of r.items ≡ as_joins (at 1 (values parts.old.items)) ++ as_joins (at 0 (values parts.old.items))) }
{
    let back = into_joins(alloc, pop_value(parts));
    let front = into_joins(alloc, pop_value(parts));
    chain(front, back)
}

fn expr_value(e: EflExpr) -> Value
    ensures { value result ≡ expr (expr_of e) }
{
    Value::Expression(ExpressionValue::Expr(e))
}

fn joins_value(list: Vec<(EflOperator, EflExpr)>) -> Value
    ensures { value result ≡ joins (joins_of list.items) }
{
    Value::Expression(ExpressionValue::Joins(list))
}

/// A list with no operators.
pub fn no_joins(alloc: Global) -> Value
    ensures { value result ≡ joins [] }
{
    joins_value(Vec::new(alloc))
}

/// The operator that a part is, with an operand, in front of others.
fn joint_value(
    operator: EflOperator,
    right: EflExpr,
    mut rest: Vec<(EflOperator, EflExpr)>,
) -> Result<Value, AllocError>
    ensures { IfOk result (λ v. value v ≡ joins ((operator, expr_of right) ∷ joins_of rest.items)) }
{
    rest.push((operator, right))?;
    Ok(joins_value(rest))
}

/// An expression with operators behind it: the last two parts.
fn joined_part(alloc: Global, parts: &mut Vec<Value>) -> Result<EflExpr, AllocError>
    ensures joined { IfOk result (λ e. expr_of e ≡ joined (as_expr (at 1 (values parts.old.items))) (as_joins (at 0 (values parts.old.items)))) }
    ensures rest { values parts.new.items ≡ others (others (values parts.old.items)) }
{
    let tail = into_joins(alloc, pop_value(parts));
    let first = into_expr(pop_value(parts));
    join(alloc, first, tail)
}

/// An expression with operators behind it in two lists: the last three parts.
fn twice_joined_part(alloc: Global, parts: &mut Vec<Value>) -> Result<EflExpr, AllocError>
    ensures joined { IfOk result (λ e. expr_of e ≡ joined (joined (as_expr (at 2 (values parts.old.items))) (as_joins (at 1 (values parts.old.items)))) (as_joins (at 0 (values parts.old.items)))) }
    ensures rest { values parts.new.items ≡ others (others (others (values parts.old.items))) }
{
    let tail = into_joins(alloc, pop_value(parts));
    let first = joined_part(alloc, parts)?;
    join(alloc, first, tail)
}

fn take_operator(parts: &mut Vec<Value>) -> EflOperator
    ensures { result ≡ operation (sign_in (last_of (values parts.old.items))) }
{
    operator_of(take_sign(pop_value(parts)))
}

pub fn joined_by(alloc: Global, parts: &mut Vec<Value>) -> Result<Value, AllocError>
    ensures { IfOk result (λ v. value v ≡ expr (joined (as_expr (at 1 (values parts.old.items))) (as_joins (at 0 (values parts.old.items))))) }
{
    Ok(expr_value(joined_part(alloc, parts)?))
}

pub fn twice_joined_by(alloc: Global, parts: &mut Vec<Value>) -> Result<Value, AllocError>
    ensures { IfOk result (λ v. value v ≡ expr (joined (joined (as_expr (at 2 (values parts.old.items))) (as_joins (at 1 (values parts.old.items)))) (as_joins (at 0 (values parts.old.items))))) }
{
    Ok(expr_value(twice_joined_part(alloc, parts)?))
}

pub fn thrice_joined_by(alloc: Global, parts: &mut Vec<Value>) -> Result<Value, AllocError>
    ensures { IfOk result (λ v. value v ≡ expr (joined (joined (joined (as_expr (at 3 (values parts.old.items))) (as_joins (at 2 (values parts.old.items)))) (as_joins (at 1 (values parts.old.items)))) (as_joins (at 0 (values parts.old.items))))) }
{
    let tail = into_joins(alloc, pop_value(parts));
    let first = twice_joined_part(alloc, parts)?;
    Ok(expr_value(join(alloc, first, tail)?))
}

/// An operator, an operand with the operators of higher precedence behind it, and what is left.
pub fn more_joins_by(alloc: Global, parts: &mut Vec<Value>) -> Result<Value, AllocError>
    ensures { IfOk result (λ v. value v ≡ joins (joint (at 3 (values parts.old.items)) (joined (as_expr (at 2 (values parts.old.items))) (as_joins (at 1 (values parts.old.items)))) ∷ as_joins (at 0 (values parts.old.items)))) }
{
    let rest = into_joins(alloc, pop_value(parts));
    let right = joined_part(alloc, parts)?;
    joint_value(take_operator(parts), right, rest)
}

/// An operator, an operand, and what is left.
pub fn more_bare_joins_by(alloc: Global, parts: &mut Vec<Value>) -> Result<Value, AllocError>
    ensures { IfOk result (λ v. value v ≡ joins (joint (at 2 (values parts.old.items)) (as_expr (at 1 (values parts.old.items))) ∷ as_joins (at 0 (values parts.old.items)))) }
{
    let rest = into_joins(alloc, pop_value(parts));
    let right = into_expr(pop_value(parts));
    joint_value(take_operator(parts), right, rest)
}

pub fn one_join_by(alloc: Global, parts: &mut Vec<Value>) -> Result<Value, AllocError>
    ensures { IfOk result (λ v. value v ≡ joins (joint (at 2 (values parts.old.items)) (joined (as_expr (at 1 (values parts.old.items))) (as_joins (at 0 (values parts.old.items)))) ∷ [])) }
{
    let right = joined_part(alloc, parts)?;
    joint_value(take_operator(parts), right, Vec::new(alloc))
}

pub fn one_twice_joined_by(alloc: Global, parts: &mut Vec<Value>) -> Result<Value, AllocError>
    ensures { IfOk result (λ v. value v ≡ joins (joint (at 3 (values parts.old.items)) (joined (joined (as_expr (at 2 (values parts.old.items))) (as_joins (at 1 (values parts.old.items)))) (as_joins (at 0 (values parts.old.items)))) ∷ [])) }
{
    let right = twice_joined_part(alloc, parts)?;
    joint_value(take_operator(parts), right, Vec::new(alloc))
}

/// The operators of all precedences behind a factor.
pub fn after_factor_by(alloc: Global, parts: &mut Vec<Value>) -> Result<Value, AllocError>
    ensures { IfOk result (λ v. value v ≡ joins (as_joins (at 4 (values parts.old.items)) ++ as_joins (at 3 (values parts.old.items)) ++ as_joins (at 2 (values parts.old.items)) ++ as_joins (at 1 (values parts.old.items)) ++ as_joins (at 0 (values parts.old.items)))) }
{
    let mut list = into_joins(alloc, pop_value(parts));
    list = chain(into_joins(alloc, pop_value(parts)), list)?;
    list = chain(into_joins(alloc, pop_value(parts)), list)?;
    list = chain(into_joins(alloc, pop_value(parts)), list)?;
    list = chain(into_joins(alloc, pop_value(parts)), list)?;
    Ok(joins_value(list))
}

pub fn negated_by(alloc: Global, parts: &mut Vec<Value>) -> Result<Value, AllocError>
    ensures { IfOk result (λ v. value v ≡ expr (Not (as_expr (at 0 (values parts.old.items))))) }
{
    let inner = Box::new(alloc, into_expr(pop_value(parts)))?;
    Ok(expr_value(EflExpr::Not(inner)))
}

pub fn group_by(alloc: Global, parts: &mut Vec<Value>) -> Result<Value, AllocError>
    ensures { IfOk result (λ v. value v ≡ expr (Group (as_expr (at 1 (values parts.old.items))))) }
{
    skip(parts);
    let inner = Box::new(alloc, into_expr(pop_value(parts)))?;
    Ok(expr_value(EflExpr::Group(inner)))
}

pub fn signed_by(alloc: Global, parts: &mut Vec<Value>) -> Result<Value, AllocError>
    ensures { IfOk result (λ v. value v ≡ expr (signed_expr (at 1 (values parts.old.items)) (as_expr (at 0 (values parts.old.items))))) }
{
    let inner = Box::new(alloc, into_expr(pop_value(parts)))?;
    if is_minus(take_sign(pop_value(parts))) {
        Ok(expr_value(EflExpr::Minus(inner)))
    } else {
        Ok(expr_value(EflExpr::Plus(inner)))
    }
}

/// `++` or `--`.
#[tactic(auto, using(efl_tree::proofs::Rows::up_expr, efl_tree::proofs::Rows::down_expr))]
pub fn step(part: Value, place: EflPlace) -> EflExpr
    ensures { expr_of result ≡ stepped (value part) (place_of place) }
{
    if is_decrement(take_sign(part)) {
        EflExpr::Down(place)
    } else {
        EflExpr::Up(place)
    }
}

pub fn stepped_by(alloc: Global, parts: &mut Vec<Value>) -> Value
    ensures { value result ≡ expr (stepped (at 1 (values parts.old.items)) (as_path (at 0 (values parts.old.items)))) }
{
    let place = into_path(alloc, pop_value(parts));
    expr_value(step(pop_value(parts), place))
}

pub fn number_by(parts: &mut Vec<Value>) -> Value
    ensures { value result ≡ expr (Int (integer_in (at 0 (values parts.old.items)))) }
{
    expr_value(EflExpr::Int(take_integer(pop_value(parts))))
}

pub fn truth_by(parts: &mut Vec<Value>) -> Value
    ensures { value result ≡ expr (Truth (is_true (at 0 (values parts.old.items)))) }
{
    expr_value(EflExpr::Truth(take_truth(pop_value(parts))))
}

/// A place: its first name, subscripts and steps.
pub fn path_by(alloc: Global, parts: &mut Vec<Value>) -> Value
    ensures { value result ≡ path (Path (name_in (at 2 (values parts.old.items))) (as_exprs (at 1 (values parts.old.items))) (as_steps (at 0 (values parts.old.items)))) }
{
    let steps = ordered_steps(alloc, pop_value(parts));
    let subscripts = ordered::<EflExpr>(alloc, pop_value(parts));
    let first = into_name(pop_value(parts));
    Value::Expression(ExpressionValue::Path(EflPlace {
        first,
        subscripts,
        steps,
    }))
}

fn steps_value(list: Vec<EflStep>) -> Value
    ensures { value result ≡ steps (steps_of (reverse list.items)) }
{
    Value::Expression(ExpressionValue::Steps(list))
}

/// A list with no steps.
pub fn no_steps(alloc: Global) -> Value
    ensures { value result ≡ steps NoStep }
{
    steps_value(Vec::new(alloc))
}

fn member(name: EflName, subscripts: List<EflExpr>) -> EflStep
    ensures { (rest : EflSteps) → step_then result rest ≡ Member name (exprs_of subscripts.items) rest }
{
    EflStep::Member(name, subscripts)
}

fn more_steps(first: EflStep, mut rest: Vec<EflStep>) -> Result<Value, AllocError>
    ensures { IfOk result (λ v. value v ≡ steps (step_then first (steps_of (reverse rest.items)))) }
{
    rest.push(first)?;
    Ok(steps_value(rest))
}

pub fn member_by(alloc: Global, parts: &mut Vec<Value>) -> Result<Value, AllocError>
    ensures { IfOk result (λ v. value v ≡ steps (Member (name_in (at 2 (values parts.old.items))) (as_exprs (at 1 (values parts.old.items))) (as_steps (at 0 (values parts.old.items))))) }
{
    let rest = into_steps(alloc, pop_value(parts));
    let subscripts = ordered::<EflExpr>(alloc, pop_value(parts));
    let name = into_name(pop_value(parts));
    more_steps(member(name, subscripts), rest)
}

pub fn overlay_by(alloc: Global, parts: &mut Vec<Value>) -> Result<Value, AllocError>
    ensures { IfOk result (λ v. value v ≡ steps (Overlay (name_in (at 1 (values parts.old.items))) (as_steps (at 0 (values parts.old.items))))) }
{
    let rest = into_steps(alloc, pop_value(parts));
    let name = into_name(pop_value(parts));
    more_steps(EflStep::Overlay(name), rest)
}
