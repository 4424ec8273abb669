// Expressions and their parts, taken out of values.
ghost use Rattle.std.specs.Prelude.{◌≡◌, reverse, refl, IfOk, ◌∷◌};
ghost use Rattle.efl_tree.specs.Syntax.{EflExprs, AndExpr};
ghost use Rattle.efl_tree.specs.Views.{expr_of, exprs_of, steps_of, place_of, expr_if_any};
ghost use Rattle.efl_parse_values.specs.Values.{value, exprs, joins_of, rest_of};
ghost use Rattle.efl_parse_values.specs.Parts.{as_expr, expr_part, as_exprs, as_joins, as_rest, as_path, as_steps};

use crate::lists::Item;
use crate::value::{ExpressionValue, Rest, Tail, Value};
use efl_tree::{EflExpr, EflName, EflOperator, EflPlace, EflStep};
use ground::{List, Text};
use std::alloc::Global;

impl Item for EflExpr {
    ghost Plain = { EflExprs };

    ghost plain = { exprs_of };

    ghost more = { λ x rest. AndExpr (expr_of x) rest };

    ghost listed = { λ xs. exprs xs };

    ghost list_in = { as_exprs };

    ghost with_item = { λ v rest. AndExpr (as_expr v) rest };

    ghost plain_more = { λ x xs. refl };

    fn into_item(_alloc: Global, part: Value) -> EflExpr
        ensures { (rest : EflExprs) → AndExpr (expr_of result) rest ≡ AndExpr (as_expr (value part)) rest }
    {
        into_expr(part)
    }

    fn into_list(alloc: Global, part: Value) -> Vec<EflExpr>
        ensures { exprs_of (reverse result.items) ≡ as_exprs (value part) }
    {
        match part {
            Value::Expression(ExpressionValue::Exprs(list)) => list,
            other => {
                drop(other);
                Vec::new(alloc)
            }
        }
    }

    fn list_value(list: Vec<EflExpr>) -> Value
        ensures { value result ≡ exprs (exprs_of (reverse list.items)) }
    {
        Value::Expression(ExpressionValue::Exprs(list))
    }
}

pub fn into_expr(part: Value) -> EflExpr
    ensures { expr_of result ≡ as_expr (value part) }
{
    match part {
        Value::Expression(ExpressionValue::Expr(e)) => e,
        Value::Expression(ExpressionValue::Located(_, e)) => e,
        other => {
            drop(other);
            EflExpr::Int(0)
        }
    }
}

pub fn into_expr_if_any(part: Value) -> Option<EflExpr>
    ensures { expr_if_any result ≡ expr_part (value part) }
{
    match part {
        Value::Expression(ExpressionValue::Expr(e)) => Some(e),
        Value::Expression(ExpressionValue::Located(_, e)) => Some(e),
        other => {
            drop(other);
            None
        }
    }
}

pub fn into_joins(alloc: Global, part: Value) -> Vec<(EflOperator, EflExpr)>
    ensures { joins_of result.items ≡ as_joins (value part) }
{
    match part {
        Value::Expression(ExpressionValue::Joins(list)) => list,
        other => {
            drop(other);
            Vec::new(alloc)
        }
    }
}

/// The last step first.
pub fn into_steps(alloc: Global, part: Value) -> Vec<EflStep>
    ensures { steps_of (reverse result.items) ≡ as_steps (value part) }
{
    match part {
        Value::Expression(ExpressionValue::Steps(list)) => list,
        other => {
            drop(other);
            Vec::new(alloc)
        }
    }
}

/// Steps in order.
pub fn ordered_steps(alloc: Global, part: Value) -> List<EflStep>
    ensures { steps_of result.items ≡ as_steps (value part) }
{
    let mut list = into_steps(alloc, part);
    list.reverse();
    list
}

pub fn into_rest(alloc: Global, part: Value) -> Rest
    ensures { rest_of result ≡ as_rest (value part) }
{
    match part {
        Value::Expression(ExpressionValue::Rest(rest)) => rest,
        other => {
            drop(other);
            Rest {
                arguments: Vec::new(alloc),
                steps: Vec::new(alloc),
                tail: Tail::Called(Vec::new(alloc)),
            }
        }
    }
}

pub fn into_path(alloc: Global, part: Value) -> EflPlace
    ensures { place_of result ≡ as_path (value part) }
{
    match part {
        Value::Expression(ExpressionValue::Path(path)) => path,
        other => {
            drop(other);
            EflPlace {
                first: EflName::new(Text::empty()),
                subscripts: Vec::new(alloc),
                steps: Vec::new(alloc),
            }
        }
    }
}
