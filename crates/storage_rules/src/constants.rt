// The values of DATA, one for each place.
ghost use Rattle.std.specs.Prelude.{◌≡◌, ◌≤◌, ◌++◌, ◌-◌, ℕ, min, IfOk, OnOk, length, map, replicate, take};
ghost use Rattle.f66_tree.specs.Syntax.{Minus};
ghost use Rattle.f66_tree.specs.Views.{formula_of, initial_of};
ghost use Rattle.f66_program.specs.Initial.{content_of, values_of};
ghost use Rattle.storage_rules.specs.Presets.{content_seen};

use f66_tree::Expr;
use ground::Value;
use std::alloc::{AllocError, Global};

/// The values of a list, each as often as its count says, up to so many.
pub(crate) fn values_of(
    alloc: Global,
    most: usize,
    list: &[(u32, Expr)],
) -> Result<Vec<Option<Value>>, AllocError>
    ensures { IfOk result (λ v. map content_seen v.items ≡ take most (values_of (map initial_of list.now))) }
{
    let mut values = Vec::new(alloc);
    for (count, constant) in list {
        let value = value_of(constant)?;
        let left = most - values.len();
        add_times(&mut values, left.min(*count as usize), value)?;
    }
    Ok(values)
}

/// Adds a value so many times.
fn add_times(
    values: &mut Vec<Option<Value>>,
    times: usize,
    value: Option<Value>,
) -> Result<(), AllocError>
    ensures { OnOk result (map content_seen values.new.items ≡ map content_seen values.old.items ++ replicate times (content_seen value)) }
{
    for _time in 0..times {
        values.push(value)?;
    }
    Ok(())
}

/// The value of a constant.
fn value_of(constant: &Expr) -> Result<Option<Value>, AllocError>
    ensures { IfOk result (λ v. content_seen v ≡ content_of (formula_of constant.now)) }
{
    match constant {
        Expr::Int(value) => Ok(Some(Value::Int(*value))),
        Expr::Truth(value) => Ok(Some(Value::Log(*value))),
        Expr::Letter(code) => Ok(Some(Value::Int(i64::from(*code)))),
        Expr::Plus(inner) => value_of(inner),
        Expr::Minus(inner) => opposite_of(inner),
        _ => Ok(None),
    }
}

/// The value of a constant behind a minus sign. What does not fit counts as out of memory.
fn opposite_of(constant: &Expr) -> Result<Option<Value>, AllocError>
    ensures { IfOk result (λ v. content_seen v ≡ content_of (Minus (formula_of constant.now))) }
{
    match constant {
        Expr::Int(value) => match value.checked_neg() {
            Some(opposite) => Ok(Some(Value::Int(opposite))),
            None => Err(AllocError),
        },
        _ => Ok(None),
    }
}
