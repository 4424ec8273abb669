// The bounds of variables, and how large they are.
ghost use Rattle.std.specs.Prelude.{◌≡◌, ◌&&◌, not};
ghost use Rattle.std.specs.List.{list_any};
ghost use Rattle.efl_tree.specs.Syntax.{EflVar};
ghost use Rattle.efl_scope.specs.DataTypes.{DataType, is_closed as is_closed_seen};
ghost use Rattle.efl_scope.specs.Scopes.{of_bounds};
ghost use Rattle.efl_types.specs.Declarations.{is_open as is_open_seen, are_bounds as are_bounds_seen, size_faults};
ghost use Rattle.efl_scoped.specs.Numbers.{Table};
ghost use Rattle.efl_scoped.specs.Told.{Tells};
ghost use Rattle.efl_expressions.specs.FirstRule.{first_rule};
ghost use Rattle.efl_statements.specs.Bounds.{is_bound as is_bound_seen};

use crate::truths::{are_both, is_either};
use efl_expressions::{lower, rule_if};
use efl_names::is_large;
use efl_scoped::Summary;
use efl_tree::EflBound;
use efl_types::TypeRule;

/// What a variable or member with these bounds breaks, of which this is told.
pub fn size_rule(is_formal: bool, bounds: &[EflBound], told: Summary) -> Option<TypeRule>
    ensures { (f : Table) (t : DataType) (v : EflVar) → v.bounds ≡ bounds.now → Tells f (of_bounds t v) told → result ≡ first_rule (size_faults is_formal t v) }
{
    let many = rule_if(7 < bounds.len(), TypeRule::WrongCount);
    let bad = rule_if(!are_bounds(is_formal, bounds), TypeRule::BadConstant);
    let counted = is_counted(has_open(bounds), is_large(told));
    let large = rule_if(counted, TypeRule::LargeVariable);
    let inner = lower(bad, large);
    lower(many, inner)
}

/// Whether a variable is too large by its own count, which an array with `*` has elsewhere.
fn is_counted(is_open: bool, is_large: bool) -> bool
    ensures { result ≡ (not is_open && is_large) }
{
    !is_open && is_large
}

/// Whether `*` is among bounds.
fn has_open(bounds: &[EflBound]) -> bool
    ensures { result ≡ list_any is_open_seen bounds.now }
{
    bounds.iter().any(|bound| is_open(*bound))
}

/// Whether no lower bound is above its upper one, and `*` stands as the last bound of a formal alone.
fn are_bounds(is_formal: bool, bounds: &[EflBound]) -> bool
    ensures { result ≡ are_bounds_seen is_formal bounds.now }
{
    let mut all = true;
    for (i, bound) in bounds.iter().enumerate() {
        let is_last = i + 1 == bounds.len();
        all = are_both(all, is_bound(is_formal, is_last, *bound));
    }
    all
}

/// Whether a bound may stand there.
fn is_bound(is_formal: bool, is_last: bool, bound: EflBound) -> bool
    ensures { result ≡ is_bound_seen is_formal is_last bound }
{
    let may_be_open = are_both(is_formal, is_last);
    is_either(is_closed(bound), are_both(may_be_open, is_open(bound)))
}

/// `*`.
fn is_open(bound: EflBound) -> bool
    ensures { result ≡ is_open_seen bound }
{
    bound.high.is_none()
}

/// An upper bound that is not below the lower one.
fn is_closed(bound: EflBound) -> bool
    ensures { result ≡ is_closed_seen bound }
{
    match bound.high {
        None => false,
        Some(high) => bound.low.unwrap_or(1) <= high,
    }
}
