// The rules of constants in COMMON, EQUIVALENCE and DATA, and of the sizes of common arrays.
ghost use Rattle.std.specs.Prelude.{◌≡◌, ◌==◌, not, map, take, drop};
ghost use Rattle.std.specs.List.{list_any};
ghost use Rattle.f66_tree.specs.Syntax.{Text, Item};
ghost use Rattle.f66_tree.specs.Views.{formula_of, formulas_of, declared_of, initial_of, preset_of, act_of};
ghost use Rattle.f66_names.specs.DeclarationViews.{context_in};
ghost use Rattle.f66_names.specs.Kinds.{takes_kind as takes_values};
ghost use Rattle.f66_names.specs.StoreRules.{has_bad_size as has_bad, is_large as is_large_array};
ghost use Rattle.unit_rules.specs.Listed.{common_in};
ghost use Rattle.unit_rules.specs.ListViews.{AreLists};
ghost use Rattle.unit_rules.specs.Storage.{any_part, are_numbers, has_variable_subscript, has_misfit, has_bad_value, lists_bad_constant};

use crate::listed::Lists;
use crate::types::kind_seen;
use f66_names::{Declarations, has_bad_size, is_large, is_number, takes_kind};
use f66_tree::{Declared, Expr, PresetPart, StmtKind};
use ground::Kind;

fn are_numbers(list: &[Expr]) -> bool
    ensures { result ≡ are_numbers (formulas_of list.now) }
{
    for e in list {
        if !is_number(e) {
            return false;
        }
    }
    true
}

fn is_variable_element(list: &[Expr]) -> bool
    ensures { (x : Text) → result ≡ has_variable_subscript (Item x (formulas_of list.now)) }
{
    !are_numbers(list)
}

fn has_variable_subscript(e: &Expr) -> bool
    ensures { result ≡ has_variable_subscript (formula_of e.now) }
{
    match e {
        Expr::Item(item) => is_variable_element(&item.1),
        _ => false,
    }
}

fn are_some_variable(list: &[&Expr]) -> bool
    ensures { result ≡ list_any (λ e. has_variable_subscript (formula_of e.now)) list.now }
{
    list.iter().any(|e| has_variable_subscript(e))
}

fn are_some_bad(declarations: &Declarations, list: &[&Declared]) -> bool
    ensures { result ≡ list_any (λ d. has_bad (context_in declarations.now) (declared_of d.now)) list.now }
{
    list.iter().any(|d| has_bad_size(declarations, d))
}

fn refuse_some(declarations: &Declarations, places: &[Expr], kind: Kind) -> bool
    ensures { result ≡ list_any (λ p. not (takes_values (context_in declarations.now) (formula_of p) kind)) places.now }
{
    places.iter().any(|e| !takes_kind(declarations, e, kind))
}

/// The first places of a list, so many.
fn front(list: &[Expr], count: u32) -> &[Expr]
    ensures { result.now ≡ take count list.now }
{
    if (count as usize) < list.len() {
        &list[..count as usize]
    } else {
        list
    }
}

/// Those behind them.
fn behind(list: &[Expr], count: u32) -> &[Expr]
    ensures { result.now ≡ drop count list.now }
{
    if (count as usize) < list.len() {
        &list[count as usize..]
    } else {
        &[]
    }
}

/// Whether a place gets a value of another type than its own.
fn has_misfit(declarations: &Declarations, places: &[Expr], values: &[(u32, Expr)]) -> bool
    ensures { result ≡ has_misfit (context_in declarations.now) (map formula_of places.now) (map initial_of values.now) }
{
    let mut rest = places;
    for value in values {
        if refuse_some(
            declarations,
            front(rest, value.0),
            kind_seen(declarations, &value.1),
        ) {
            return true;
        }
        rest = behind(rest, value.0);
    }
    false
}

fn has_zero(values: &[(u32, Expr)]) -> bool
    ensures { result ≡ list_any (λ v. v.0 == 0) values.now }
{
    values.iter().any(|value| value.0 == 0)
}

#[tactic(auto, using(crate::proofs::ListLemmas::list_steps))]
fn has_bad_value(declarations: &Declarations, part: &PresetPart) -> bool
    ensures { result ≡ has_bad_value (context_in declarations.now) (preset_of part.now) }
{
    has_zero(&part.values) || has_misfit(declarations, &part.places, &part.values)
}

fn have_some_bad_values(declarations: &Declarations, parts: &[PresetPart]) -> bool
    ensures { result ≡ list_any (λ p. has_bad_value (context_in declarations.now) (preset_of p)) parts.now }
{
    parts.iter().any(|part| has_bad_value(declarations, part))
}

/// Whether DATA has a count of zero, or a value of another type than its place (section 7.2.2).
#[tactic(auto, using(crate::proofs::ListLemmas::list_steps))]
fn has_bad_values(declarations: &Declarations, kind: &StmtKind) -> bool
    ensures { result ≡ any_part (has_bad_value (context_in declarations.now)) (act_of kind.now) }
{
    match kind {
        StmtKind::Preset(parts) => have_some_bad_values(declarations, parts),
        _ => false,
    }
}

/// Whether a dimension in COMMON, a subscript in EQUIVALENCE or a value of DATA is not as it should be (sections 7.2.1.3,
/// 7.2.1.4 and 7.2.2).
#[tactic(auto, using(crate::proofs::ListLemmas::list_steps))]
pub fn lists_bad_constant(declarations: &Declarations, kind: &StmtKind, lists: &Lists) -> bool
    requires { AreLists lists.now (act_of kind.now) }
    ensures { result ≡ lists_bad_constant (context_in declarations.now) (act_of kind.now) }
{
    are_some_bad(declarations, &lists.common)
        || (are_some_variable(&lists.equated) || has_bad_values(declarations, kind))
}

fn are_some_large(list: &[&Declared]) -> bool
    ensures { result ≡ list_any (λ d. is_large_array (declared_of d.now)) list.now }
{
    list.iter().any(|d| is_large(d))
}

/// Whether an array in a common block has more than 32,767 places.
#[tactic(auto, using(crate::proofs::ListLemmas::list_steps))]
pub fn has_large_common(kind: &StmtKind, lists: &Lists) -> bool
    requires { AreLists lists.now (act_of kind.now) }
    ensures { result ≡ list_any is_large_array (common_in (act_of kind.now)) }
{
    are_some_large(&lists.common)
}
