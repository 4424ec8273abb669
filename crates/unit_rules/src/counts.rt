// The counts of dimensions, and those of subscripts and values in EQUIVALENCE and DATA.
ghost use Rattle.std.specs.Prelude.{◌≡◌, ◌&&◌, ◌||◌, not, map, sum_by};
ghost use Rattle.std.specs.List.{list_any};
ghost use Rattle.f66_tree.specs.Syntax.{Text, Item};
ghost use Rattle.f66_tree.specs.Views.{formula_of, formulas_of, declared_of, initial_of, preset_of, act_of};
ghost use Rattle.f66_names.specs.Declaring.{is_sized};
ghost use Rattle.f66_names.specs.DeclarationViews.{context_in};
ghost use Rattle.f66_names.specs.NameRules.{has_many_sizes as has_many, has_wrong_sizes as has_wrong};
ghost use Rattle.unit_rules.specs.ListViews.{AreLists};
ghost use Rattle.unit_rules.specs.Storage.{miscounts_element, has_one_subscript, miscounts_values, any_part, lists_miscounted};

use crate::listed::Lists;
use f66_names::{Declarations, form_of, has_many_sizes, is_array, takes};
use f66_tree::{Declared, Expr, Name, PresetPart, StmtKind};

fn is_unfit(declared: &Declared) -> bool
    ensures { result ≡ (not (is_sized (declared_of declared.now)) || has_many (declared_of declared.now)) }
{
    declared.sizes.is_empty() || has_many_sizes(declared)
}

fn are_some_typed_many(list: &[Declared]) -> bool
    ensures { result ≡ list_any (λ d. has_many (declared_of d)) list.now }
{
    list.iter().any(|d| has_many_sizes(d))
}

fn are_some_unfit(list: &[Declared]) -> bool
    ensures { result ≡ list_any (λ d. not (is_sized (declared_of d)) || has_many (declared_of d)) list.now }
{
    list.iter().any(|d| is_unfit(d))
}

/// Whether a type statement gives more than three dimensions, or DIMENSION more or none (section 7.2.1.1).
#[tactic(auto, using(crate::proofs::ListLemmas::list_steps))]
pub fn has_wrong_sizes(kind: &StmtKind) -> bool
    ensures { result ≡ has_wrong (act_of kind.now) }
{
    match kind {
        StmtKind::Typed(_, list) => are_some_typed_many(list),
        StmtKind::Dimension(list) => are_some_unfit(list),
        _ => false,
    }
}

#[tactic(auto, using(crate::proofs::ListLemmas::many_seen))]
fn is_miscounted(declarations: &Declarations, name: &Name, list: &[Expr]) -> bool
    ensures { result ≡ miscounts_element (context_in declarations.now) (Item name.now (formulas_of list.now)) }
{
    is_array(declarations, name) && !takes(form_of(declarations, name), list.len())
}

/// Whether an element has another number of subscripts than its array has dimensions (section 5.1.3).
fn miscounts_element(declarations: &Declarations, e: &Expr) -> bool
    ensures { result ≡ miscounts_element (context_in declarations.now) (formula_of e.now) }
{
    match e {
        Expr::Item(item) => {
            let (name, list) = &**item;
            is_miscounted(declarations, name, list)
        }
        _ => false,
    }
}

#[tactic(auto, using(crate::proofs::ListLemmas::many_seen))]
fn is_one(list: &[Expr]) -> bool
    ensures { (x : Text) → result ≡ has_one_subscript (Item x (formulas_of list.now)) }
{
    list.len() == 1
}

fn has_one_subscript(e: &Expr) -> bool
    ensures { result ≡ has_one_subscript (formula_of e.now) }
{
    match e {
        Expr::Item(item) => is_one(&item.1),
        _ => false,
    }
}

fn miscounts_member(declarations: &Declarations, e: &Expr) -> bool
    ensures { result ≡ (miscounts_element (context_in declarations.now) (formula_of e.now) && not (has_one_subscript (formula_of e.now))) }
{
    miscounts_element(declarations, e) && !has_one_subscript(e)
}

fn are_some_members_miscounted(declarations: &Declarations, list: &[&Expr]) -> bool
    ensures { result
        ≡ list_any (λ e. miscounts_element (context_in declarations.now) (formula_of e.now) && not (has_one_subscript (formula_of e.now))) list.now }
{
    list.iter().any(|e| miscounts_member(declarations, e))
}

fn are_some_places_miscounted(declarations: &Declarations, list: &[&Expr]) -> bool
    ensures { result ≡ list_any (λ e. miscounts_element (context_in declarations.now) (formula_of e.now)) list.now }
{
    list.iter().any(|e| miscounts_element(declarations, e))
}

fn are_some_many(list: &[&Declared]) -> bool
    ensures { result ≡ list_any (λ d. has_many (declared_of d.now)) list.now }
{
    list.iter().any(|d| has_many_sizes(d))
}

/// How many values there are, each as often as its count says.
fn value_count(values: &[(u32, Expr)]) -> u128
    ensures { result ≡ sum_by (λ v. v.0) (map initial_of values.now) }
{
    let mut total: u128 = 0;
    for value in values {
        total += u128::from(value.0);
    }
    total
}

fn miscounts_values(part: &PresetPart) -> bool
    ensures { result ≡ miscounts_values (preset_of part.now) }
{
    part.places.len() as u128 != value_count(&part.values)
}

fn are_some_parts_miscounted(parts: &[PresetPart]) -> bool
    ensures { result ≡ list_any (λ p. miscounts_values (preset_of p)) parts.now }
{
    parts.iter().any(|part| miscounts_values(part))
}

/// Whether a part of DATA has another number of values than of places (section 7.2.2).
#[tactic(auto, using(crate::proofs::ListLemmas::list_steps))]
fn has_other_values(kind: &StmtKind) -> bool
    ensures { result ≡ any_part miscounts_values (act_of kind.now) }
{
    match kind {
        StmtKind::Preset(parts) => are_some_parts_miscounted(parts),
        _ => false,
    }
}

/// Whether dimensions, subscripts or values are too many or too few (sections 5.1.3, 7.2.1.3, 7.2.1.4 and 7.2.2).
#[tactic(auto, using(crate::proofs::ListLemmas::list_steps))]
pub fn lists_miscounted(declarations: &Declarations, kind: &StmtKind, lists: &Lists) -> bool
    requires { AreLists lists.now (act_of kind.now) }
    ensures { result ≡ lists_miscounted (context_in declarations.now) (act_of kind.now) }
{
    are_some_many(&lists.common)
        || (are_some_members_miscounted(declarations, &lists.equated)
            || (are_some_places_miscounted(declarations, &lists.preset) || has_other_values(kind)))
}
