// Names that are listed twice, or stand in the header.
ghost use Rattle.std.specs.Prelude.{◌≡◌, ◌||◌, IfOk, map};
ghost use Rattle.std.specs.List.{list_any};
ghost use Rattle.rule_table.specs.Words.{first_place, is_below, repeats};
ghost use Rattle.f66_tree.specs.Views.{formula_of, declared_of, act_of};
ghost use Rattle.f66_names.specs.DeclarationViews.{context_in, acts_in};
ghost use Rattle.f66_names.specs.Declaring.{listed_in as listed_by};
ghost use Rattle.unit_rules.specs.Listed.{common_in, equated_in};
ghost use Rattle.unit_rules.specs.ListViews.{AreLists};
ghost use Rattle.unit_rules.specs.Storage.{commons, recommons, was_given_sizes, is_held, holds_place, lists_again};

use crate::UnitNames;
use crate::listed::{Lists, listed_in};
use f66_names::note_repeat;
use f66_tree::{Declared, Expr, Name, StmtKind};
use rule_table::is_below;
use std::alloc::{AllocError, Global};
use std::collections::HashMap;

fn was_in_common(names: &UnitNames, i: usize, name: &Name) -> bool
    ensures { result ≡ is_below i (first_place (commons name.now) (acts_in names.now.declarations)) }
{
    is_below(i, names.commons.get(name.as_bytes()).copied())
}

fn were_in_common(names: &UnitNames, i: usize, list: &[&Declared]) -> bool
    ensures { result ≡ list_any (λ d. is_below i (first_place (commons d.now.name) (acts_in names.now.declarations))) list.now }
{
    list.iter().any(|d| was_in_common(names, i, &d.name))
}

fn repeats(alloc: Global, list: &[&Declared]) -> Result<bool, AllocError>
    ensures { IfOk result (λ b. b ≡ repeats (map (λ d. d.now.name) list.now)) }
{
    let mut seen = HashMap::new(alloc);
    for declared in list {
        if note_repeat(&mut seen, declared.name.as_bytes())? {
            return Ok(true);
        }
    }
    Ok(false)
}

fn recommons(
    alloc: Global,
    names: &UnitNames,
    i: usize,
    list: &[&Declared],
) -> Result<bool, AllocError>
    ensures { IfOk result
        (λ b. b ≡ (list_any (λ d. is_below i (first_place (commons d.now.name) (acts_in names.now.declarations))) list.now || repeats (map (λ d. d.now.name) list.now))) }
{
    let twice = repeats(alloc, list)?;
    Ok(were_in_common(names, i, list) || twice)
}

fn was_given_sizes(names: &UnitNames, i: usize, declared: &Declared) -> bool
    ensures { result ≡ was_given_sizes (acts_in names.now.declarations) i (declared_of declared.now) }
{
    !declared.sizes.is_empty() && is_below(i, names.sized.get(declared.name.as_bytes()).copied())
}

fn were_given_sizes(names: &UnitNames, i: usize, list: &[&Declared]) -> bool
    ensures { result ≡ list_any (λ d. was_given_sizes (acts_in names.now.declarations) i (declared_of d.now)) list.now }
{
    list.iter().any(|d| was_given_sizes(names, i, d))
}

/// Whether a name is a dummy, or the unit's own.
pub fn is_held(names: &UnitNames, name: &Name) -> bool
    ensures { result ≡ is_held (context_in names.now.declarations).header name.now }
{
    names.held.contains_key(name.as_bytes())
}

fn holds_place(names: &UnitNames, e: &Expr) -> bool
    ensures { result ≡ holds_place (context_in names.now.declarations).header (formula_of e.now) }
{
    match e {
        Expr::Ref(name) => is_held(names, name),
        Expr::Item(item) => is_held(names, &item.0),
        _ => false,
    }
}

fn are_some_held(names: &UnitNames, list: &[&Declared]) -> bool
    ensures { result ≡ list_any (λ d. is_held (context_in names.now.declarations).header d.now.name) list.now }
{
    list.iter().any(|d| is_held(names, &d.name))
}

fn hold_some_places(names: &UnitNames, list: &[&Expr]) -> bool
    ensures { result ≡ list_any (λ e. holds_place (context_in names.now.declarations).header (formula_of e.now)) list.now }
{
    list.iter().any(|e| holds_place(names, e))
}

#[tactic(auto, using(crate::proofs::ListLemmas::list_steps))]
fn resizes(alloc: Global, names: &UnitNames, i: usize, kind: &StmtKind) -> Result<bool, AllocError>
    ensures { IfOk result (λ b. b ≡ list_any (was_given_sizes (acts_in names.now.declarations) i) (listed_by (act_of kind.now))) }
{
    let listed = listed_in(alloc, kind)?;
    Ok(were_given_sizes(names, i, &listed))
}

#[tactic(auto, using(crate::proofs::ListLemmas::list_steps))]
fn holds_some(names: &UnitNames, kind: &StmtKind, lists: &Lists) -> bool
    requires { AreLists lists.now (act_of kind.now) }
    ensures { result
        ≡ (list_any (λ d. is_held (context_in names.now.declarations).header d.name) (common_in (act_of kind.now))
        || list_any (holds_place (context_in names.now.declarations).header) (equated_in (act_of kind.now))) }
{
    are_some_held(names, &lists.common) || hold_some_places(names, &lists.equated)
}

fn recommons_in(
    alloc: Global,
    names: &UnitNames,
    i: usize,
    kind: &StmtKind,
    lists: &Lists,
) -> Result<bool, AllocError>
    requires { AreLists lists.now (act_of kind.now) }
    ensures { IfOk result (λ b. b ≡ recommons (acts_in names.now.declarations) i (common_in (act_of kind.now))) }
{
    let again = recommons(alloc, names, i, &lists.common)?;
    Ok(again)
}

/// Whether a name is in a common block twice, has dimensions twice, or stands in the header too (sections 7.2.1 and 8).
pub fn lists_again(
    alloc: Global,
    names: &UnitNames,
    i: usize,
    kind: &StmtKind,
    lists: &Lists,
) -> Result<bool, AllocError>
    requires { AreLists lists.now (act_of kind.now) }
    ensures { IfOk result (λ b. b ≡ lists_again (context_in names.now.declarations) (acts_in names.now.declarations) i (act_of kind.now)) }
{
    let again = recommons_in(alloc, names, i, kind, lists)?;
    let resized = resizes(alloc, names, i, kind)?;
    let held = holds_some(names, kind, lists);
    Ok(again || (resized || held))
}
