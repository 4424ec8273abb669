// The names of common blocks, and the shapes of the places that EQUIVALENCE and DATA list.
ghost use Rattle.std.specs.Prelude.{◌≡◌, ◌||◌};
ghost use Rattle.std.specs.List.{list_any};
ghost use Rattle.rule_table.specs.Words.{is_some_and};
ghost use Rattle.f66_tree.specs.Syntax.{Item};
ghost use Rattle.f66_tree.specs.Views.{formula_of, formulas_of, act_of};
ghost use Rattle.f66_names.specs.DeclarationViews.{context_in};
ghost use Rattle.f66_names.specs.NameRules.{is_long as is_long_text};
ghost use Rattle.unit_rules.specs.ListViews.{AreLists};
ghost use Rattle.unit_rules.specs.Storage.{any_block, has_odd_subscript, is_no_element, lists_odd};

use crate::listed::Lists;
use f66_names::{Declarations, are_subscripts, is_array, is_long};
use f66_tree::{Area, Expr, Name, StmtKind};

fn is_long_block(name: &Option<Name>) -> bool
    ensures { result ≡ is_some_and is_long_text name.now }
{
    match name {
        Some(name) => is_long(name),
        None => false,
    }
}

fn are_some_long(areas: &[Area]) -> bool
    ensures { result ≡ list_any (λ a. is_some_and is_long_text a.name) areas.now }
{
    areas.iter().any(|area| is_long_block(&area.name))
}

/// Whether a common block has a name of more than six characters (X3.9-1966, sections 3.5 and 7.2.1.3).
#[tactic(auto, using(crate::proofs::ListLemmas::list_steps))]
pub fn has_long_block(kind: &StmtKind) -> bool
    ensures { result ≡ any_block is_long_text (act_of kind.now) }
{
    match kind {
        StmtKind::Common(areas) => are_some_long(areas),
        _ => false,
    }
}

fn is_odd_element(declarations: &Declarations, name: &Name, list: &[Expr]) -> bool
    ensures { result ≡ has_odd_subscript (context_in declarations.now) (Item name.now (formulas_of list.now)) }
{
    is_array(declarations, name) && !are_subscripts(declarations, list)
}

/// Whether an array's element has a subscript of none of the seven forms (section 5.1.3.3).
fn has_odd_subscript(declarations: &Declarations, e: &Expr) -> bool
    ensures { result ≡ has_odd_subscript (context_in declarations.now) (formula_of e.now) }
{
    match e {
        Expr::Item(item) => {
            let (name, list) = &**item;
            is_odd_element(declarations, name, list)
        }
        _ => false,
    }
}

fn is_no_element(declarations: &Declarations, e: &Expr) -> bool
    ensures { result ≡ is_no_element (context_in declarations.now) (formula_of e.now) }
{
    match e {
        Expr::Item(item) => !is_array(declarations, &item.0),
        _ => false,
    }
}

fn is_odd_member(declarations: &Declarations, e: &Expr) -> bool
    ensures { result
        ≡ (is_no_element (context_in declarations.now) (formula_of e.now) || has_odd_subscript (context_in declarations.now) (formula_of e.now)) }
{
    is_no_element(declarations, e) || has_odd_subscript(declarations, e)
}

fn are_some_members_odd(declarations: &Declarations, list: &[&Expr]) -> bool
    ensures { result
        ≡ list_any (λ e. is_no_element (context_in declarations.now) (formula_of e.now) || has_odd_subscript (context_in declarations.now) (formula_of e.now)) list.now }
{
    list.iter().any(|e| is_odd_member(declarations, e))
}

fn are_some_places_odd(declarations: &Declarations, list: &[&Expr]) -> bool
    ensures { result ≡ list_any (λ e. has_odd_subscript (context_in declarations.now) (formula_of e.now)) list.now }
{
    list.iter().any(|e| has_odd_subscript(declarations, e))
}

/// Whether a place that EQUIVALENCE or DATA lists has another shape than it asks for (sections 5.1.3.3, 7.2.1.4 and 7.2.2).
#[tactic(auto, using(crate::proofs::ListLemmas::list_steps))]
pub fn lists_odd(declarations: &Declarations, kind: &StmtKind, lists: &Lists) -> bool
    requires { AreLists lists.now (act_of kind.now) }
    ensures { result ≡ lists_odd (context_in declarations.now) (act_of kind.now) }
{
    are_some_members_odd(declarations, &lists.equated)
        || are_some_places_odd(declarations, &lists.preset)
}
