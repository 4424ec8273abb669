// What DATA may give a value.
ghost use Rattle.std.specs.Prelude.{◌≡◌, [], not, map, option_map, unwrap_or};
ghost use Rattle.std.specs.HashMap.{get_by};
ghost use Rattle.std.specs.List.{list_any};
ghost use Rattle.std.specs.Str.{bytes_eq};
ghost use Rattle.rule_table.specs.Words.{find_map};
ghost use Rattle.f66_tree.specs.Syntax.{Item, NoFormula};
ghost use Rattle.f66_tree.specs.Units.{sizes_of as first_sizes};
ghost use Rattle.f66_tree.specs.Views.{formula_of, formulas_of, par_of, header_of, act_of};
ghost use Rattle.f66_names.specs.DeclarationViews.{context_in, acts_in};
ghost use Rattle.unit_rules.specs.ListViews.{AreLists};
ghost use Rattle.unit_rules.specs.Storage.{block_in, is_data_unit, is_open_block, may_hold, is_within, are_within, takes_value, presets_wrong};

use crate::UnitNames;
use crate::again::is_held;
use crate::listed::Lists;
use f66_names::is_array;
use f66_tree::{Expr, Header, Name, Par, StmtKind};
use std::collections::HashMap;

fn is_data_unit(header: &Header) -> bool
    ensures { result ≡ is_data_unit (header_of header.now) }
{
    matches!(header, Header::Block)
}

fn is_open_block(header: &Header, labelled: Option<bool>) -> bool
    ensures { result ≡ is_open_block (header_of header.now) labelled }
{
    match labelled {
        None => true,
        Some(labelled) => labelled && is_data_unit(header),
    }
}

/// Whether the common block that a name is in has a name.
fn block_of(names: &UnitNames, name: &Name) -> Option<bool>
    ensures { result ≡ find_map (block_in name.now) (acts_in names.now.declarations) }
{
    names.blocks.get(name.as_bytes()).copied()
}

fn may_hold(names: &UnitNames, name: &Name) -> bool
    ensures { result ≡ may_hold (context_in names.now.declarations) (acts_in names.now.declarations) name.now }
{
    !is_held(names, name) && is_open_block(names.declarations.header, block_of(names, name))
}

fn is_within(size: &Par, e: &Expr) -> bool
    ensures { result ≡ is_within (par_of size.now) (formula_of e.now) }
{
    match (size, e) {
        (Par::Number(size), Expr::Int(value)) => 1 <= *value && *value <= *size,
        _ => false,
    }
}

#[tactic(auto, using(crate::proofs::WithinLemmas::within_none))]
fn are_all_read(sizes: &[Par]) -> bool
    ensures { result ≡ are_within (map par_of sizes.now) NoFormula }
{
    sizes.is_empty()
}

/// Whether subscripts are constants, each from 1 to its dimension (section 5.1.3.2).
fn are_within(sizes: &[Par], list: &[Expr]) -> bool
    ensures { result ≡ are_within (map par_of sizes.now) (formulas_of list.now) }
{
    let mut rest = sizes;
    for e in list {
        let [size, later @ ..] = rest else {
            return false;
        };
        if !is_within(size, e) {
            return false;
        }
        rest = later;
    }
    are_all_read(rest)
}

/// The dimensions that a table has of a name.
fn noted_sizes<'a>(table: &HashMap<&[u8], &'a [Par]>, name: &Name) -> &'a [Par]
    ensures { map par_of result.now ≡ unwrap_or (option_map (λ ns. map par_of ns.now) (get_by (λ k. bytes_eq name.now k.now) table.now)) [] }
{
    match table.get(name.as_bytes()) {
        Some(sizes) => sizes,
        None => &[],
    }
}

/// The first dimensions of a name.
fn sizes_of<'a>(names: &UnitNames<'a>, name: &Name) -> &'a [Par]
    ensures { map par_of result.now ≡ first_sizes name.now (context_in names.now.declarations).notes }
{
    noted_sizes(&names.sizes, name)
}

fn is_fit_element(names: &UnitNames, name: &Name, list: &[Expr]) -> bool
    ensures { result ≡ takes_value (context_in names.now.declarations) (acts_in names.now.declarations) (Item name.now (formulas_of list.now)) }
{
    is_array(&names.declarations, name)
        && (are_within(sizes_of(names, name), list) && may_hold(names, name))
}

/// Whether DATA may give a place a value (sections 7.2.1.3, 7.2.2 and 8.5).
fn takes_value(names: &UnitNames, e: &Expr) -> bool
    ensures { result ≡ takes_value (context_in names.now.declarations) (acts_in names.now.declarations) (formula_of e.now) }
{
    match e {
        Expr::Ref(name) => !is_array(&names.declarations, name) && may_hold(names, name),
        Expr::Item(item) => {
            let (name, list) = &**item;
            is_fit_element(names, name, list)
        }
        _ => false,
    }
}

fn refuse_some_values(names: &UnitNames, list: &[&Expr]) -> bool
    ensures { result ≡ list_any (λ e. not (takes_value (context_in names.now.declarations) (acts_in names.now.declarations) (formula_of e.now))) list.now }
{
    list.iter().any(|e| !takes_value(names, e))
}

/// Whether DATA gives a value to what takes none.
#[tactic(auto, using(crate::proofs::ListLemmas::list_steps))]
pub fn presets_wrong(names: &UnitNames, kind: &StmtKind, lists: &Lists) -> bool
    requires { AreLists lists.now (act_of kind.now) }
    ensures { result ≡ presets_wrong (context_in names.now.declarations) (acts_in names.now.declarations) (act_of kind.now) }
{
    refuse_some_values(names, &lists.preset)
}
