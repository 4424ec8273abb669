// The rules of constants, stores and sizes.
ghost use Rattle.std.specs.Prelude.{◌≡◌, ◌≤◌, ◌*◌, ◌&&◌, map, min};
ghost use Rattle.std.specs.List.{list_any};
ghost use Rattle.f66_tree.specs.Views.{formula_of, par_of, declared_of, entry_of, entries_of, act_of};
ghost use Rattle.f66_tree.specs.Syntax.{Par as Bounded, Many};
ghost use Rattle.f66_names.specs.StoreRules.{is_bad_size, has_bad_size, has_bad_constant, is_assignable, is_readable, stores_item, stores_entry, store_entries, stores_wrong, is_large, has_large_array, capped_size};
ghost use Rattle.f66_names.specs.Sorts.{is_dummy, is_counter};
ghost use Rattle.f66_names.specs.DeclarationViews.{context_in};

use crate::declarations::Declarations;
use crate::sorts::{is_array, is_counter, is_dummy};
use crate::tables::declared_in;
use f66_tree::{Declared, Entry, Expr, Name, Par, StmtKind, Way};

/// Whether a dimension is zero, or a name and no adjustable dimension (X3.9-1966, section 7.2.1.1).
#[tactic(auto, using(rule_table::proofs::WordLemmas::list_any_map))]
pub fn has_bad_constant(declarations: &Declarations, kind: &StmtKind) -> bool
    ensures { result ≡ has_bad_constant (context_in declarations.now) (act_of kind.now) }
{
    are_some_bad(declarations, declared_in(kind))
}

fn is_bad_size(declarations: &Declarations, name: &Name, size: &Par) -> bool
    ensures { result ≡ is_bad_size (context_in declarations.now) name.now (par_of size.now) }
{
    match size {
        Par::Number(value) => *value <= 0,
        Par::Variable(variable) => !is_adjustable(declarations, name, variable),
    }
}

/// Whether a variable may be a dimension of a name: both are dummies, and it is an integer.
fn is_adjustable(declarations: &Declarations, name: &Name, variable: &Name) -> bool
    ensures { result
        ≡ (is_dummy (context_in declarations.now) name.now && (is_dummy (context_in declarations.now) variable.now && is_counter (context_in declarations.now) variable.now)) }
{
    is_dummy(declarations, name)
        && (is_dummy(declarations, variable) && is_counter(declarations, variable))
}

#[tactic(auto, using(rule_table::proofs::WordLemmas::list_any_map))]
/// Whether a dimension of a name is zero, or a name and no adjustable dimension.
pub fn has_bad_size(declarations: &Declarations, declared: &Declared) -> bool
    ensures { result ≡ has_bad_size (context_in declarations.now) (declared_of declared.now) }
{
    are_some_unfit(declarations, &declared.name, &declared.sizes)
}

fn are_some_unfit(declarations: &Declarations, name: &Name, sizes: &[Par]) -> bool
    ensures { result ≡ list_any (λ n. is_bad_size (context_in declarations.now) name.now (par_of n)) sizes.now }
{
    sizes.iter().any(|n| is_bad_size(declarations, name, n))
}

fn are_some_bad(declarations: &Declarations, list: &[Declared]) -> bool
    ensures { result ≡ list_any (λ d. has_bad_size (context_in declarations.now) (declared_of d)) list.now }
{
    list.iter().any(|d| has_bad_size(declarations, d))
}

/// Whether a statement stores into a whole array, or into what is no variable and no element (section 7.1.1).
pub fn stores_wrong(declarations: &Declarations, kind: &StmtKind) -> bool
    ensures { result ≡ stores_wrong (context_in declarations.now) (act_of kind.now) }
{
    match kind {
        StmtKind::Assign(target, _) => !is_assignable(declarations, target),
        StmtKind::Loop(_, counting) => is_array(declarations, &counting.variable),
        StmtKind::When(_, inner) => stores_wrong(declarations, inner),
        StmtKind::Read(_, _, list) => !store_entries(Way::Reading, declarations, list),
        StmtKind::Write(_, _, list) => !store_entries(Way::Writing, declarations, list),
        _ => false,
    }
}

fn is_assignable(declarations: &Declarations, target: &Expr) -> bool
    ensures { result ≡ is_assignable (context_in declarations.now) (formula_of target.now) }
{
    match target {
        Expr::Ref(name) => !is_array(declarations, name),
        Expr::Item(item) => is_array(declarations, &item.0),
        _ => false,
    }
}

/// Whether what has parentheses is an element of an array, which alone a value may be read into.
pub fn is_readable(declarations: &Declarations, e: &Expr) -> bool
    ensures { result ≡ is_readable (context_in declarations.now) (formula_of e.now) }
{
    match e {
        Expr::Item(item) => is_array(declarations, &item.0),
        _ => true,
    }
}

fn stores_item(way: Way, declarations: &Declarations, e: &Expr) -> bool
    ensures { result ≡ stores_item way (context_in declarations.now) (formula_of e.now) }
{
    match way {
        Way::Reading => is_readable(declarations, e),
        Way::Writing => true,
    }
}

#[cycle(store_entries)]
fn stores_entry(way: Way, declarations: &Declarations, entry: &Entry) -> bool
    ensures { result ≡ stores_entry way (context_in declarations.now) (entry_of entry.now) }
{
    match entry {
        Entry::Item(e) => stores_item(way, declarations, e),
        Entry::Many(list, variable, _, _, _) => { store_counted(way, declarations, list, variable) }
    }
}

/// Whether the list of an implied DO takes its stores, and the variable is no array.
#[cycle(store_entries)]
fn store_counted(way: Way, declarations: &Declarations, list: &[Entry], variable: &Name) -> bool
    ensures { (a b c : Bounded) → result ≡ stores_entry way (context_in declarations.now) (Many (entries_of list.now) variable.now a b c) }
{
    store_entries(way, declarations, list) && !is_array(declarations, variable)
}

/// Whether each item of a READ takes a store, and no variable of an implied DO is an array (section 7.1.3).
#[cycle(store_entries)]
fn store_entries(way: Way, declarations: &Declarations, list: &[Entry]) -> bool
    ensures { result ≡ store_entries way (context_in declarations.now) (entries_of list.now) }
{
    for entry in list {
        if !stores_entry(way, declarations, entry) {
            return false;
        }
    }
    true
}

/// Whether an array has more than 32,767 places.
#[tactic(auto, using(rule_table::proofs::WordLemmas::list_any_map))]
pub fn has_large_array(kind: &StmtKind) -> bool
    ensures { result ≡ has_large_array (act_of kind.now) }
{
    are_some_large(declared_in(kind))
}

fn are_some_large(list: &[Declared]) -> bool
    ensures { result ≡ list_any (λ d. is_large (declared_of d)) list.now }
{
    list.iter().any(|d| is_large(d))
}

/// Whether there are more than 32,767 places. Their product is kept below what could wrap.
pub fn is_large(declared: &Declared) -> bool
    ensures { result ≡ is_large (declared_of declared.now) }
{
    let mut places: u64 = 1;
    for size in &declared.sizes {
        places = times(places, size);
    }
    places > 32767
}

fn times(places: u64, size: &Par) -> u64
    requires { places ≤ 32768 }
    ensures { result ≡ min (places * capped_size (par_of size.now)) 32768 }
{
    let size = match size {
        Par::Number(value) => value.unsigned_abs().min(32768),
        Par::Variable(_) => 0,
    };
    (places * size).min(32768)
}
