// The names of a unit that have places of its own.
ghost use Rattle.std.specs.Prelude.{◌≡◌, ◌<◌, ◌^◌, ◌||◌, ◌&&◌, not, ℕ, List, OnOk, IfOk, Some, None, if◌then◌else◌, map};
ghost use Rattle.std.specs.HashMap.{get_by};
ghost use Rattle.std.specs.List.{list_any};
ghost use Rattle.std.specs.Option.{option_or};
ghost use Rattle.std.specs.Str.{bytes_eq};
ghost use Rattle.f66_tree.specs.Views.{act_of, declared_of, header_of, line_of, routine_of};
ghost use Rattle.f66_program.specs.Mentions.{declares, has_places, is_dummy, is_function, is_own_value, is_variable, mentioned};
ghost use Rattle.f66_mentions.specs.UnitViews.{context_in, mention_of};
ghost use Rattle.storage_assoc.specs.Listings.{IsListing, has_name};
ghost use Rattle.storage_assoc.specs.Placing.{declared_in, is_none};

use crate::listing::{Listing, is_listed, list_name, no_names};
use f66_mentions::{Mention, UnitNames, is_dummy, mentions_into};
use f66_tree::{Declared, Header, Stmt, StmtKind};
use rule_table::note;
use std::alloc::{AllocError, Global};
use std::collections::HashMap;

/// The names of a unit that have places: those that are no dummies, and stand there as variables, are declared and nowhere
/// called, or hold the function's value.
pub(crate) fn placed_names<'a>(
    alloc: Global,
    first: usize,
    names: &UnitNames<'a>,
) -> Result<Listing<'a>, AllocError>
    requires few { first < 2 ^ 62 }
    ensures listing { IfOk result (λ l. IsListing first l) }
    ensures listed { IfOk result (λ l. (q : List ℕ) → has_name l q ≡ has_places (routine_of names.now.unit.now) q) }
{
    let mut listing = no_names(alloc);
    let mut called = HashMap::new(alloc);
    list_own(first, names, &mut listing)?;
    list_mentioned(alloc, first, names, &mut listing, &mut called)?;
    list_declared(first, names, &called, &mut listing)?;
    Ok(listing)
}

/// Lists a name that is no dummy.
fn list_own_name<'a>(
    first: usize,
    names: &UnitNames<'a>,
    listing: &mut Listing<'a>,
    name: &'a [u8],
) -> Result<(), AllocError>
    requires few { first < 2 ^ 62 }
    requires listing { IsListing first listing.old }
    ensures listing { OnOk result (IsListing first listing.new) }
    ensures listed { OnOk result ((q : List ℕ) → has_name listing.new q
        ≡ (has_name listing.old q || (not (is_dummy q (header_of names.now.unit.now.header)) && bytes_eq q name.now))) }
{
    // Most names that are mentioned are listed by then.
    if is_listed(listing, name) || is_dummy(names, name) {
        return Ok(());
    }
    list_name(first, listing, name)
}

/// Lists a function's own name, which holds its value.
fn list_own<'a>(
    first: usize,
    names: &UnitNames<'a>,
    listing: &mut Listing<'a>,
) -> Result<(), AllocError>
    requires few { first < 2 ^ 62 }
    requires listing { IsListing first listing.old }
    ensures listing { OnOk result (IsListing first listing.new) }
    ensures listed { OnOk result ((q : List ℕ) → has_name listing.new q
        ≡ (has_name listing.old q || (not (is_dummy q (header_of names.now.unit.now.header)) && is_own_value q (header_of names.now.unit.now.header)))) }
{
    match &names.unit.header {
        Header::Func(_, name, _) => list_own_name(first, names, listing, name.as_bytes()),
        _ => Ok(()),
    }
}

/// Lists the names that stand as variables in the statements of a unit, and notes those that are called.
fn list_mentioned<'a>(
    alloc: Global,
    first: usize,
    names: &UnitNames<'a>,
    listing: &mut Listing<'a>,
    called: &mut HashMap<&'a [u8], ()>,
) -> Result<(), AllocError>
    requires few { first < 2 ^ 62 }
    requires listing { IsListing first listing.old }
    ensures listing { OnOk result (IsListing first listing.new) }
    ensures listed { OnOk result ((q : List ℕ) → has_name listing.new q
        ≡ (has_name listing.old q || (not (is_dummy q (header_of names.now.unit.now.header))
        && mentioned (is_variable q) (context_in names.now) (map line_of names.now.unit.now.statements.items)))) }
    ensures called { OnOk result ((q : List ℕ) → get_by (λ k. bytes_eq q k.now) called.new
        ≡ option_or (get_by (λ k. bytes_eq q k.now) called.old)
        (if mentioned (is_function q) (context_in names.now) (map line_of names.now.unit.now.statements.items) then Some tt else None)) }
{
    let mut mentions = Vec::new(alloc);
    for statement in &names.unit.statements {
        mentions_into(names, &statement.kind, &mut mentions)?;
        list_variables(first, names, listing, &mentions)?;
        note_called(called, &mentions)?;
    }
    Ok(())
}

fn list_variables<'a>(
    first: usize,
    names: &UnitNames<'a>,
    listing: &mut Listing<'a>,
    mentions: &[Mention<'a>],
) -> Result<(), AllocError>
    requires few { first < 2 ^ 62 }
    requires listing { IsListing first listing.old }
    ensures listing { OnOk result (IsListing first listing.new) }
    ensures listed { OnOk result ((q : List ℕ) → has_name listing.new q
        ≡ (has_name listing.old q || (not (is_dummy q (header_of names.now.unit.now.header)) && list_any (is_variable q) (map mention_of mentions.now)))) }
{
    for mention in mentions {
        list_variable(first, names, listing, mention)?;
    }
    Ok(())
}

fn list_variable<'a>(
    first: usize,
    names: &UnitNames<'a>,
    listing: &mut Listing<'a>,
    mention: &Mention<'a>,
) -> Result<(), AllocError>
    requires few { first < 2 ^ 62 }
    requires listing { IsListing first listing.old }
    ensures listing { OnOk result (IsListing first listing.new) }
    ensures listed { OnOk result ((q : List ℕ) → has_name listing.new q
        ≡ (has_name listing.old q || (not (is_dummy q (header_of names.now.unit.now.header)) && is_variable q (mention_of mention.now)))) }
{
    match *mention {
        Mention::Variable(name) => list_own_name(first, names, listing, name.as_bytes()),
        _ => Ok(()),
    }
}

/// Notes the names that are called.
fn note_called<'a>(
    called: &mut HashMap<&'a [u8], ()>,
    mentions: &[Mention<'a>],
) -> Result<(), AllocError>
    ensures { OnOk result ((q : List ℕ) → get_by (λ k. bytes_eq q k.now) called.new
        ≡ option_or (get_by (λ k. bytes_eq q k.now) called.old) (if list_any (is_function q) (map mention_of mentions.now) then Some tt else None)) }
{
    for mention in mentions {
        note_function(called, mention)?;
    }
    Ok(())
}

fn note_function<'a>(
    called: &mut HashMap<&'a [u8], ()>,
    mention: &Mention<'a>,
) -> Result<(), AllocError>
    ensures { OnOk result ((q : List ℕ) → get_by (λ k. bytes_eq q k.now) called.new
        ≡ option_or (get_by (λ k. bytes_eq q k.now) called.old) (if is_function q (mention_of mention.now) then Some tt else None)) }
{
    match *mention {
        Mention::Variable(_) => Ok(()),
        Mention::Call(_, name, _) => note(called, name.as_bytes(), ()),
        Mention::Known(name) => note(called, name.as_bytes(), ()),
    }
}

/// The names that a type statement or DIMENSION lists.
fn declared_in(kind: &StmtKind) -> &[Declared]
    ensures { map declared_of result.now ≡ declared_in (act_of kind.now) }
{
    match kind {
        StmtKind::Typed(_, list) => list.as_slice(),
        StmtKind::Dimension(list) => list.as_slice(),
        _ => &[],
    }
}

/// Lists the names that are declared and nowhere called.
fn list_declared<'a>(
    first: usize,
    names: &UnitNames<'a>,
    called: &HashMap<&'a [u8], ()>,
    listing: &mut Listing<'a>,
) -> Result<(), AllocError>
    requires few { first < 2 ^ 62 }
    requires listing { IsListing first listing.old }
    ensures listing { OnOk result (IsListing first listing.new) }
    ensures listed { OnOk result ((q : List ℕ) → has_name listing.new q
        ≡ (has_name listing.old q || (not (is_dummy q (header_of names.now.unit.now.header))
        && (is_none (get_by (λ k. bytes_eq q k.now) called.now) && list_any (λ s. declares q s.act) (map line_of names.now.unit.now.statements.items))))) }
{
    for statement in &names.unit.statements {
        list_uncalled(first, names, called, listing, declared_in(&statement.kind))?;
    }
    Ok(())
}

fn list_uncalled<'a>(
    first: usize,
    names: &UnitNames<'a>,
    called: &HashMap<&'a [u8], ()>,
    listing: &mut Listing<'a>,
    list: &'a [Declared],
) -> Result<(), AllocError>
    requires few { first < 2 ^ 62 }
    requires listing { IsListing first listing.old }
    ensures listing { OnOk result (IsListing first listing.new) }
    ensures listed { OnOk result ((q : List ℕ) → has_name listing.new q
        ≡ (has_name listing.old q || (not (is_dummy q (header_of names.now.unit.now.header))
        && (is_none (get_by (λ k. bytes_eq q k.now) called.now) && list_any (λ d. bytes_eq q d.name) (map declared_of list.now))))) }
{
    for declared in list {
        list_one(first, names, called, listing, declared)?;
    }
    Ok(())
}

fn list_one<'a>(
    first: usize,
    names: &UnitNames<'a>,
    called: &HashMap<&'a [u8], ()>,
    listing: &mut Listing<'a>,
    declared: &'a Declared,
) -> Result<(), AllocError>
    requires few { first < 2 ^ 62 }
    requires listing { IsListing first listing.old }
    ensures listing { OnOk result (IsListing first listing.new) }
    ensures listed { OnOk result ((q : List ℕ) → has_name listing.new q
        ≡ (has_name listing.old q || (not (is_dummy q (header_of names.now.unit.now.header))
        && (is_none (get_by (λ k. bytes_eq q k.now) called.now) && bytes_eq q declared.now.name)))) }
{
    let name = declared.name.as_bytes();
    if called.contains_key(name) {
        return Ok(());
    }
    list_own_name(first, names, listing, name)
}
