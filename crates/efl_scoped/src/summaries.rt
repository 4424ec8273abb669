// What is told of a type: its number, whether it is sound, and how many places it has.
ghost use Rattle.std.specs.Prelude.{◌≡◌, ◌*◌, ◌∷◌, ◌&&◌, nat_le, length, IfOk};
ghost use Rattle.std.specs.List.{list_all, flat_map};
ghost use Rattle.efl_tree.specs.Views.{vars_of};
ghost use Rattle.efl_scope.specs.DataTypes.{is_closed, many_from, low_of, elements};
ghost use Rattle.efl_scoped.specs.Numbers.{bound_words, sign_of, value_words};
ghost use Rattle.efl_scoped.specs.Told.{capped};
ghost use Rattle.efl_scoped.specs.Seen.{table_of, Leads, IsBounded, AddsMember, AddsMembers};

use crate::numbers::{ARRAY, Pairs};
use efl_tree::{EflBound, EflVar};
use std::alloc::AllocError;

/// How many places count, which are one more than a variable may have.
const LIMIT: u64 = 32768;

/// What is told of a type: its number, which the same types share; whether it and each part has no fault; and its places, of which
/// all above the limit count as one more. Contracts see by `Tells` what is told.
#[derive(Clone, Copy)]
pub struct Summary {
    pub number: usize,
    pub sound: bool,
    pub places: u64,
}

/// What is told of members, where these stand before.
pub fn with_members(
    before: Summary,
    kind: Summary,
    list: &[EflVar],
    numbers: &mut Pairs,
) -> Result<Summary, AllocError>
    ensures { IfOk result (λ after. AddsMembers (table_of numbers.old) before kind (vars_of list.now) (table_of numbers.new) after) }
{
    let mut so_far = before;
    for variable in list {
        let member = bounded(kind, &variable.bounds, numbers)?;
        so_far = with_member(so_far, member, numbers)?;
    }
    Ok(so_far)
}

fn with_member(before: Summary, member: Summary, numbers: &mut Pairs) -> Result<Summary, AllocError>
    ensures { IfOk result (λ after. AddsMember (table_of numbers.old) before member (table_of numbers.new) after) }
{
    let number = numbers.number(before.number, member.number)?;
    Ok(Summary {
        number,
        sound: before.sound && (member.sound && member.places < LIMIT),
        places: before.places.saturating_add(member.places).min(LIMIT),
    })
}

/// What is told of a variable or member with these bounds.
pub fn bounded(
    kind: Summary,
    bounds: &[EflBound],
    numbers: &mut Pairs,
) -> Result<Summary, AllocError>
    ensures { IfOk result (λ r. IsBounded (table_of numbers.old) kind bounds.now (table_of numbers.new) r) }
{
    if bounds.is_empty() {
        return Ok(kind);
    }
    let number = array_number(kind.number, bounds, numbers)?;
    Ok(Summary {
        number,
        sound: is_array_sound(kind.sound, bounds),
        places: places_of(bounds, kind.places),
    })
}

fn is_array_sound(element: bool, bounds: &[EflBound]) -> bool
    ensures { result ≡ ((nat_le (length bounds.now) 7 && list_all is_closed bounds.now) && element) }
{
    (bounds.len() <= 7 && are_closed(bounds)) && element
}

fn are_closed(bounds: &[EflBound]) -> bool
    ensures { result ≡ list_all is_closed bounds.now }
{
    bounds.iter().all(|bound| is_bound_closed(*bound))
}

/// An upper bound that is not below the lower one.
fn is_bound_closed(bound: EflBound) -> bool
    ensures { result ≡ is_closed bound }
{
    match bound.high {
        None => false,
        Some(high) => low(bound) <= high,
    }
}

fn low(bound: EflBound) -> i64
    ensures { result ≡ low_of bound }
{
    bound.low.unwrap_or(1)
}

/// The places of an array whose elements have these.
fn places_of(bounds: &[EflBound], element: u64) -> u64
    ensures { result ≡ capped (elements bounds.now * element) }
{
    let mut places = element.min(LIMIT);
    for bound in bounds {
        places = places.saturating_mul(many(*bound)).min(LIMIT);
    }
    places
}

/// How many subscripts are allowed.
fn many(bound: EflBound) -> u64
    ensures { capped result ≡ capped (many_from (low_of bound) bound.high) }
{
    let low = low(bound);
    match bound.high {
        None => 1,
        Some(high) if high < low => 0,
        Some(high) => high.abs_diff(low).saturating_add(1),
    }
}

/// The number of an array whose elements have this one.
fn array_number(
    element: usize,
    bounds: &[EflBound],
    numbers: &mut Pairs,
) -> Result<usize, AllocError>
    ensures { IfOk result (λ n. Leads (table_of numbers.old) (element ∷ flat_map bound_words bounds.now) 3 (table_of numbers.new) n) }
{
    let mut number = numbers.number(ARRAY, element)?;
    for bound in bounds {
        number = with_bound(number, *bound, numbers)?;
    }
    Ok(number)
}

fn with_bound(before: usize, bound: EflBound, numbers: &mut Pairs) -> Result<usize, AllocError>
    ensures { IfOk result (λ n. Leads (table_of numbers.old) (bound_words bound) before (table_of numbers.new) n) }
{
    let number = with_value(before, low(bound), numbers)?;
    with_value(number, bound.high.unwrap_or(0), numbers)
}

fn with_value(before: usize, value: i64, numbers: &mut Pairs) -> Result<usize, AllocError>
    ensures { IfOk result (λ n. Leads (table_of numbers.old) (value_words value) before (table_of numbers.new) n) }
{
    let number = numbers.number(before, sign(value))?;
    numbers.number(number, value.unsigned_abs() as usize)
}

fn sign(value: i64) -> usize
    ensures { result ≡ sign_of value }
{
    if value < 0 { 1 } else { 0 }
}
