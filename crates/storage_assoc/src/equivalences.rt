// The links that EQUIVALENCE gives.
ghost use Rattle.std.specs.Prelude.{◌≡◌, ◌<◌, ◌*◌, ◌*ℤ◌, ◌+ℤ◌, ◌-ℤ◌, ℕ, List, [], ◌∷◌, ◌++◌, pos, unsigned_abs, length, map, Option, option_map, IfOk, OnOk};
ghost use Rattle.std.specs.HashMap.{get_by};
ghost use Rattle.std.specs.Str.{bytes_eq};
ghost use Rattle.f66_tree.specs.Views.{chained, formula_of, par_of};
ghost use Rattle.f66_program.specs.Association.{shift, shift_of};
ghost use Rattle.storage_assoc.specs.Groups.{GroupLinked, GroupsLinked, IsMemberOf, dims_by, link_places, lone_of};

use crate::commons::{add_link, row_of};
use f66_tree::{Expr, Name, Par};
use ground::List;
use offset_classes::Link;
use std::alloc::AllocError;
use std::collections::HashMap;

/// A place of a row.
#[derive(Clone, Copy)]
pub(crate) struct RowPlace {
    pub(crate) row: usize,
    pub(crate) at: i64,
}

/// The sum, where it fits; what is further away counts as out of memory.
fn sum(a: i64, b: i64) -> Result<i64, AllocError>
    ensures { IfOk result (λ r. r ≡ a +ℤ b) }
{
    match a.checked_add(b) {
        Some(sum) => Ok(sum),
        None => Err(AllocError),
    }
}

fn difference(a: i64, b: i64) -> Result<i64, AllocError>
    ensures { IfOk result (λ r. r ≡ a -ℤ b) }
{
    match a.checked_sub(b) {
        Some(difference) => Ok(difference),
        None => Err(AllocError),
    }
}

fn product(a: i64, b: i64) -> Result<i64, AllocError>
    ensures { IfOk result (λ r. r ≡ a *ℤ b) }
{
    match a.checked_mul(b) {
        Some(product) => Ok(product),
        None => Err(AllocError),
    }
}

/// A step times the magnitude of a size.
fn widened(step: i64, size: i64) -> Result<i64, AllocError>
    ensures { IfOk result (λ r. (m : ℕ) → step ≡ pos m → r ≡ pos (m * unsigned_abs size)) }
{
    let magnitude = if size < 0 { difference(0, size)? } else { size };
    product(step, magnitude)
}

/// How far an element stands from the first one, its first subscript taking steps of this many places (X3.9-1966, section
/// 7.2.1.1.1). What does not fit counts as out of memory.
pub fn shift(step: i64, sizes: &[Par], subscripts: &[Expr]) -> Result<i64, AllocError>
    ensures { IfOk result (λ r. (m : ℕ) → step ≡ pos m → r ≡ shift m (map par_of sizes.now) (chained (map formula_of subscripts.now))) }
{
    let Some((Par::Number(size), sizes)) = sizes.split_first() else {
        return Ok(0);
    };
    let Some((Expr::Int(subscript), subscripts)) = subscripts.split_first() else {
        return Ok(0);
    };
    let here = product(difference(*subscript, 1)?, step)?;
    let beyond = shift(widened(step, *size)?, sizes, subscripts)?;
    let all = sum(here, beyond)?;
    Ok(all)
}

/// The subscript, where it is a constant and the only one.
fn lone(subscripts: &[Expr]) -> Option<i64>
    ensures { result ≡ lone_of (chained (map formula_of subscripts.now)) }
{
    let Some((Expr::Int(subscript), others)) = subscripts.split_first() else {
        return None;
    };
    if others.is_empty() {
        Some(*subscript)
    } else {
        None
    }
}

/// How far an element stands from the first one. One subscript alone counts the places from 1 on.
fn shift_of(sizes: &[Par], subscripts: &[Expr]) -> Result<i64, AllocError>
    ensures { IfOk result (λ r. r ≡ shift_of (map par_of sizes.now) (chained (map formula_of subscripts.now))) }
{
    match lone(subscripts) {
        Some(subscript) => {
            let at = difference(subscript, 1)?;
            Ok(at)
        }
        None => {
            let at = shift(1, sizes, subscripts)?;
            Ok(at)
        }
    }
}

/// The dimensions of a name.
fn dims_of<'a>(dims: &HashMap<&[u8], &'a [Par]>, name: &Name) -> &'a [Par]
    ensures { map par_of result.now ≡ dims_by (λ q. option_map (λ ps. map par_of ps.now) (get_by (λ k. bytes_eq q k.now) dims.now)) name.now }
{
    match dims.get(name.as_bytes()) {
        Some(sizes) => sizes,
        None => &[],
    }
}

/// Which place a member of a group is.
fn member_of(
    rows: &HashMap<&[u8], usize>,
    dims: &HashMap<&[u8], &[Par]>,
    e: &Expr,
) -> Result<Option<RowPlace>, AllocError>
    ensures { IfOk result (λ o. IsMemberOf (λ q. get_by (λ k. bytes_eq q k.now) rows.now)
        (λ q. option_map (λ ps. map par_of ps.now) (get_by (λ k. bytes_eq q k.now) dims.now)) (formula_of e.now) o) }
{
    match e {
        Expr::Ref(name) => {
            let row = row_of(rows, name);
            Ok(Some(RowPlace { row, at: 0 }))
        }
        Expr::Item(item) => {
            let (name, subscripts) = &**item;
            let row = row_of(rows, name);
            let at = shift_of(dims_of(dims, name), subscripts)?;
            Ok(Some(RowPlace { row, at }))
        }
        _ => Ok(None),
    }
}

/// Links two places, which are one.
fn tie_places(links: &mut Vec<Link>, one: &RowPlace, other: &RowPlace) -> Result<(), AllocError>
    ensures { OnOk result (links.new.items ≡ links.old.items ++ link_places one.now other.now ∷ []) }
{
    let by = difference(other.at, one.at)?;
    add_link(links, one.row, other.row, by)
}

/// Adds the links of a group, of which all others are linked to the first.
fn group_links(
    links: &mut Vec<Link>,
    rows: &HashMap<&[u8], usize>,
    dims: &HashMap<&[u8], &[Par]>,
    group: &[Expr],
) -> Result<(), AllocError>
    ensures { OnOk result (GroupLinked (λ q. get_by (λ k. bytes_eq q k.now) rows.now)
        (λ q. option_map (λ ps. map par_of ps.now) (get_by (λ k. bytes_eq q k.now) dims.now)) (map formula_of group.now) links.old.items links.new.items) }
{
    let mut first = None;
    for e in group {
        if let Some(member) = member_of(rows, dims, e)? {
            match &first {
                Some(one) => tie_places(links, one, &member)?,
                None => first = Some(member),
            }
        }
    }
    Ok(())
}

/// Adds the links of groups.
pub(crate) fn all_links(
    links: &mut Vec<Link>,
    rows: &HashMap<&[u8], usize>,
    dims: &HashMap<&[u8], &[Par]>,
    groups: &[List<Expr>],
) -> Result<(), AllocError>
    ensures { OnOk result (GroupsLinked (λ q. get_by (λ k. bytes_eq q k.now) rows.now)
        (λ q. option_map (λ ps. map par_of ps.now) (get_by (λ k. bytes_eq q k.now) dims.now)) (map (λ group. map formula_of group.items) groups.now)
        links.old.items links.new.items) }
{
    for group in groups {
        group_links(links, rows, dims, group)?;
    }
    Ok(())
}
