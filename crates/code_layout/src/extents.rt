// The dimensions of the names of a unit, and how many places they have.
ghost use Rattle.std.specs.Prelude.{◌≡◌, ◌*◌, ℕ, List, OnOk, IfOk, map, option_map};
ghost use Rattle.std.specs.HashMap.{get_by};
ghost use Rattle.std.specs.List.{flat_map};
ghost use Rattle.std.specs.Option.{option_or};
ghost use Rattle.std.specs.Str.{bytes_eq};
ghost use Rattle.std.proofs.Props.{props};
ghost use Rattle.rule_table.specs.Words.{find_map};
ghost use Rattle.f66_tree.specs.Units.{places_of};
ghost use Rattle.f66_tree.specs.Views.{act_of, area_of, declared_of, par_of};
ghost use Rattle.f66_mentions.specs.Dimensions.{dims_in, given_by};

use f66_tree::{Area, Declared, Par, Stmt, StmtKind};
use rule_table::note;
use std::alloc::{AllocError, Global};
use std::collections::HashMap;

/// The dimensions of a name, and how many places they give it.
#[derive(Clone, Copy, Drop)]
pub struct Extent<'a> {
    pub sizes: &'a [Par],
    pub places: u32,
    ghost placed: { places ≡ places_of (map par_of sizes.now) } by { Prim.hlevel props },
}

/// The dimensions of the names of a unit with these statements, by the first that gives some.
pub(crate) fn extents_of<'a>(
    alloc: Global,
    statements: &'a [Stmt],
) -> Result<HashMap<&'a [u8], Extent<'a>>, AllocError>
    ensures { IfOk result (λ t. (q : List ℕ) → option_map (λ e. map par_of e.sizes.now) (get_by (λ k. bytes_eq q k.now) t)
        ≡ find_map (dims_in q) (map (λ s. act_of s.kind) statements.now)) }
{
    let mut extents = HashMap::new(alloc);
    for statement in statements {
        note_in(&mut extents, &statement.kind)?;
    }
    Ok(extents)
}

/// Notes the dimensions that a statement gives.
fn note_in<'a>(
    extents: &mut HashMap<&'a [u8], Extent<'a>>,
    kind: &'a StmtKind,
) -> Result<(), AllocError>
    ensures { OnOk result ((q : List ℕ) → option_map (λ e. map par_of e.sizes.now) (get_by (λ k. bytes_eq q k.now) extents.new)
        ≡ option_or (option_map (λ e. map par_of e.sizes.now) (get_by (λ k. bytes_eq q k.now) extents.old)) (dims_in q (act_of kind.now))) }
{
    match kind {
        StmtKind::Typed(_, list) => note_list(extents, list),
        StmtKind::Dimension(list) => note_list(extents, list),
        StmtKind::Common(areas) => note_areas(extents, areas),
        _ => Ok(()),
    }
}

fn note_areas<'a>(
    extents: &mut HashMap<&'a [u8], Extent<'a>>,
    areas: &'a [Area],
) -> Result<(), AllocError>
    ensures { OnOk result ((q : List ℕ) → option_map (λ e. map par_of e.sizes.now) (get_by (λ k. bytes_eq q k.now) extents.new)
        ≡ option_or (option_map (λ e. map par_of e.sizes.now) (get_by (λ k. bytes_eq q k.now) extents.old))
        (find_map (given_by q) (flat_map (λ a. a.list) (map area_of areas.now)))) }
{
    for area in areas {
        note_list(extents, &area.list)?;
    }
    Ok(())
}

fn note_list<'a>(
    extents: &mut HashMap<&'a [u8], Extent<'a>>,
    list: &'a [Declared],
) -> Result<(), AllocError>
    ensures { OnOk result ((q : List ℕ) → option_map (λ e. map par_of e.sizes.now) (get_by (λ k. bytes_eq q k.now) extents.new)
        ≡ option_or (option_map (λ e. map par_of e.sizes.now) (get_by (λ k. bytes_eq q k.now) extents.old)) (find_map (given_by q) (map declared_of list.now))) }
{
    for declared in list {
        note_sizes(extents, declared)?;
    }
    Ok(())
}

/// Notes the dimensions of a name that has some.
fn note_sizes<'a>(
    extents: &mut HashMap<&'a [u8], Extent<'a>>,
    declared: &'a Declared,
) -> Result<(), AllocError>
    ensures { OnOk result ((q : List ℕ) → option_map (λ e. map par_of e.sizes.now) (get_by (λ k. bytes_eq q k.now) extents.new)
        ≡ option_or (option_map (λ e. map par_of e.sizes.now) (get_by (λ k. bytes_eq q k.now) extents.old)) (given_by q (declared_of declared.now))) }
{
    if declared.sizes.is_empty() {
        return Ok(());
    }
    let extent = extent_of(declared.sizes.as_slice())?;
    note(extents, declared.name.as_bytes(), extent)
}

fn extent_of<'a>(sizes: &'a [Par]) -> Result<Extent<'a>, AllocError>
    ensures { IfOk result (λ e. e.sizes.now ≡ sizes.now) }
{
    let places = places_of(sizes)?;
    Ok(Extent { sizes, places })
}

/// How many places these dimensions give. More than any memory has are refused.
fn places_of(sizes: &[Par]) -> Result<u32, AllocError>
    ensures { IfOk result (λ n. n ≡ places_of (map par_of sizes.now)) }
{
    let mut product = 1;
    for size in sizes {
        match size {
            Par::Number(count) => product = times(product, count.unsigned_abs())?,
            Par::Variable(_) => return Ok(0),
        }
    }
    Ok(product)
}

fn times(product: u32, count: u64) -> Result<u32, AllocError>
    ensures { IfOk result (λ n. n ≡ product * count) }
{
    match u32::try_from(count) {
        Ok(count) => match product.checked_mul(count) {
            Some(more) => Ok(more),
            None => Err(AllocError),
        },
        Err(_) => Err(AllocError),
    }
}
