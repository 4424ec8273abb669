// Tables of what a unit lists in common blocks, and of the dimensions of its names.
ghost use Rattle.std.specs.Prelude.{◌≡◌, ◌&&◌, List, ℕ, IfOk, OnOk, Some, None, if◌then◌else◌, map, option_map, is_some};
ghost use Rattle.std.specs.HashMap.{get_by};
ghost use Rattle.std.specs.List.{list_any};
ghost use Rattle.std.specs.Option.{option_or};
ghost use Rattle.std.specs.Str.{bytes_eq};
ghost use Rattle.rule_table.specs.Words.{first_place, find_map};
ghost use Rattle.f66_tree.specs.Views.{par_of, declared_of, area_of};
ghost use Rattle.f66_names.specs.ActViews.{act_said, acts_of};
ghost use Rattle.f66_names.specs.Declaring.{names, is_sized};
ghost use Rattle.unit_rules.specs.Storage.{commons, gives_sizes, block_by, block_in};
ghost use Rattle.unit_rules.specs.Bounds.{sizes_given, sizes_by};

use crate::listed::{common_in_saying, listed_in_saying};
use f66_names::Saying;
use f66_tree::{Area, Declared, Par, StmtKind};
use rule_table::note;
use std::alloc::{AllocError, Global};
use std::collections::HashMap;

/// Of each name of a unit: the first statement that lists it in a common block, whether that block has a name, the first
/// statement that gives it dimensions, and these.
#[derive(Drop)]
pub struct Tables<'a> {
    pub commons: HashMap<&'a [u8], usize>,
    pub blocks: HashMap<&'a [u8], bool>,
    pub sized: HashMap<&'a [u8], usize>,
    pub sizes: HashMap<&'a [u8], &'a [Par]>,
}

/// The tables of what a unit says, in one pass.
pub fn tables_of<'a>(alloc: Global, sayings: &[Saying<'a>]) -> Result<Tables<'a>, AllocError>
    ensures commons { IfOk result
        (λ t. (q : List ℕ) → get_by (λ k. bytes_eq q k.now) t.commons ≡ first_place (commons q) (acts_of sayings.now)) }
    ensures blocks { IfOk result
        (λ t. (q : List ℕ) → get_by (λ k. bytes_eq q k.now) t.blocks ≡ find_map (block_in q) (acts_of sayings.now)) }
    ensures sized { IfOk result
        (λ t. (q : List ℕ) → get_by (λ k. bytes_eq q k.now) t.sized ≡ first_place (gives_sizes q) (acts_of sayings.now)) }
    ensures sizes { IfOk result
        (λ t. (q : List ℕ) → option_map (λ ns. map par_of ns.now) (get_by (λ k. bytes_eq q k.now) t.sizes) ≡ find_map (sizes_given q) (acts_of sayings.now)) }
{
    let mut commons = HashMap::new(alloc);
    let mut blocks = HashMap::new(alloc);
    let mut sized = HashMap::new(alloc);
    let mut sizes = HashMap::new(alloc);
    for (i, saying) in sayings.iter().enumerate() {
        let common = common_in_saying(alloc, saying)?;
        let listed = listed_in_saying(alloc, saying)?;
        note_all(&mut commons, &common, i)?;
        note_blocks(&mut blocks, saying)?;
        note_all_sized(&mut sized, &listed, i)?;
        note_all_sizes(&mut sizes, &listed)?;
    }
    Ok(Tables {
        commons,
        blocks,
        sized,
        sizes,
    })
}

/// Notes a place of each name.
fn note_all<'a>(
    table: &mut HashMap<&'a [u8], usize>,
    list: &[&'a Declared],
    place: usize,
) -> Result<(), AllocError>
    ensures { OnOk result
        ((q : List ℕ) → get_by (λ k. bytes_eq q k.now) table.new
        ≡ option_or (get_by (λ k. bytes_eq q k.now) table.old) (if list_any (names q) (map (λ d. declared_of d.now) list.now) then Some place else None)) }
{
    for declared in list {
        note(table, declared.name.as_bytes(), place)?;
    }
    Ok(())
}

/// Notes a place of a name that has dimensions.
fn note_sized<'a>(
    table: &mut HashMap<&'a [u8], usize>,
    declared: &'a Declared,
    place: usize,
) -> Result<(), AllocError>
    ensures { OnOk result
        ((q : List ℕ) → get_by (λ k. bytes_eq q k.now) table.new
        ≡ option_or (get_by (λ k. bytes_eq q k.now) table.old)
        (if is_sized (declared_of declared.now) && names q (declared_of declared.now) then Some place else None)) }
{
    if declared.sizes.is_empty() {
        return Ok(());
    }
    note(table, declared.name.as_bytes(), place)
}

fn note_all_sized<'a>(
    table: &mut HashMap<&'a [u8], usize>,
    list: &[&'a Declared],
    place: usize,
) -> Result<(), AllocError>
    ensures { OnOk result
        ((q : List ℕ) → get_by (λ k. bytes_eq q k.now) table.new
        ≡ option_or (get_by (λ k. bytes_eq q k.now) table.old)
        (if list_any (λ d. is_sized d && names q d) (map (λ d. declared_of d.now) list.now) then Some place else None)) }
{
    for declared in list {
        note_sized(table, declared, place)?;
    }
    Ok(())
}

/// Notes the dimensions of a name that has some.
fn note_sizes<'a>(
    table: &mut HashMap<&'a [u8], &'a [Par]>,
    declared: &'a Declared,
) -> Result<(), AllocError>
    ensures { OnOk result
        ((q : List ℕ) → option_map (λ ns. map par_of ns.now) (get_by (λ k. bytes_eq q k.now) table.new)
        ≡ option_or (option_map (λ ns. map par_of ns.now) (get_by (λ k. bytes_eq q k.now) table.old)) (sizes_by q (declared_of declared.now))) }
{
    if declared.sizes.is_empty() {
        return Ok(());
    }
    note(table, declared.name.as_bytes(), declared.sizes.as_slice())
}

fn note_all_sizes<'a>(
    table: &mut HashMap<&'a [u8], &'a [Par]>,
    list: &[&'a Declared],
) -> Result<(), AllocError>
    ensures { OnOk result
        ((q : List ℕ) → option_map (λ ns. map par_of ns.now) (get_by (λ k. bytes_eq q k.now) table.new)
        ≡ option_or (option_map (λ ns. map par_of ns.now) (get_by (λ k. bytes_eq q k.now) table.old))
        (find_map (sizes_by q) (map (λ d. declared_of d.now) list.now))) }
{
    for declared in list {
        note_sizes(table, declared)?;
    }
    Ok(())
}

/// Notes of each name of a list whether its block has a name.
fn note_labelled<'a>(
    table: &mut HashMap<&'a [u8], bool>,
    list: &'a [Declared],
    labelled: bool,
) -> Result<(), AllocError>
    ensures { OnOk result
        ((q : List ℕ) → get_by (λ k. bytes_eq q k.now) table.new
        ≡ option_or (get_by (λ k. bytes_eq q k.now) table.old) (if list_any (names q) (map declared_of list.now) then Some labelled else None)) }
{
    for declared in list {
        note(table, declared.name.as_bytes(), labelled)?;
    }
    Ok(())
}

fn note_area<'a>(table: &mut HashMap<&'a [u8], bool>, area: &'a Area) -> Result<(), AllocError>
    ensures { OnOk result
        ((q : List ℕ) → get_by (λ k. bytes_eq q k.now) table.new
        ≡ option_or (get_by (λ k. bytes_eq q k.now) table.old) (block_by q (area_of area.now))) }
{
    note_labelled(table, &area.list, area.name.is_some())
}

fn note_areas<'a>(table: &mut HashMap<&'a [u8], bool>, areas: &'a [Area]) -> Result<(), AllocError>
    ensures { OnOk result
        ((q : List ℕ) → get_by (λ k. bytes_eq q k.now) table.new
        ≡ option_or (get_by (λ k. bytes_eq q k.now) table.old) (find_map (block_by q) (map area_of areas.now))) }
{
    for area in areas {
        note_area(table, area)?;
    }
    Ok(())
}

/// Notes of each name in common blocks whether its block has a name.
fn note_blocks<'a>(
    table: &mut HashMap<&'a [u8], bool>,
    saying: &Saying<'a>,
) -> Result<(), AllocError>
    ensures { OnOk result
        ((q : List ℕ) → get_by (λ k. bytes_eq q k.now) table.new
        ≡ option_or (get_by (λ k. bytes_eq q k.now) table.old) (block_in q (act_said saying.now))) }
{
    match *saying {
        Saying::Act(StmtKind::Common(areas)) => note_areas(table, areas),
        _ => Ok(()),
    }
}
