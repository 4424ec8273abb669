// Tables of what a unit declares.
ghost use Rattle.std.specs.Prelude.{◌≡◌, List, ℕ, IfOk, OnOk, Some, None, if◌then◌else◌, ◌&&◌, map, filter};
ghost use Rattle.std.specs.HashMap.{get_by};
ghost use Rattle.std.specs.List.{list_any, flat_map};
ghost use Rattle.std.specs.Option.{option_or};
ghost use Rattle.std.specs.Str.{bytes_eq};
ghost use Rattle.rule_table.specs.Words.{first_place, find_map};
ghost use Rattle.f66_tree.specs.Views.{declared_of, area_of, act_of};
ghost use Rattle.f66_names.specs.ActViews.{act_said, acts_of};
ghost use Rattle.f66_names.specs.Declaring.{names, is_sized, typed_in, declared_in, sized_in, types, sizes, type_given, count_by, count_in};

use crate::Saying;
use crate::saying::{declared_in_saying, typed_in_saying};
use f66_tree::{Area, Declared, StmtKind, TypeWord};
use rule_table::note;
use std::alloc::{AllocError, Global};
use std::collections::HashMap;

/// What a unit declares of each name: its type, the number of its dimensions, and the first statements that give them.
#[derive(Drop)]
pub struct Tables<'a> {
    pub words: HashMap<&'a [u8], TypeWord>,
    pub counts: HashMap<&'a [u8], usize>,
    pub typed: HashMap<&'a [u8], usize>,
    pub sized: HashMap<&'a [u8], usize>,
}

/// The tables of what a unit says, in one pass.
pub fn tables_of<'a>(alloc: Global, sayings: &[Saying<'a>]) -> Result<Tables<'a>, AllocError>
    ensures words { IfOk result
        (λ t. (q : List ℕ) → get_by (λ k. bytes_eq q k.now) t.words ≡ find_map (type_given q) (acts_of sayings.now)) }
    ensures counts { IfOk result
        (λ t. (q : List ℕ) → get_by (λ k. bytes_eq q k.now) t.counts ≡ find_map (count_in q) (acts_of sayings.now)) }
    ensures typed { IfOk result
        (λ t. (q : List ℕ) → get_by (λ k. bytes_eq q k.now) t.typed ≡ first_place (types q) (acts_of sayings.now)) }
    ensures sized { IfOk result
        (λ t. (q : List ℕ) → get_by (λ k. bytes_eq q k.now) t.sized ≡ first_place (sizes q) (acts_of sayings.now)) }
{
    let mut words = HashMap::new(alloc);
    let mut counts = HashMap::new(alloc);
    let mut typed = HashMap::new(alloc);
    let mut sized = HashMap::new(alloc);
    for (i, saying) in sayings.iter().enumerate() {
        note_word(&mut words, saying)?;
        note_counts_in(&mut counts, saying)?;
        note_all(&mut typed, typed_in_saying(saying), i)?;
        note_all_sized(&mut sized, declared_in_saying(saying), i)?;
    }
    Ok(Tables {
        words,
        counts,
        typed,
        sized,
    })
}

/// The names whose type a statement gives (X3.9-1966, section 7.2.1.6).
pub fn typed_in(kind: &StmtKind) -> &[Declared]
    ensures { map declared_of result.now ≡ typed_in (act_of kind.now) }
{
    match kind {
        StmtKind::Typed(_, list) => list.as_slice(),
        _ => &[],
    }
}

/// The names that a type statement or DIMENSION lists (section 7.2.1).
pub fn declared_in(kind: &StmtKind) -> &[Declared]
    ensures { map declared_of result.now ≡ declared_in (act_of kind.now) }
{
    match kind {
        StmtKind::Typed(_, list) => list.as_slice(),
        StmtKind::Dimension(list) => list.as_slice(),
        _ => &[],
    }
}

fn note_word<'a>(
    table: &mut HashMap<&'a [u8], TypeWord>,
    saying: &Saying<'a>,
) -> Result<(), AllocError>
    ensures { OnOk result
        ((q : List ℕ) → get_by (λ k. bytes_eq q k.now) table.new
        ≡ option_or (get_by (λ k. bytes_eq q k.now) table.old) (type_given q (act_said saying.now))) }
{
    match *saying {
        Saying::Act(StmtKind::Typed(word, list)) => note_all(table, list.as_slice(), *word),
        _ => Ok(()),
    }
}

/// Notes one value of each name.
fn note_all<'a, V: Copy>(
    table: &mut HashMap<&'a [u8], V>,
    list: &'a [Declared],
    value: V,
) -> Result<(), AllocError>
    ensures { OnOk result
        ((q : List ℕ) → get_by (λ k. bytes_eq q k.now) table.new
        ≡ option_or (get_by (λ k. bytes_eq q k.now) table.old) (if list_any (names q) (map declared_of list.now) then Some value else None)) }
{
    for declared in list {
        note(table, declared.name.as_bytes(), value)?;
    }
    Ok(())
}

/// Notes a place of a name that has dimensions.
fn note_sized<'a>(
    table: &mut HashMap<&'a [u8], usize>,
    declared: &'a Declared,
    place: usize,
) -> Result<(), AllocError>
    ensures { OnOk result
        ((q : List ℕ) → get_by (λ k. bytes_eq q k.now) table.new
        ≡ option_or (get_by (λ k. bytes_eq q k.now) table.old)
        (if is_sized (declared_of declared.now) && names q (declared_of declared.now) then Some place else None)) }
{
    if declared.sizes.is_empty() {
        return Ok(());
    }
    note(table, declared.name.as_bytes(), place)
}

fn note_all_sized<'a>(
    table: &mut HashMap<&'a [u8], usize>,
    list: &'a [Declared],
    place: usize,
) -> Result<(), AllocError>
    ensures { OnOk result
        ((q : List ℕ) → get_by (λ k. bytes_eq q k.now) table.new
        ≡ option_or (get_by (λ k. bytes_eq q k.now) table.old)
        (if list_any (names q) (filter is_sized (map declared_of list.now)) then Some place else None)) }
{
    for declared in list {
        note_sized(table, declared, place)?;
    }
    Ok(())
}

/// Notes the number of dimensions of a name that has some.
fn note_count<'a>(
    table: &mut HashMap<&'a [u8], usize>,
    declared: &'a Declared,
) -> Result<(), AllocError>
    ensures { OnOk result
        ((q : List ℕ) → get_by (λ k. bytes_eq q k.now) table.new
        ≡ option_or (get_by (λ k. bytes_eq q k.now) table.old) (count_by q (declared_of declared.now))) }
{
    if declared.sizes.is_empty() {
        return Ok(());
    }
    note(table, declared.name.as_bytes(), declared.sizes.len())
}

fn note_counts<'a>(
    table: &mut HashMap<&'a [u8], usize>,
    list: &'a [Declared],
) -> Result<(), AllocError>
    ensures { OnOk result
        ((q : List ℕ) → get_by (λ k. bytes_eq q k.now) table.new
        ≡ option_or (get_by (λ k. bytes_eq q k.now) table.old) (find_map (count_by q) (map declared_of list.now))) }
{
    for declared in list {
        note_count(table, declared)?;
    }
    Ok(())
}

fn note_areas<'a>(table: &mut HashMap<&'a [u8], usize>, areas: &'a [Area]) -> Result<(), AllocError>
    ensures { OnOk result
        ((q : List ℕ) → get_by (λ k. bytes_eq q k.now) table.new
        ≡ option_or (get_by (λ k. bytes_eq q k.now) table.old) (find_map (count_by q) (flat_map (λ a. a.list) (map area_of areas.now)))) }
{
    for area in areas {
        note_counts(table, &area.list)?;
    }
    Ok(())
}

/// Notes the numbers of dimensions that a statement gives.
fn note_counts_in<'a>(
    table: &mut HashMap<&'a [u8], usize>,
    saying: &Saying<'a>,
) -> Result<(), AllocError>
    ensures { OnOk result
        ((q : List ℕ) → get_by (λ k. bytes_eq q k.now) table.new
        ≡ option_or (get_by (λ k. bytes_eq q k.now) table.old) (count_in q (act_said saying.now))) }
{
    match *saying {
        Saying::Act(StmtKind::Typed(_, list)) => note_counts(table, list),
        Saying::Act(StmtKind::Dimension(list)) => note_counts(table, list),
        Saying::Act(StmtKind::Common(areas)) => note_areas(table, areas),
        _ => Ok(()),
    }
}
