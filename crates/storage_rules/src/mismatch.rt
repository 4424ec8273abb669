// The rule that a labelled common block has one size.
ghost use Rattle.std.specs.Prelude.{◌≡◌, ℕ, List, Option, IfOk, OnOk, MatchOption, find, map, option_map, if◌then◌else◌};
ghost use Rattle.std.specs.List.{All, list_any};
ghost use Rattle.std.specs.HashMap.{get_by};
ghost use Rattle.std.specs.Option.{option_or};
ghost use Rattle.std.specs.Str.{bytes_eq};
ghost use Rattle.rule_table.specs.Words.{is_some_and};
ghost use Rattle.ground.specs.declared.place.Place.{Place as APlace};
ghost use Rattle.ground.specs.declared.fault.FaultKind.TheVariants.{CommonMismatch as IsCommonMismatch};
ghost use Rattle.f66_tree.specs.Views.{act_of, area_of, routine_of};
ghost use Rattle.f66_program.specs.Association.{IsBadUnit};
ghost use Rattle.linker.specs.Rules.{IsFirstBroken, IsKept, program_of};
ghost use Rattle.storage_assoc.specs.Naming.{IsReady};
ghost use Rattle.storage_rules.specs.Mismatch.{AreClear, IsFirstOther, any_label, differ, is_other};

use crate::blocks::{UnitBlocks, blocks_of};
use f66_tree::{Area, Name, StmtKind, Unit};
use ground::{Fault, FaultKind, Place};
use rule_table::note;
use std::alloc::{AllocError, Global};
use std::collections::HashMap;

/// The fault of the first COMMON that names a labelled block of another size than in the first unit that names it; or none
/// (X3.9-1966, section 7.2.1.3). Each unit is ready, and none is bad by itself.
pub fn common_mismatch(alloc: Global, units: &[Unit]) -> Result<Option<Fault>, AllocError>
    requires ready { All (λ u. IsReady (routine_of u)) units.now }
    requires well { All (λ u. ¬ IsBadUnit (routine_of u)) units.now }
    ensures { IfOk result (λ o. (finish : APlace) → MatchOption o (IsKept IsCommonMismatch (program_of units.now finish)) (IsFirstBroken IsCommonMismatch (program_of units.now finish))) }
{
    match first_other(alloc, units)? {
        Some(place) => Ok(Some(mismatch_at(place))),
        None => Ok(None),
    }
}

fn mismatch_at(place: Place) -> Fault
    ensures kind { result.kind ≡ IsCommonMismatch }
    ensures number { result.number ≡ 0 }
    ensures place { result.place ≡ place }
{
    Fault {
        kind: FaultKind::CommonMismatch,
        place,
        number: 0,
    }
}

/// Where the first COMMON stands that names a block of another size.
fn first_other(alloc: Global, units: &[Unit]) -> Result<Option<Place>, AllocError>
    requires ready { All (λ u. IsReady (routine_of u)) units.now }
    requires well { All (λ u. ¬ IsBadUnit (routine_of u)) units.now }
    ensures { IfOk result (λ o. MatchOption o (AreClear (map routine_of units.now)) (IsFirstOther (map routine_of units.now))) }
{
    let mut firsts = HashMap::new(alloc);
    for unit in units {
        let blocks = blocks_of(alloc, unit)?;
        if let Some(place) = other_in(&firsts, &blocks.sizes, unit) {
            return Ok(Some(place));
        }
        note_sizes(&mut firsts, &blocks)?;
    }
    Ok(None)
}

/// Where the first COMMON of a unit stands that names a block of another size.
fn other_in(
    firsts: &HashMap<&[u8], i128>,
    sizes: &HashMap<&[u8], i128>,
    unit: &Unit,
) -> Option<Place>
    ensures { result ≡ option_map (λ s. s.place) (find (λ s. any_label (is_other (λ q. get_by (λ k. bytes_eq q k.now) firsts.now) (λ q. get_by (λ k. bytes_eq q k.now) sizes.now)) s.act) (routine_of unit.now).lines) }
{
    for statement in &unit.statements {
        if names_other(firsts, sizes, &statement.kind) {
            return Some(statement.place);
        }
    }
    None
}

/// Whether a statement is a COMMON that names a block of another size.
fn names_other(firsts: &HashMap<&[u8], i128>, sizes: &HashMap<&[u8], i128>, kind: &StmtKind) -> bool
    ensures { result ≡ any_label (is_other (λ q. get_by (λ k. bytes_eq q k.now) firsts.now) (λ q. get_by (λ k. bytes_eq q k.now) sizes.now)) (act_of kind.now) }
{
    match kind {
        StmtKind::Common(areas) => any_other(firsts, sizes, areas),
        _ => false,
    }
}

fn any_other(firsts: &HashMap<&[u8], i128>, sizes: &HashMap<&[u8], i128>, areas: &[Area]) -> bool
    ensures { result ≡ list_any (λ a. is_some_and (is_other (λ q. get_by (λ k. bytes_eq q k.now) firsts.now) (λ q. get_by (λ k. bytes_eq q k.now) sizes.now)) a.name) (map area_of areas.now) }
{
    for area in areas {
        if is_other_block(firsts, sizes, &area.name) {
            return true;
        }
    }
    false
}

/// Whether a block has another size. Blank common, which has no name, may.
fn is_other_block(
    firsts: &HashMap<&[u8], i128>,
    sizes: &HashMap<&[u8], i128>,
    block: &Option<Name>,
) -> bool
    ensures { result ≡ is_some_and (is_other (λ q. get_by (λ k. bytes_eq q k.now) firsts.now) (λ q. get_by (λ k. bytes_eq q k.now) sizes.now)) block.now }
{
    match block {
        Some(name) => differ(size_at(firsts, name), size_at(sizes, name)),
        None => false,
    }
}

/// The size of the block of a label.
fn size_at(sizes: &HashMap<&[u8], i128>, name: &Name) -> Option<i128>
    ensures { result ≡ get_by (λ k. bytes_eq name.now k.now) sizes.now }
{
    match sizes.get(name.as_bytes()) {
        Some(size) => Some(*size),
        None => None,
    }
}

fn differ(one: Option<i128>, other: Option<i128>) -> bool
    ensures { result ≡ differ one other }
{
    match one {
        Some(one) => match other {
            Some(other) => one != other,
            None => false,
        },
        None => false,
    }
}

/// Notes the sizes of the blocks of a unit that no unit before names.
fn note_sizes<'a>(
    firsts: &mut HashMap<&'a [u8], i128>,
    blocks: &UnitBlocks<'a>,
) -> Result<(), AllocError>
    ensures { OnOk result ((q : List ℕ) → get_by (λ k. bytes_eq q k.now) firsts.new
        ≡ option_or (get_by (λ k. bytes_eq q k.now) firsts.old) (if list_any (bytes_eq q) (map (λ k. k.now) blocks.now.labels.items) then get_by (λ k. bytes_eq q k.now) blocks.now.sizes else None)) }
{
    for label in &blocks.labels {
        note_size(firsts, blocks, label)?;
    }
    Ok(())
}

fn note_size<'a>(
    firsts: &mut HashMap<&'a [u8], i128>,
    blocks: &UnitBlocks<'a>,
    label: &'a [u8],
) -> Result<(), AllocError>
    ensures { OnOk result ((q : List ℕ) → get_by (λ k. bytes_eq q k.now) firsts.new
        ≡ option_or (get_by (λ k. bytes_eq q k.now) firsts.old) (if bytes_eq q label.now then get_by (λ k. bytes_eq q k.now) blocks.now.sizes else None)) }
{
    match blocks.sizes.get(label) {
        Some(size) => note(firsts, label, *size),
        None => Ok(()),
    }
}
