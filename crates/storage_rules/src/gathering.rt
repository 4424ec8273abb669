// The places that the DATA of a program fills.
ghost use Rattle.std.specs.Prelude.{◌≡◌, ◌++◌, IfOk, OnOk, map, option_map};
ghost use Rattle.std.specs.List.{flat_map};
ghost use Rattle.f66_tree.specs.Views.{act_of, formula_of, line_of, preset_of, routine_of};
ghost use Rattle.f66_program.specs.Initial.{act_presets, line_presets, paired, part_presets, presets_of};
ghost use Rattle.f66_program.specs.Mentions.{context_of};
ghost use Rattle.f66_mentions.specs.UnitViews.{context_in};
ghost use Rattle.storage_rules.specs.Presets.{IsPlace, content_seen, preset_seen};

use crate::constants::values_of;
use crate::preset::Preset;
use f66_mentions::{UnitNames, names_of, sizes_of};
use f66_tree::{Expr, Name, PresetPart, StmtKind, Unit};
use ground::Value;
use std::alloc::{AllocError, Global};
use storage_assoc::shift;

/// The places that the DATA of units fill, with their values, in reading order (X3.9-1966, section 7.2.2).
pub fn presets_of<'a>(alloc: Global, units: &'a [Unit]) -> Result<Vec<Preset<'a>>, AllocError>
    ensures { IfOk result (λ v. map preset_seen v.items ≡ presets_of (map routine_of units.now)) }
{
    let mut presets = Vec::new(alloc);
    for (number, unit) in units.iter().enumerate() {
        add_unit(alloc, &mut presets, number, unit)?;
    }
    Ok(presets)
}

/// Adds the places that the DATA of a unit fill.
fn add_unit<'a>(
    alloc: Global,
    presets: &mut Vec<Preset<'a>>,
    number: usize,
    unit: &'a Unit,
) -> Result<(), AllocError>
    ensures { OnOk result (map preset_seen presets.new.items ≡ map preset_seen presets.old.items ++ line_presets number 0 (context_of (routine_of unit.now)) (map line_of unit.now.statements.items)) }
{
    let names = names_of(alloc, unit)?;
    for (part, statement) in unit.statements.iter().enumerate() {
        add_statement(alloc, presets, number, part, &names, &statement.kind)?;
    }
    Ok(())
}

/// Adds the places that a statement fills.
fn add_statement<'a>(
    alloc: Global,
    presets: &mut Vec<Preset<'a>>,
    unit: usize,
    part: usize,
    names: &UnitNames<'a>,
    kind: &'a StmtKind,
) -> Result<(), AllocError>
    ensures { OnOk result (map preset_seen presets.new.items ≡ map preset_seen presets.old.items ++ act_presets unit part (context_in names.now) (act_of kind.now)) }
{
    match kind {
        StmtKind::Preset(parts) => add_parts(alloc, presets, unit, part, names, parts),
        _ => Ok(()),
    }
}

fn add_parts<'a>(
    alloc: Global,
    presets: &mut Vec<Preset<'a>>,
    unit: usize,
    part: usize,
    names: &UnitNames<'a>,
    parts: &'a [PresetPart],
) -> Result<(), AllocError>
    ensures { OnOk result (map preset_seen presets.new.items ≡ map preset_seen presets.old.items ++ flat_map (part_presets unit part (context_in names.now)) (map preset_of parts.now)) }
{
    for places in parts {
        add_part(alloc, presets, unit, part, names, places)?;
    }
    Ok(())
}

/// Adds the places of a list with their values.
fn add_part<'a>(
    alloc: Global,
    presets: &mut Vec<Preset<'a>>,
    unit: usize,
    part: usize,
    names: &UnitNames<'a>,
    places: &'a PresetPart,
) -> Result<(), AllocError>
    ensures { OnOk result (map preset_seen presets.new.items ≡ map preset_seen presets.old.items ++ part_presets unit part (context_in names.now) (preset_of places.now)) }
{
    let values = values_of(alloc, places.places.len(), &places.values)?;
    add_places(presets, unit, part, names, &places.places, &values)
}

/// Adds places, each with its value, up to the end of the shorter list.
fn add_places<'a>(
    presets: &mut Vec<Preset<'a>>,
    unit: usize,
    part: usize,
    names: &UnitNames<'a>,
    places: &'a [Expr],
    values: &[Option<Value>],
) -> Result<(), AllocError>
    ensures { OnOk result (map preset_seen presets.new.items ≡ map preset_seen presets.old.items ++ paired unit part (context_in names.now) (map formula_of places.now) (map content_seen values.now)) }
{
    for (k, place) in places.iter().enumerate() {
        let Some(value) = values.get(k) else {
            return Ok(());
        };
        let Some((name, at)) = place_of(names, place)? else {
            return Ok(());
        };
        presets.push(Preset {
            unit,
            part,
            name,
            at,
            value: *value,
        })?;
    }
    Ok(())
}

/// The name of a place, and how far it stands from the name's first one.
fn place_of<'a>(
    names: &UnitNames<'a>,
    place: &'a Expr,
) -> Result<Option<(&'a Name, usize)>, AllocError>
    ensures { IfOk result (λ o. IsPlace (context_in names.now) (formula_of place.now) (option_map (λ w. (w.0.now, w.1)) o)) }
{
    match place {
        Expr::Ref(name) => Ok(Some((name, 0))),
        Expr::Item(item) => {
            let (name, subscripts) = &**item;
            let at = shift(1, sizes_of(names, name.as_bytes()), subscripts)?;
            Ok(Some((name, at.unsigned_abs() as usize)))
        }
        _ => Ok(None),
    }
}
