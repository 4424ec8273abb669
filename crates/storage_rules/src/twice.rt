// The rule that a storage unit is given one initial value.
ghost use Rattle.std.specs.Prelude.{◌≡◌, ◌<◌, suc, Some, IfOk, MatchOption, length, map, option_map};
ghost use Rattle.std.specs.List.{slice_get};
ghost use Rattle.ground.specs.declared.place.Place.{Place as APlace};
ghost use Rattle.ground.specs.declared.fault.FaultKind.TheVariants.{InitialTwice as IsInitialTwice};
ghost use Rattle.f66_tree.specs.Views.{line_of, routine_of};
ghost use Rattle.f66_program.specs.Association.{IsNumbering};
ghost use Rattle.f66_program.specs.Initial.{presets_of};
ghost use Rattle.f66_program.specs.Linking.{at_part, place_in};
ghost use Rattle.linker.specs.Rules.{IsFirstBroken, IsKept, program_of};
ghost use Rattle.program_storage.specs.Numbers.{number_in_program};
ghost use Rattle.storage_rules.specs.Presets.{IsStanding, preset_seen};

use crate::preset::Preset;
use crate::repeats::first_repeat;
use f66_tree::{Stmt, Unit};
use ground::{Fault, FaultKind, Place};
use program_storage::ProgramStorage;
use std::alloc::{AllocError, Global};

/// The fault of the first DATA that gives a storage unit a value which has one already; or none (X3.9-1966, section 7.2.2).
/// `presets` are the places that the DATA of the units fill, and `numbers` the numbers of their storage units.
pub fn initial_twice(
    alloc: Global,
    units: &[Unit],
    storage: &ProgramStorage<'_>,
    presets: &[Preset<'_>],
    numbers: &[usize],
) -> Result<Option<Fault>, AllocError>
    requires numbered { IsNumbering (map routine_of units.now) (number_in_program storage.now) storage.now.total }
    requires presets { map preset_seen presets.now ≡ presets_of (map routine_of units.now) }
    requires numbers { map (λ p. number_in_program storage.now p.unit p.name.now p.at) presets.now ≡ map (λ n. Some n) numbers.now }
    ensures { IfOk result (λ o. (finish : APlace) → MatchOption o (IsKept IsInitialTwice (program_of units.now finish)) (IsFirstBroken IsInitialTwice (program_of units.now finish))) }
{
    match first_repeat(alloc, numbers)? {
        Some(k) => {
            let place = place_of(units, &presets[k]);
            Ok(Some(twice_at(place)))
        }
        None => Ok(None),
    }
}

/// The place of the statement that fills a place.
fn place_of(units: &[Unit], preset: &Preset<'_>) -> Place
    requires { IsStanding (map routine_of units.now) preset.now.unit preset.now.part }
    ensures { (finish : APlace) → place_in (program_of units.now finish) (at_part preset.now.unit (suc preset.now.part)) ≡ Some result }
{
    let unit = &units[preset.unit];
    line_place(&unit.statements, preset.part)
}

/// The place of a statement.
fn line_place(statements: &[Stmt], part: usize) -> Place
    requires { part < length statements.now }
    ensures { option_map (λ s. s.place) (slice_get (map line_of statements.now) part) ≡ Some result }
{
    statements[part].place
}

fn twice_at(place: Place) -> Fault
    ensures kind { result.kind ≡ IsInitialTwice }
    ensures number { result.number ≡ 0 }
    ensures place { result.place ≡ place }
{
    Fault {
        kind: FaultKind::InitialTwice,
        place,
        number: 0,
    }
}

/// The numbers of the storage units of places. A place that has none, which is in no program of sound units, counts as out of memory.
pub fn numbers_of(
    alloc: Global,
    storage: &ProgramStorage<'_>,
    presets: &[Preset<'_>],
) -> Result<Vec<usize>, AllocError>
    ensures { IfOk result (λ v. map (λ p. number_in_program storage.now p.unit p.name.now p.at) presets.now ≡ map (λ n. Some n) v.items) }
{
    let mut numbers = Vec::new(alloc);
    for preset in presets {
        let Some(number) = storage.number_of(preset.unit, preset.name.as_bytes(), preset.at) else {
            return Err(AllocError);
        };
        numbers.push(number)?;
    }
    Ok(numbers)
}
