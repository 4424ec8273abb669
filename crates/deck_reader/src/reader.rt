// A deck of cards, read and checked.
ghost use Rattle.std.specs.Prelude.{◌≡◌, Ok, map, IfOk, IfErr, OnOk};
ghost use Rattle.std.specs.List.{AllByRecursion};
ghost use Rattle.f66_tree.specs.Views.{routine_of};
ghost use Rattle.f66_check.specs.Answers.{IsSoundUnit};
ghost use Rattle.deck_reader.specs.Answers.{IsDeckRefusal, deck_units};
ghost use Rattle.deck_reader.specs.Steps.{IsLineRefusal};

use crate::units::units_of;
use card_reader::lines_of;
use f66_check::{SoundUnit, check_unit};
use f66_tree::Unit;
use ground::{List, Refusal};
use std::alloc::Global;

/// The units of a deck, or the fault of its cards, else of its first statement or header at fault (X3.9-1966, sections 3 to 9).
pub fn read_units(alloc: Global, bytes: &[u8]) -> Result<List<Unit>, Refusal>
    ensures units { IfOk result (λ units. deck_units bytes.now ≡ Ok (map routine_of units.items)) }
    ensures refused { IfErr result (IsLineRefusal (deck_units bytes.now)) }
{
    let lines = lines_of(alloc, bytes)?;
    units_of(alloc, &lines)
}

/// The units in their order, where each is sound; else the first fault of the first that is not.
fn check_units(alloc: Global, units: List<Unit>) -> Result<List<SoundUnit>, Refusal>
    ensures units { IfOk result (λ sound. sound.items ≡ units.items) }
    ensures sound { OnOk result (AllByRecursion IsSoundUnit (map routine_of units.items)) }
    ensures refused { IfErr result (IsDeckRefusal (Ok (map routine_of units.items))) }
{
    let mut sound = Vec::new(alloc);
    for unit in units {
        let unit = check_unit(alloc, unit)?;
        let Ok(()) = sound.push(unit) else {
            return Err(Refusal::Memory);
        };
    }
    Ok(sound)
}

/// The units of a deck, each sound, or its first fault: that of its cards, else of its first statement or header at fault, else of
/// its first unit that is not sound (X3.9-1966, sections 3 to 9).
pub fn read_deck(alloc: Global, bytes: &[u8]) -> Result<List<SoundUnit>, Refusal>
    ensures units { IfOk result (λ units. deck_units bytes.now ≡ Ok (map routine_of units.items)) }
    ensures sound { IfOk result (λ units. AllByRecursion IsSoundUnit (map routine_of units.items)) }
    ensures refused { IfErr result (IsDeckRefusal (deck_units bytes.now)) }
{
    let units = read_units(alloc, bytes)?;
    check_units(alloc, units)
}
