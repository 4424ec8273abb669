// The units of a deck one by one.
ghost use Rattle.std.specs.Prelude.{◌≡◌, IfOk, IfErr, OnOk, map};
ghost use Rattle.std.specs.List.{AllByRecursion};
ghost use Rattle.f66_tree.specs.Views.{routine_of};
ghost use Rattle.deck_link.specs.Units.{IsClean, IsRefusedUnit, AreRefusedUnits};

use f66_check::check_unit;
use f66_tree::Unit;
use ground::{List, Refusal};
use std::alloc::Global;
use storage_assoc::associate;

/// The units, where each has no fault of its own; else the fault of the first that has one.
pub(crate) fn check_units(alloc: Global, units: List<Unit>) -> Result<List<Unit>, Refusal>
    ensures same { IfOk result (λ checked. checked.items ≡ units.items) }
    ensures clean { OnOk result (AllByRecursion IsClean (map routine_of units.items)) }
    ensures refused { IfErr result (AreRefusedUnits (map routine_of units.items)) }
{
    let mut checked = Vec::new(alloc);
    for unit in units {
        let unit = check_one(alloc, unit)?;
        let Ok(()) = checked.push(unit) else {
            return Err(Refusal::Memory);
        };
    }
    Ok(checked)
}

/// A unit that breaks no rule, whose association is good, and which has at most 2,000,000 storage units by itself; else its first
/// fault.
fn check_one(alloc: Global, unit: Unit) -> Result<Unit, Refusal>
    ensures same { IfOk result (λ checked. checked ≡ unit) }
    ensures clean { OnOk result (IsClean (routine_of unit)) }
    ensures refused { IfErr result (IsRefusedUnit (routine_of unit)) }
{
    let sound = check_unit(alloc, unit)?;
    if let Err(refusal) = associate(alloc, sound.unit()) {
        return Err(refusal);
    }
    Ok(sound.into_unit())
}
