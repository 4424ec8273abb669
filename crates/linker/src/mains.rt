// The rule that a program has one main.
ghost use Rattle.std.specs.Prelude.{MatchOption};
ghost use Rattle.ground.specs.declared.fault.FaultKind.TheVariants.{MainCount as IsMainCount};
ghost use Rattle.linker.specs.Rules.{IsFirstBroken, IsKept, program_of};

use crate::tells::{fault_at, first_place, is_main};
use f66_tree::Unit;
use ground::{Fault, FaultKind, Place};

/// The fault of a second main, at its first statement, or of a program without a main, at the end of its text
/// (X3.9-1966, section 9.1.4); or none, where there is one main.
pub fn main_count(units: &[Unit], finish: Place) -> Option<Fault>
    ensures { MatchOption result (IsKept IsMainCount (program_of units.now finish)) (IsFirstBroken IsMainCount (program_of units.now finish)) }
{
    let mut found = false;
    for unit in units {
        if is_main(unit) {
            if found {
                return Some(fault_at(FaultKind::MainCount, first_place(unit)));
            }
            found = true;
        }
    }
    if found {
        None
    } else {
        Some(fault_at(FaultKind::MainCount, finish))
    }
}
