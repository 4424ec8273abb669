// The checks of a unit.
ghost use Rattle.std.specs.Prelude.{◌≡◌, IfOk, IfErr, OnOk};
ghost use Rattle.f66_tree.specs.Views.{routine_of};
ghost use Rattle.f66_check.specs.Answers.{IsSoundUnit, IsRightRefusal};

use f66_check::{SoundUnit, check_unit};
use f66_tree::Unit;
use ground::Refusal;
use std::alloc::Global;

/// The unit, exactly where it is sound; else exactly its first fault.
pub fn checked(alloc: Global, unit: Unit) -> Result<SoundUnit, Refusal>
    ensures accepted { IfOk result (λ c. c ≡ unit) }
    ensures sound { OnOk result (IsSoundUnit (routine_of unit)) }
    ensures refused { IfErr result (IsRightRefusal (routine_of unit)) }
{
    check_unit(alloc, unit)
}
