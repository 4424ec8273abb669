// The checks of a Ratfor unit.
ghost use Rattle.std.specs.Prelude.{◌≡◌, [], IfOk};
ghost use Rattle.rat_tree.specs.Views.{commands, rat_routine_of};
ghost use Rattle.rat_check.specs.Parts.{unit_parts};
ghost use Rattle.rat_check.specs.FirstFault.{Tells, unit_fault};
ghost use Rattle.rat_check.specs.Survey.{own_labels};

use ground::{List, Refusal};
use rat_check::check;
use rat_tree::RatUnit;
use std::alloc::Global;

/// Checks a unit, and gives the labels of its statements, each once.
pub fn labels_of(alloc: Global, unit: &RatUnit) -> Result<List<u32>, Refusal>
    ensures fault { Tells result (unit_fault (rat_routine_of unit.now)) }
    ensures labels { IfOk result (λ labels. labels.items ≡ own_labels (unit_parts (commands unit.now.body.items)) []) }
{
    check(alloc, unit)
}
