// From a unit of Ratfor to one of FORTRAN.
ghost use Rattle.std.specs.Prelude.{◌≡◌, None, IfOk};
ghost use Rattle.rat_tree.specs.Views.{rat_routine_of};
ghost use Rattle.rat_check.specs.FirstFault.{unit_fault};
ghost use Rattle.rat_lower.specs.Lowered.{HasRoom};
ghost use Rattle.rat_lower.specs.Served.{Serves};

use crate::{lower_body, names_for};
use f66_tree::Unit;
use ground::{Memory, Place};
use rat_check::labels_of;
use rat_tree::RatUnit;
use std::alloc::Global;

/// The unit of FORTRAN that does what a unit does in which the checks find no fault and whose text ends at `finish`.
pub fn lower_unit(alloc: Global, unit: RatUnit, finish: Place) -> Result<Unit, Memory>
    requires room { HasRoom (rat_routine_of unit) }
    requires accepted { unit_fault (rat_routine_of unit) ≡ None }
    ensures { IfOk result (λ made. Serves (rat_routine_of unit) finish made) }
{
    let labels = labels_of(alloc, &unit.body)?;
    let names = names_for(alloc, &unit)?;
    let RatUnit {
        header,
        body,
        place,
    } = unit;
    let statements = lower_body(alloc, names, &labels, &header, body, place, finish)?;
    Ok(Unit {
        header,
        statements,
        place,
    })
}
