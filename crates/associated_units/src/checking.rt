// The association of each unit of a text.
ghost use Rattle.std.specs.Prelude.{OnOk, IfErr, map};
ghost use Rattle.std.specs.List.{All};
ghost use Rattle.f66_tree.specs.Views.{routine_of};
ghost use Rattle.storage_assoc.specs.Naming.{IsReady};
ghost use Rattle.associated_units.specs.Fit.{IsFit, IsUnfitRefusal};

use f66_tree::Unit;
use ground::Refusal;
use std::alloc::Global;
use storage_assoc::associate;

/// Whether each unit has a good association and at most 2,000,000 storage units by itself; else the fault of the first that has not
/// (X3.9-1966, sections 7.2.1.3 and 7.2.1.4). Each unit is ready.
pub fn check_storage(alloc: Global, units: &[Unit]) -> Result<(), Refusal>
    requires ready { All (λ u. IsReady (routine_of u)) units.now }
    ensures fit { OnOk result (All (λ u. IsFit (routine_of u)) units.now) }
    ensures refused { IfErr result (IsUnfitRefusal (map routine_of units.now)) }
{
    for unit in units {
        if let Err(refusal) = associate(alloc, unit) {
            return Err(refusal);
        }
    }
    Ok(())
}
