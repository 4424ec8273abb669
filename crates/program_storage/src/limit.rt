// The limit on the storage units of a program.
ghost use Rattle.std.specs.Prelude.{◌<◌, ◌-◌, length, map, IfOk, MatchBool, MatchOption};
ghost use Rattle.std.specs.List.{All};
ghost use Rattle.ground.specs.declared.fault.FaultKind.TheVariants.{Limit as IsLimit};
ghost use Rattle.ground.specs.declared.place.Place.{Place as APlace};
ghost use Rattle.f66_tree.specs.Views.{routine_of};
ghost use Rattle.f66_program.specs.Association.{IsBadUnit, IsNumbering};
ghost use Rattle.linker.specs.Rules.{IsFirstBroken, IsKept, program_of};
ghost use Rattle.storage_assoc.specs.Naming.{IsReady};
ghost use Rattle.program_storage.specs.Limits.{IsFirstLarge, IsLargeAt, IsSmallAt};
ghost use Rattle.program_storage.specs.Numbers.{number_in_program};

use crate::numbering::number_program;
use crate::program::ProgramStorage;
use f66_tree::Unit;
use ground::Fault;
use std::alloc::{AllocError, Global};
use storage_assoc::limit_fault;

const MOST: usize = 2_000_000;

/// The fault of a program of more than 2,000,000 storage units, at the first statement of the first unit up to which there are too
/// many; or none, where there are not. `storage` has the numbers of the program.
pub fn storage_limit(
    alloc: Global,
    units: &[Unit],
    storage: &ProgramStorage<'_>,
) -> Result<Option<Fault>, AllocError>
    requires ready { All (λ u. IsReady (routine_of u)) units.now }
    requires well { All (λ u. ¬ IsBadUnit (routine_of u)) units.now }
    requires numbered { IsNumbering (map routine_of units.now) (number_in_program storage.now) storage.now.total }
    ensures { IfOk result (λ o. (finish : APlace) → MatchOption o (IsKept IsLimit (program_of units.now finish)) (IsFirstBroken IsLimit (program_of units.now finish))) }
{
    if storage.total <= MOST {
        return Ok(None);
    }
    let first = first_large(alloc, units, MOST)?;
    let fault = limit_fault(&units[first]);
    Ok(Some(fault))
}

/// Whether the units up to one have more storage units than this.
fn is_large(alloc: Global, units: &[Unit], unit: usize, most: usize) -> Result<bool, AllocError>
    requires ready { All (λ u. IsReady (routine_of u)) units.now }
    requires well { All (λ u. ¬ IsBadUnit (routine_of u)) units.now }
    requires inside { unit < length units.now }
    ensures { IfOk result (λ b. MatchBool b (IsLargeAt most (map routine_of units.now) unit) (IsSmallAt most (map routine_of units.now) unit)) }
{
    let storage = number_program(alloc, &units[..unit + 1])?;
    if storage.total > most {
        Ok(true)
    } else {
        Ok(false)
    }
}

/// The first unit up to which there are more storage units than this, where all have more.
pub fn first_large(alloc: Global, units: &[Unit], most: usize) -> Result<usize, AllocError>
    requires ready { All (λ u. IsReady (routine_of u)) units.now }
    requires well { All (λ u. ¬ IsBadUnit (routine_of u)) units.now }
    requires some { 0 < length units.now }
    requires large { IsLargeAt most (map routine_of units.now) (length units.now - 1) }
    ensures { IfOk result (IsFirstLarge most (map routine_of units.now)) }
{
    let mut low = 0;
    let mut high = units.len() - 1;
    while low < high {
        let middle = low + (high - low) / 2;
        if is_large(alloc, units, middle, most)? {
            high = middle;
        } else {
            low = middle + 1;
        }
    }
    Ok(high)
}
