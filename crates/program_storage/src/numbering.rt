// The storage units of the units of a program, numbered.
ghost use Rattle.std.specs.Prelude.{ℕ, IfOk, map};
ghost use Rattle.std.specs.List.{All};
ghost use Rattle.f66_tree.specs.Views.{routine_of};
ghost use Rattle.f66_program.specs.Association.{IsBadUnit, IsNumbering};
ghost use Rattle.storage_assoc.specs.Naming.{IsReady};
ghost use Rattle.program_storage.specs.Numbers.{HaveSpots, number_in_program};

use crate::gathering::rows_of;
use crate::labels::labels_of;
use crate::program::ProgramStorage;
use f66_tree::Unit;
use std::alloc::{AllocError, Global};
use storage_assoc::number_units;

/// The numbers of the storage units of a program (X3.9-1966, section 10.2.1), of whose units each is ready and none is bad by itself.
pub fn number_program<'a>(
    alloc: Global,
    units: &'a [Unit],
) -> Result<ProgramStorage<'a>, AllocError>
    requires ready { All (λ u. IsReady (routine_of u)) units.now }
    requires well { All (λ u. ¬ IsBadUnit (routine_of u)) units.now }
    ensures numbered { IfOk result (λ p. IsNumbering (map routine_of units.now) (number_in_program p) p.total) }
    ensures spots { IfOk result (λ p. HaveSpots (map routine_of units.now) p) }
{
    let labels = labels_of(alloc, units)?;
    let all = rows_of(alloc, &labels, units)?;
    if all.links.len() >= 1 << 60 {
        return Err(AllocError);
    }
    let Some(numbers) = number_units(alloc, labels.names.len() + 1, &all.links, &all.sizes)? else {
        unreachable!()
    };
    if numbers.total >= 1 << 62 {
        return Err(AllocError);
    }
    Ok(ProgramStorage {
        units: all.units,
        sizes: all.sizes,
        firsts: numbers.firsts,
        total: numbers.total,
    })
}
