// The limit on the storage units of a text.
ghost use Rattle.std.specs.Prelude.{IfOk, MatchOption};
ghost use Rattle.std.specs.List.{All};
ghost use Rattle.ground.specs.declared.place.Place.{Place as APlace};
ghost use Rattle.f66_tree.specs.Views.{routine_of};
ghost use Rattle.f66_program.specs.Association.{IsBadUnit};
ghost use Rattle.linker.specs.Rules.{program_of};
ghost use Rattle.storage_assoc.specs.Naming.{IsReady};
ghost use Rattle.program_storage.specs.Limits.{HaveAtMost};
ghost use Rattle.rat_link.specs.Linking.{IsTextLimit, most_of_text};

use f66_tree::Unit;
use ground::Fault;
use program_storage::{first_large, number_program};
use std::alloc::{AllocError, Global};
use storage_assoc::limit_fault;

/// The greatest number of storage units of a text.
pub(crate) const MOST: usize = 1_000_000;

/// The fault of units with more than 1,000,000 storage units, at the first statement of the first up to which there are too many; or
/// none.
pub fn text_limit(alloc: Global, said: &[Unit]) -> Result<Option<Fault>, AllocError>
    requires ready { All (λ u. IsReady (routine_of u)) said.now }
    requires well { All (λ u. ¬ IsBadUnit (routine_of u)) said.now }
    ensures { IfOk result (λ o. (finish : APlace) → MatchOption o (HaveAtMost most_of_text (program_of said.now finish).units) (IsTextLimit (program_of said.now finish))) }
{
    let storage = number_program(alloc, said)?;
    if storage.total <= MOST {
        return Ok(None);
    }
    let first = first_large(alloc, said, MOST)?;
    Ok(Some(limit_fault(&said[first])))
}
