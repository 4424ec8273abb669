// The units of a program taken together.
ghost use Rattle.std.specs.Prelude.{OnOk, IfErr, IfOk};
ghost use Rattle.std.specs.List.{All};
ghost use Rattle.ground.specs.declared.place.Place.{Place as APlace};
ghost use Rattle.f66_tree.specs.Views.{routine_of};
ghost use Rattle.f66_program.specs.Association.{HasUnits, IsBadUnit};
ghost use Rattle.f66_program.specs.Linking.{IsWhole};
ghost use Rattle.linker.specs.Rules.{program_of};
ghost use Rattle.storage_assoc.specs.Naming.{IsReady};
ghost use Rattle.whole_program.specs.Linked.{IsLinkRefusal};
ghost use Rattle.program_storage.specs.Limits.{HaveAtMost};
ghost use Rattle.rat_link.specs.Linking.{IsLinked, IsLinkFault, IsRefusalBy, IsTextLimit, most_of_text};

use crate::limit::{MOST, text_limit};
use f66_tree::Unit;
use ground::{Place, Refusal};
use std::alloc::Global;
use whole_program::link;

/// Whether the units of a program link, whose text ends at `finish`; else the fault: Limit where they have more than 1,000,000 storage
/// units, and then the first by the rules of linking (X3.9-1966, sections 7.2, 8.3, 8.4, 9.1 and 10). `said` is what they say; each is
/// ready, and none is bad by itself.
pub fn link_said(alloc: Global, said: &[Unit], finish: Place) -> Result<(), Refusal>
    requires ready { All (λ u. IsReady (routine_of u)) said.now }
    requires well { All (λ u. ¬ IsBadUnit (routine_of u)) said.now }
    ensures linked { OnOk result (IsLinked (program_of said.now finish)) }
    ensures refused { IfErr result (IsRefusalBy (IsLinkFault (program_of said.now finish))) }
{
    // Most programs link and have few storage units, and these are numbered once then.
    match linked_storage(alloc, said, finish) {
        Ok(total) if total <= MOST => Ok(()),
        Ok(_) => {
            ask_limit(alloc, said)?;
            Ok(())
        }
        Err(refusal) => {
            ask_limit(alloc, said)?;
            Err(refusal)
        }
    }
}

/// How many storage units the units have where they link.
pub(crate) fn linked_storage(alloc: Global, said: &[Unit], finish: Place) -> Result<usize, Refusal>
    requires ready { All (λ u. IsReady (routine_of u)) said.now }
    requires well { All (λ u. ¬ IsBadUnit (routine_of u)) said.now }
    ensures units { IfOk result (HasUnits (program_of said.now finish).units) }
    ensures whole { IfOk result (λ _. IsWhole (program_of said.now finish)) }
    ensures refused { IfErr result (IsLinkRefusal (program_of said.now finish)) }
{
    match link(alloc, said, finish) {
        Ok(linked) => Ok(linked.storage.total),
        Err(refusal) => Err(refusal),
    }
}

/// Refuses units with too many storage units.
fn ask_limit(alloc: Global, said: &[Unit]) -> Result<(), Refusal>
    requires ready { All (λ u. IsReady (routine_of u)) said.now }
    requires well { All (λ u. ¬ IsBadUnit (routine_of u)) said.now }
    ensures few { OnOk result ((finish : APlace) → HaveAtMost most_of_text (program_of said.now finish).units) }
    ensures refused { IfErr result (λ e. (finish : APlace) → IsRefusalBy (IsTextLimit (program_of said.now finish)) e) }
{
    match text_limit(alloc, said)? {
        Some(fault) => Err(Refusal::Fault(fault)),
        None => Ok(()),
    }
}
