// The units of a deck taken together.
ghost use Rattle.std.specs.Prelude.{◌≡◌, Ok, map, IfOk, IfErr, OnOk};
ghost use Rattle.std.specs.List.{All};
ghost use Rattle.f66_tree.specs.Views.{routine_of};
ghost use Rattle.f66_program.specs.Association.{IsBadUnit};
ghost use Rattle.f66_program.specs.Linking.{IsWhole};
ghost use Rattle.linker.specs.Rules.{program_of};
ghost use Rattle.storage_assoc.specs.Naming.{IsReady};
ghost use Rattle.whole_program.specs.Linked.{IsLinkRefusal};
ghost use Rattle.deck_reader.specs.Answers.{deck_units};
ghost use Rattle.deck_link.specs.Ending.{end_of as end_of_bytes};
ghost use Rattle.deck_link.specs.Linking.{IsAccepted, IsRefusedProgram, IsRefusedDeck};

use crate::checking::check_units;
use crate::ending::end_of;
use deck_reader::read_units;
use f66_tree::Unit;
use ground::{List, Place, Refusal};
use std::alloc::Global;
use whole_program::link;

/// Whether units of which each is ready, and none is bad by itself, break no rule of linking.
fn check_links(alloc: Global, units: &[Unit], finish: Place) -> Result<(), Refusal>
    requires ready { All (λ u. IsReady (routine_of u)) units.now }
    requires well { All (λ u. ¬ IsBadUnit (routine_of u)) units.now }
    ensures whole { OnOk result (IsWhole (program_of units.now finish)) }
    ensures refused { IfErr result (IsLinkRefusal (program_of units.now finish)) }
{
    if let Err(refusal) = link(alloc, units, finish) {
        return Err(refusal);
    }
    Ok(())
}

/// Units that link, whose deck ends at `finish`; else their first fault: unit by unit that of its rules, then BadEquivalence, then
/// Limit where it alone has too many storage units; behind all of them the first by the rules of linking (X3.9-1966, sections 7.2,
/// 8.3, 8.4, 9.1 and 10).
pub fn linked_units(alloc: Global, units: List<Unit>, finish: Place) -> Result<List<Unit>, Refusal>
    ensures same { IfOk result (λ linked. linked.items ≡ units.items) }
    ensures accepted { OnOk result (IsAccepted (program_of units.items finish)) }
    ensures refused { IfErr result (IsRefusedProgram (program_of units.items finish)) }
{
    let checked = check_units(alloc, units)?;
    check_links(alloc, &checked, finish)?;
    Ok(checked)
}

/// The units of a deck, which link; else the deck's first fault: of its cards, of its statements and headers, of its units, or of
/// linking.
pub fn linked_deck(alloc: Global, bytes: &[u8]) -> Result<List<Unit>, Refusal>
    ensures units { IfOk result (λ units. deck_units bytes.now ≡ Ok (map routine_of units.items)) }
    ensures accepted { IfOk result (λ units. IsAccepted (program_of units.items (end_of_bytes bytes.now))) }
    ensures refused { IfErr result (IsRefusedDeck (deck_units bytes.now) (end_of_bytes bytes.now)) }
{
    let units = read_units(alloc, bytes)?;
    linked_units(alloc, units, end_of(bytes))
}
