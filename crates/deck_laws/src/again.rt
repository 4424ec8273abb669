// Units printed and read again.
ghost use Rattle.std.specs.Prelude.{◌≡◌, IfOk, IfErr, map};
ghost use Rattle.std.specs.List.{All};
ghost use Rattle.ground.specs.declared.fault.Refusal.TheVariants.{Memory};
ghost use Rattle.f66_tree.specs.Views.{routine_of};
ghost use Rattle.deck.specs.Decks.{HasCardLabels};
ghost use Rattle.deck_laws.specs.Places.{unplaced};
ghost use Rattle.deck_laws.specs.Whole.{IsSoundDeck};

use deck::write_deck;
use deck_reader::read_deck;
use f66_check::SoundUnit;
use f66_tree::Unit;
use ground::{List, Refusal};
use std::alloc::Global;

/// Sound units by way of their printed deck: they are the same but for places, and nothing is refused but for want of memory.
pub fn print_and_read(alloc: Global, units: &[Unit]) -> Result<List<SoundUnit>, Refusal>
    requires labels { All HasCardLabels units.now }
    requires sound { IsSoundDeck (map routine_of units.now) }
    ensures same { IfOk result (λ read. map unplaced (map routine_of read.items) ≡ map unplaced (map routine_of units.now)) }
    ensures memory { IfErr result (λ r. r ≡ Memory) }
{
    let mut deck = Vec::new(alloc);
    write_deck(units, &mut deck)?;
    read_deck(alloc, &deck)
}
