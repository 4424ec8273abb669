// The units of a deck's bytes.
ghost use Rattle.deck_reader.specs.Answers.{deck_units};
ghost use Rattle.deck_link.specs.Ending.{end_of as end_of_bytes};
ghost use Rattle.deck_file.specs.Answers.{Finds};
ghost use Rattle.deck_file.specs.Loaded.{IsRead};

use deck_link::{end_of, linked_units};
use deck_reader::read_units;
use f66_tree::Unit;
use ground::{List, Place, Refusal};
use std::alloc::Global;

/// Sound units that link, and where their deck ends.
#[derive(Drop)]
pub struct Deck {
    pub units: List<Unit>,
    pub finish: Place,
}

/// The units of a deck's bytes, which link, or the deck's first fault.
pub fn deck_in(alloc: Global, bytes: &[u8]) -> Result<Deck, Refusal>
    ensures { Finds (IsRead (deck_units bytes.now) (end_of_bytes bytes.now)) result }
{
    let units = read_units(alloc, bytes)?;
    let finish = end_of(bytes);
    let units = linked_units(alloc, units, finish)?;
    Ok(Deck { units, finish })
}
