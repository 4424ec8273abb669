// From a file to its units.
ghost use Rattle.std.specs.Prelude.{◌≡◌};
ghost use Rattle.macro_define.specs.Gathered.{HasCause};
ghost use Rattle.ports.specs.Held.{fetched};
ghost use Rattle.deck_file.specs.Answers.{Finds, IsDeckIn, IsNamed};
ghost use Rattle.deck_file.specs.Loaded.{IsLoaded};

use crate::Deck;
use crate::deck::deck_in;
use ground::{Fault, FaultKind, Place, Refusal, Text};
use macro_define::TextRefusal;
use ports::{FetchFault, Library};
use std::alloc::Global;

/// The units of the deck under this name, which link, or the deck's first fault: that it is missing, of its cards, its statements,
/// its units, or linking (X3.9-1966, sections 3 to 10). The place of a fault is a card, or line 0.
pub fn load_deck<L: Library>(
    alloc: Global,
    name: &str,
    library: &mut L,
) -> Result<Deck, TextRefusal>
    ensures deck { IsDeckIn (L.files library.old) name.now result }
    ensures same { L.files library.new ≡ L.files library.old }
    ensures becomes { L.becomes library.old library.new }
    ensures cause { HasCause (L.faults library.old) (L.faults library.new) result }
{
    let bytes = match library.fetch(alloc, name) {
        Ok(bytes) => bytes,
        Err(FetchFault::Failed) => return Err(TextRefusal::Library),
        Err(FetchFault::Memory) => return Err(TextRefusal::Memory),
    };
    match deck_of(alloc, bytes) {
        Ok(deck) => Ok(deck),
        Err(refusal) => Err(named(alloc, name, refusal)),
    }
}

/// The units of a file's bytes, where there is such a file.
fn deck_of(alloc: Global, bytes: Option<Vec<u8>>) -> Result<Deck, Refusal>
    ensures { Finds (IsLoaded (fetched bytes)) result }
{
    let Some(bytes) = bytes else {
        let start = Place { file: 0, line: 0 };
        return Err(Refusal::Fault(Fault::new(start, FaultKind::IncludeMissing)));
    };
    deck_in(alloc, &bytes)
}

/// A refusal with the name of the file.
fn named(alloc: Global, name: &str, refusal: Refusal) -> TextRefusal
    ensures { IsNamed name.now refusal result }
{
    match refusal {
        Refusal::Fault(fault) => match Text::from_slice(alloc, name.as_bytes()) {
            Ok(name) => TextRefusal::Fault(fault, name),
            Err(_) => TextRefusal::Memory,
        },
        Refusal::Memory => TextRefusal::Memory,
    }
}
