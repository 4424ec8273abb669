// The end of a deck.
ghost use Rattle.std.specs.Prelude.{◌≡◌, ◌<◌, ◌^◌, length};
ghost use Rattle.deck_link.specs.Ending.{end_of as end_of_bytes};

use ground::Place;

/// The place of the end of a deck, which is on the line behind all that end with a byte 10.
pub fn end_of(bytes: &[u8]) -> Place
    requires few { length bytes.now < 2 ^ 31 }
    ensures { result ≡ end_of_bytes bytes.now }
{
    let ended = bytes.iter().filter(|byte| **byte == 10).count();
    Place {
        file: 0,
        line: ended as u32 + 1,
    }
}
