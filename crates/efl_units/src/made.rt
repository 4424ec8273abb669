// The names that are made, and copies of those of the source.
ghost use Rattle.std.specs.Prelude.{◌≡◌, IfOk};
ghost use Rattle.efl_naming.specs.Choice.{made};

use efl_emit::digit;
use f66_tree::Name;
use ground::Text;
use std::alloc::{AllocError, Global};

/// A letter and the last five digits of a number.
pub fn made_name(letter: u8, number: usize) -> Name
    ensures { result ≡ made letter number }
{
    let text = [
        letter,
        digit(number, 10_000),
        digit(number, 1_000),
        digit(number, 100),
        digit(number, 10),
        digit(number, 1),
    ];
    Name::new(Text::short(&text))
}

/// The name with these bytes.
pub fn copied_name(alloc: Global, bytes: &[u8]) -> Result<Name, AllocError>
    ensures { IfOk result (λ name. name ≡ bytes.now) }
{
    Ok(Name::new(Text::from_slice(alloc, bytes)?))
}
