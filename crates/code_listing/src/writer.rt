// Words behind blanks.
ghost use Rattle.std.specs.Prelude.{◌≡◌, ◌++◌, ◌∷◌, [], OnOk, decimal};
ghost use Rattle.code_listing.specs.Listing.{spaced};

use itoa::Buffer;
use std::alloc::AllocError;

/// Adds a word.
pub fn push_word(out: &mut Vec<u8>, word: &[u8]) -> Result<(), AllocError>
    ensures { OnOk result (out.new.items ≡ out.old.items ++ spaced (word.now ∷ [])) }
{
    out.push(b' ')?;
    out.extend_from_slice(word)
}

/// Adds a number.
pub fn push_number(out: &mut Vec<u8>, n: u32) -> Result<(), AllocError>
    ensures { OnOk result (out.new.items ≡ out.old.items ++ spaced (decimal n ∷ [])) }
{
    let mut buffer = Buffer::new();
    push_word(out, buffer.format(n).as_bytes())
}

/// Adds two numbers.
pub fn push_two(out: &mut Vec<u8>, a: u32, b: u32) -> Result<(), AllocError>
    ensures { OnOk result (out.new.items ≡ out.old.items ++ spaced (decimal a ∷ decimal b ∷ [])) }
{
    push_number(out, a)?;
    push_number(out, b)
}

/// Adds three numbers.
pub fn push_three(out: &mut Vec<u8>, a: u32, b: u32, c: u32) -> Result<(), AllocError>
    ensures { OnOk result (out.new.items ≡ out.old.items ++ spaced (decimal a ∷ decimal b ∷ decimal c ∷ [])) }
{
    push_two(out, a, b)?;
    push_number(out, c)
}
