// The fields of a format, by their words.
ghost use Rattle.std.specs.Prelude.{◌≡◌};
ghost use Rattle.f66_tree.specs.Views.{field_then};
ghost use Rattle.rat_parse_values.specs.Phrases.{width as width_of, lettered as lettered_so, worded};

use f66_tree::{Field, Name};

/// The value of digits, at most 65,535.
fn width(digits: &[u8]) -> u16
    ensures { result ≡ width_of digits.now }
{
    let mut width: u32 = 0;
    for digit in digits {
        let longer = width * 10 + u32::from(digit.saturating_sub(b'0'));
        if longer > 65_535 {
            return 65_535;
        }
        width = longer;
    }
    width as u16
}

fn lettered(letter: u8, count: u16, width: u16) -> Field
    ensures { field_then result ≡ lettered_so letter count width }
{
    if letter == b'I' {
        Field::Whole(count, width)
    } else if letter == b'L' {
        Field::Truth(count, width)
    } else if letter == b'X' {
        Field::Skip(count)
    } else {
        Field::Letter(count)
    }
}

/// What a word of a format is, with what a count before it says.
pub fn word_field(count: u16, name: &Name) -> Field
    ensures { field_then result ≡ worded count name.now }
{
    match name.as_bytes() {
        [] => Field::Letter(count),
        [letter, digits @ ..] => lettered(*letter, count, width(digits)),
    }
}
