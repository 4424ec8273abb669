// Quoted texts.
ghost use Rattle.std.specs.Prelude.{◌≡◌, ◌≤◌, false, length, IfOk};
ghost use Rattle.free_scan.specs.Quotes.{escapes as is_escape, literal as literal_of, quoted};

use crate::characters::is_line_end;
use ground::Dialect;
use std::alloc::{AllocError, Global};

/// Where a quoted text ends: its bytes after the opening quote, with the closing one if it has one on its line.
#[derive(Clone, Copy, Debug, PartialEq, Eq)]
pub struct Quotation {
    pub size: usize,
    pub closed: bool,
}

fn escapes(dialect: Dialect, byte: u8) -> bool
    ensures { result ≡ is_escape dialect byte }
{
    match dialect {
        Dialect::Ratfor => byte == b'\\',
        Dialect::Efl => false,
    }
}

/// Where the quoted text ends whose bytes after the opening quote begin `rest`.
pub fn measure(dialect: Dialect, quote: u8, rest: &[u8]) -> Quotation
    ensures end { result ≡ quoted dialect quote false rest.now }
    ensures in_range { result.size ≤ length rest.now }
{
    let mut taken = false;
    for (i, byte) in rest.iter().enumerate() {
        if is_line_end(&rest[i..]) {
            return Quotation {
                size: i,
                closed: false,
            };
        }
        if !taken && *byte == quote {
            return Quotation {
                size: i + 1,
                closed: true,
            };
        }
        taken = !taken && escapes(dialect, *byte);
    }
    Quotation {
        size: rest.len(),
        closed: false,
    }
}

/// What stands between quotes says, without the backslashes that take a character literally.
pub fn literal(alloc: Global, dialect: Dialect, inside: &[u8]) -> Result<Vec<u8>, AllocError>
    ensures { IfOk result (λ text. text.items ≡ literal_of dialect false inside.now) }
{
    let mut text = Vec::new(alloc);
    let mut taken = false;
    for byte in inside {
        if !taken && escapes(dialect, *byte) {
            taken = true;
        } else {
            text.push(*byte)?;
            taken = false;
        }
    }
    Ok(text)
}
