// An input whose bytes were all got, as the list of its records that are left.
ghost use Rattle.std.specs.Prelude.{◌≡◌, ◌<◌, ◌≤◌, true, [], ◌∷◌, length, drop, take, MatchOption};
ghost use Rattle.std.specs.Borrow.{sem};
ghost use Rattle.std.specs.Io.BufRead.{Rests};
ghost use Rattle.ports.specs.Records.{got_records, input_records, without_return};
ghost use Rattle.ports.specs.contracts.whole.Whole.{the_row};

use memchr::{memchr, memrchr};
use std::marker::Model;

/// As many bytes of a line, without its end, may belong to a record that is not too long.
const LONGEST: usize = 65_536;

/// The records of an input (X3.9-1966, 7.1.3), one line each.
#[derive(Drop)]
pub struct Whole {
    bytes: Vec<u8>,
    at: usize,
}

impl Model for Whole {
    ghost use Rattle.std.specs.Prelude.{ℕ, ◌≤◌, List, drop, vec_len};
    ghost use Rattle.ports.specs.Records.{input_records};

    ghost Value = { List (List ℕ) };

    ghost view = { λ w. input_records (drop w.at w.bytes.items) };

    ghost invariant = { λ w. w.at ≤ vec_len w.bytes };
}

impl Whole {
    /// Takes no memory, and copies no byte.
    pub fn new(bytes: Vec<u8>) -> Whole
        ensures { result ≡ input_records bytes.items }
    {
        Whole { bytes, at: 0 }
    }

    /// The records of what was got before a read failed: of the line that it cut only that it is too long is known.
    pub fn cut(mut bytes: Vec<u8>) -> Whole
        ensures { result ≡ got_records true bytes.items }
    {
        let length = length_got(&bytes);
        bytes.truncate(length);
        Whole { bytes, at: 0 }
    }

    /// The first record that is left, which is then left no more.
    pub fn take(&mut self) -> Option<&[u8]>
        ensures first { MatchOption result (self.old ≡ []) (λ record_bytes. self.old ≡ record_bytes.now ∷ drop 1 self.old) }
        ensures* others { sem 𝓛 (Rests the_row self.entry (λ left. left ≡ drop 1 self.old)) }
    {
        if self.at == self.bytes.len() {
            return None;
        }
        let start = self.at;
        let line = first_line(&self.bytes[start..]);
        self.at = start + line.next;
        Some(&self.bytes[start..start + line.length])
    }
}

/// How long the first record is, and where the line behind it begins.
#[derive(Drop)]
struct Line {
    length: usize,
    next: usize,
}

fn first_line(bytes: &[u8]) -> Line
    requires { 0 < length bytes.now }
    ensures record { input_records bytes.now ≡ take result.length bytes.now ∷ input_records (drop result.next bytes.now) }
    ensures within { result.length ≤ result.next }
    ensures end { result.next ≤ length bytes.now }
{
    match memchr(10, bytes) {
        Some(end) => Line {
            length: length_without_return(&bytes[..end]),
            next: end + 1,
        },
        None => Line {
            length: bytes.len(),
            next: bytes.len(),
        },
    }
}

fn length_without_return(line: &[u8]) -> usize
    ensures record { take result line.now ≡ without_return line.now }
    ensures most { result ≤ length line.now }
{
    match line.strip_suffix(&[13]) {
        Some(front) => front.len(),
        None => line.len(),
    }
}

/// Of how many bytes the records are those of what was got before a read failed.
fn length_got(bytes: &[u8]) -> usize
    ensures { input_records (take result bytes.now) ≡ got_records true bytes.now }
{
    let end = match memrchr(10, bytes) {
        Some(last) => last + 1,
        None => 0,
    };
    if bytes.len() - end <= LONGEST {
        end
    } else {
        bytes.len()
    }
}
