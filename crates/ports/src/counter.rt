// A sink that counts lines and keeps the last.
ghost use Rattle.std.specs.Prelude.{◌≡◌, ◌≤◌, [], take, refl};
ghost use Rattle.ports.specs.Tally.{Tally, with_byte, with_bytes, tallies_in_a_row};

use crate::{Failed, Sink};
use std::marker::Model;

// The longest record has as many characters.
const WIDTH: usize = 132;

/// Counts the lines that are put, and keeps the beginning of the last one. It takes no memory and never fails.
#[derive(Drop)]
pub struct Counter {
    records: u64,
    line: [u8; 132],
    line_len: usize,
    last: [u8; 132],
    last_len: usize,
}

impl Model for Counter {
    ghost Value = { Tally };

    ghost view = { λ c. record { records = c.records; line = take c.line_len c.line; last = take c.last_len c.last } };

    ghost invariant = { λ c. (c.line_len ≤ 132) × (c.last_len ≤ 132) };
}

impl Counter {
    /// Takes no memory.
    pub fn new() -> Self
        ensures records { result.records ≡ 0 }
        ensures line { result.line ≡ [] }
        ensures last { result.last ≡ [] }
    {
        Counter {
            records: 0,
            line: [0; 132],
            line_len: 0,
            last: [0; 132],
            last_len: 0,
        }
    }

    /// How many bytes 10 were put, at most the greatest u64.
    pub fn records(&self) -> u64
        ensures { result ≡ self.now.records }
    {
        self.records
    }

    /// The first 132 bytes of the last line that was completed.
    pub fn last(&self) -> &[u8]
        ensures { result.now ≡ self.now.last }
    {
        &self.last[..self.last_len]
    }

    fn add(&mut self, byte: u8)
        ensures { self.new ≡ with_byte self.old byte }
    {
        if byte == 10 {
            let line = self.line;
            self.records = self.records.saturating_add(1);
            self.last = line;
            self.last_len = self.line_len;
            self.line_len = 0;
        } else if self.line_len < WIDTH {
            self.line[self.line_len] = byte;
            self.line_len += 1;
        }
    }
}

impl Sink for Counter {
    ghost puts = { λ old bytes new. new ≡ with_bytes old bytes };

    ghost faults = { λ _. 0 };

    ghost nothing = { λ _. refl };

    ghost in_a_row = { tallies_in_a_row };

    fn faults(&self) -> u64 {
        0
    }

    fn put(&mut self, bytes: &[u8]) -> Result<(), Failed> {
        for byte in bytes {
            self.add(*byte);
        }
        Ok(())
    }
}
