// A source in memory.
ghost use Rattle.std.specs.Prelude.{◌≡◌, ◌<◌, ◌≤◌, Some, IsTrue, length, take};
ghost use Rattle.ports.specs.Left.{all_full, joined};

use crate::{Failed, Source};
use std::marker::Model;

/// Gives one piece a read, or as much of it as fits. The n-th read fails where n is listed.
#[derive(Drop)]
pub struct MemSource {
    pieces: Vec<Vec<u8>>,
    at: usize,
    offset: usize,
    failing: Vec<u64>,
    calls: u64,
    faults: u64,
}

impl Model for MemSource {
    ghost use Rattle.ports.specs.SourceContent.{SourceContent};
    ghost use Rattle.ports.specs.Left.{left_in, IsWithin};

    ghost Value = { SourceContent };

    ghost view = { λ s. record { left = left_in s.pieces.items s.at s.offset; failing = s.failing.items; faults = s.faults } };

    ghost invariant = { λ s. IsWithin s.pieces s.at s.offset };
}

impl MemSource {
    /// No piece is empty. Takes no memory.
    pub fn new(pieces: Vec<Vec<u8>>, failing: Vec<u64>) -> Self
        requires { IsTrue (all_full pieces.items) }
        ensures left { result.left ≡ joined pieces.items }
        ensures failing { result.failing ≡ failing.items }
        ensures faults { result.faults ≡ 0 }
    {
        MemSource {
            pieces,
            at: 0,
            offset: 0,
            failing,
            calls: 0,
            faults: 0,
        }
    }
}

fn copy_front(into: &mut [u8], from: &[u8]) -> usize
    ensures bound { result ≤ length into.new }
    ensures most { result ≤ length from.now }
    ensures bytes { take result into.new ≡ take result from.now }
    ensures some { 0 < length into.new → 0 < length from.now → 0 < result }
{
    let count = into.len().min(from.len());
    into[..count].copy_from_slice(&from[..count]);
    count
}

impl Source for MemSource {
    ghost left = { λ s. Some s.left };

    ghost faults = { λ s. s.faults };

    fn faults(&self) -> u64 {
        self.faults
    }

    fn read(&mut self, into: &mut [u8]) -> Result<usize, Failed> {
        self.calls = self.calls.saturating_add(1);
        if self.failing.contains(&self.calls) {
            self.faults = self.faults.saturating_add(1);
            return Err(Failed);
        }
        if self.at == self.pieces.len() {
            return Ok(0);
        }
        let piece = &self.pieces[self.at];
        let count = copy_front(into, &piece[self.offset..]);
        if self.offset + count == piece.len() {
            self.at += 1;
            self.offset = 0;
        } else {
            self.offset += count;
        }
        Ok(count)
    }
}
