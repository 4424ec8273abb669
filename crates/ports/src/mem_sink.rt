// A sink in memory.
ghost use Rattle.std.specs.Prelude.{◌≡◌, ◌++◌, [], IfOk};
ghost use Rattle.ports.specs.Appends.{appends_nothing, appends_in_a_row};

use crate::{Failed, Sink};
use ground::Memory;
use std::alloc::Global;
use std::marker::Model;

/// Holds at most `room` bytes, for which it has reserved memory. The n-th put fails where n is listed, and puts nothing
/// then; so does a put for which there is no room.
#[derive(Drop)]
pub struct MemSink {
    bytes: Vec<u8>,
    room: usize,
    failing: Vec<u64>,
    calls: u64,
    faults: u64,
}

impl Model for MemSink {
    ghost use Rattle.std.specs.Prelude.{◌≤◌, vec_len, vec_capacity};
    ghost use Rattle.ports.specs.SinkContent.{SinkContent};

    ghost Value = { SinkContent };

    ghost view = { λ s. record { held = s.bytes.items; room = s.room; failing = s.failing.items; faults = s.faults } };

    ghost invariant = { λ s. (vec_len s.bytes ≤ s.room) × (s.room ≤ vec_capacity s.bytes) };
}

impl MemSink {
    /// Reserves `room` bytes at once.
    pub fn new(alloc: Global, room: usize, failing: Vec<u64>) -> Result<Self, Memory>
        ensures empty { IfOk result (λ sink. sink.held ≡ []) }
        ensures room { IfOk result (λ sink. sink.room ≡ room) }
        ensures failing { IfOk result (λ sink. sink.failing ≡ failing.items) }
        ensures faults { IfOk result (λ sink. sink.faults ≡ 0) }
    {
        let bytes = Vec::with_capacity(alloc, room)?;
        Ok(MemSink {
            bytes,
            room,
            failing,
            calls: 0,
            faults: 0,
        })
    }

    /// All that was put.
    pub fn bytes(&self) -> &[u8]
        ensures { result.now ≡ self.now.held }
    {
        &self.bytes
    }
}

impl Sink for MemSink {
    ghost puts = { λ old bytes new. new.held ≡ old.held ++ bytes };

    ghost faults = { λ s. s.faults };

    ghost nothing = { λ s. appends_nothing s.held };

    ghost in_a_row = { λ a b c xs ys first second. appends_in_a_row a.held b.held c.held xs ys first second };

    fn faults(&self) -> u64 {
        self.faults
    }

    fn put(&mut self, bytes: &[u8]) -> Result<(), Failed> {
        self.calls = self.calls.saturating_add(1);
        if self.failing.contains(&self.calls) || bytes.len() > self.room - self.bytes.len() {
            self.faults = self.faults.saturating_add(1);
            return Err(Failed);
        }
        self.bytes.extend_from_slice(bytes).unwrap();
        Ok(())
    }
}
