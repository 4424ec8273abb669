// A library in memory.
ghost use Rattle.std.specs.Prelude.{◌≡◌, Some, IfOk};
ghost use Rattle.ports.specs.Held.{held_bytes, fetched, texts_of};
ghost use Rattle.ports.specs.Counted.{CountsOn, counts_nothing, counts_in_a_row};
ghost use Rattle.ports.specs.Failing.{GoesOn, goes_on_itself, goes_on_twice};

use crate::{FetchFault, Library};
use std::alloc::{AllocError, Global};
use std::marker::Model;

/// Holds texts under names; where a name stands twice, the first text counts. The n-th fetch fails where n is listed.
#[derive(Drop)]
pub struct MemLibrary {
    names: Vec<(String, Vec<u8>)>,
    failing: Vec<u64>,
    calls: u64,
    faults: u64,
}

impl Model for MemLibrary {
    ghost use Rattle.ports.specs.LibraryContent.{LibraryContent};
    ghost use Rattle.ports.specs.Held.{texts_of};

    ghost Value = { LibraryContent };

    ghost view = { λ l. record { texts = texts_of l.names.items; failing = l.failing.items; calls = l.calls; faults = l.faults } };
}

impl MemLibrary {
    /// Takes no memory.
    pub fn new(names: Vec<(String, Vec<u8>)>, failing: Vec<u64>) -> Self
        ensures texts { result.texts ≡ texts_of names.items }
        ensures failing { result.failing ≡ failing.items }
        ensures calls { result.calls ≡ 0 }
        ensures faults { result.faults ≡ 0 }
    {
        MemLibrary {
            names,
            failing,
            calls: 0,
            faults: 0,
        }
    }

    /// How many fetches there were, at most the greatest u64.
    pub fn calls(&self) -> u64
        ensures { result ≡ self.now.calls }
    {
        self.calls
    }
}

fn copy_of(
    alloc: Global,
    names: &Vec<(String, Vec<u8>)>,
    name: &str,
) -> Result<Option<Vec<u8>>, AllocError>
    ensures { IfOk result (λ got. fetched got ≡ held_bytes (texts_of names.now.items) name.now) }
{
    for entry in names {
        if entry.0.as_str() == name {
            return Ok(Some(entry.1.to_vec(alloc)?));
        }
    }
    Ok(None)
}

impl Library for MemLibrary {
    ghost files = { λ l. Some (held_bytes l.texts) };

    ghost faults = { λ l. l.faults };

    ghost becomes = { λ old new. GoesOn old.failing new.failing old.faults new.faults };

    ghost fetches = { λ old names new. CountsOn old.calls names new.calls };

    ghost stays = { λ l. goes_on_itself l.failing l.faults };

    ghost goes_on = { λ a b c. goes_on_twice a.failing b.failing c.failing a.faults b.faults c.faults };

    ghost nothing = { λ l. counts_nothing l.calls };

    ghost in_a_row = { λ a b c xs ys. counts_in_a_row a.calls b.calls c.calls xs ys };

    fn faults(&self) -> u64 {
        self.faults
    }

    fn fetch(&mut self, alloc: Global, name: &str) -> Result<Option<Vec<u8>>, FetchFault> {
        self.calls = self.calls.saturating_add(1);
        if self.failing.contains(&self.calls) {
            self.faults = self.faults.saturating_add(1);
            return Err(FetchFault::Failed);
        }
        Ok(copy_of(alloc, &self.names, name)?)
    }
}
