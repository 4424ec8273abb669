// A library, a source and a sink as a program sees them. Each counts its faults, and code that is given one cannot
// raise that count by itself: so an answer that needs a risen count cannot be made up.
ghost use Rattle.std.specs.Prelude.{◌≡◌, ◌++◌, ◌∷◌, ℕ, List, [], IfOk, IfSome, OnOk, OnErr};
ghost use Rattle.std.specs.declared.option.Option.{Option};
ghost use Rattle.std.specs.Io.{ReadsAtMost};
ghost use Rattle.std.specs.Io.KnownBytes.{ReadConsumes};
ghost use Rattle.ports.specs.declared.outside.FetchFault.TheVariants.{Memory};
ghost use Rattle.ports.specs.Causes.{HasCause, FetchHasCause};
ghost use Rattle.ports.specs.Held.{fetched};
ghost use Rattle.ports.specs.Puts.{PutsPrefix};

use std::alloc::{AllocError, Global};
use thiserror::Error;

/// A read or a put failed.
#[derive(Clone, Copy, Debug, PartialEq, Eq)]
pub struct Failed;

/// Why a fetch gives nothing.
#[derive(Clone, Copy, Debug, PartialEq, Eq, Error)]
pub enum FetchFault {
    #[error("a fetch failed")]
    Failed,
    #[error("want of memory")]
    Memory,
}

impl From<AllocError> for FetchFault {
    ghost from_gives = { λ _ fault. fault ≡ Memory };

    fn from(_: AllocError) -> Self {
        FetchFault::Memory
    }
}

/// Texts by their names.
pub trait Library {
    /// The bytes under each name, where the library tells them.
    ghost files: { Self → Option (List ℕ → Option (List ℕ)) };

    /// How often a fetch has failed.
    ghost faults: { Self → ℕ };

    /// What calls can make of a library.
    ghost becomes: { Self → Self → Type 0 };

    /// From a library, the names that were fetched one after the other, and the library after that.
    ghost fetches: { Self → List (List ℕ) → Self → Type 0 };

    /// How often a fetch has failed, at most the greatest u64.
    fn faults(&self) -> u64
        ensures { result ≡ faults self.now };

    /// The bytes under this name, or None where it is not held.
    fn fetch(&mut self, alloc: Global, name: &str) -> Result<Option<Vec<u8>>, FetchFault>
        ensures same { files self.new ≡ files self.old }
        ensures bytes { IfSome (files self.old) (λ held. IfOk result (λ got. fetched got ≡ held name.now)) }
        ensures becomes { becomes self.old self.new }
        ensures fetched { fetches self.old (name.now ∷ []) self.new }
        ensures cause { FetchHasCause (faults self.old) (faults self.new) result };

    ghost stays: { (library : Self) → becomes library library };

    ghost goes_on: { (first second third : Self) → becomes first second → becomes second third → becomes first third };

    ghost nothing: { (library : Self) → fetches library [] library };

    ghost in_a_row: { (first second third : Self) (xs ys : List (List ℕ)) → fetches first xs second → fetches second ys third → fetches first (xs ++ ys) third };
}

/// Bytes to read.
pub trait Source {
    /// The bytes that are left, where the source tells them.
    ghost left: { Self → Option (List ℕ) };

    /// How often a read has failed.
    ghost faults: { Self → ℕ };

    /// How often a read has failed, at most the greatest u64.
    fn faults(&self) -> u64
        ensures { result ≡ faults self.now };

    /// How many bytes it gave. Zero, where there is room, is the end of the input.
    fn read(&mut self, into: &mut [u8]) -> Result<usize, Failed>
        ensures bound { ReadsAtMost result into.new }
        ensures bytes { ReadConsumes (left self.old) (left self.new) result into.new }
        ensures cause { HasCause (faults self.old) (faults self.new) result };
}

/// Where bytes are put.
pub trait Sink {
    /// From a sink, the bytes that were put, and the sink after that.
    ghost puts: { Self → List ℕ → Self → Type 0 };

    /// How often a put has failed.
    ghost faults: { Self → ℕ };

    /// How often a put has failed, at most the greatest u64.
    fn faults(&self) -> u64
        ensures { result ≡ faults self.now };

    /// Puts these bytes. Of a put that failed, the sink has a prefix.
    fn put(&mut self, bytes: &[u8]) -> Result<(), Failed>
        ensures ok { OnOk result (puts self.old bytes.now self.new) }
        ensures failed { OnErr result (PutsPrefix puts self.old bytes.now self.new) }
        ensures cause { HasCause (faults self.old) (faults self.new) result };

    ghost nothing: { (sink : Self) → puts sink [] sink };

    ghost in_a_row: { (first second third : Self) (xs ys : List ℕ) → puts first xs second → puts second ys third → puts first (xs ++ ys) third };
}
