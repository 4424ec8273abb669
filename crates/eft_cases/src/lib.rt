//! The top call over a library, a source and sinks in memory: what its clauses say of them, and calls of which one fails.
#![tactic(auto)]

ghost use Rattle.std.specs.Prelude.{◌≡◌, ◌≢◌, ◌++◌, [], Some};
ghost use Rattle.ports.specs.Held.{held_bytes};
ghost use Rattle.ground.specs.declared.trap.Trap.TheVariants.{EndOfInput};
ghost use Rattle.eft_top.specs.Words.{AskFor, texts};
ghost use Rattle.eft_top.specs.Causes.{AnswersCall};
ghost use Rattle.eft_top.specs.Input.{HasGiven};

use eft_top::{Status, eft};
use ports::{MemLibrary, MemSink, MemSource};
use std::alloc::Global;

#[cfg(test)]
mod calling;
#[cfg(test)]
mod counts;
#[cfg(test)]
mod failures;
#[cfg(test)]
mod inputs;

/// A call over objects in memory, which tell what they hold: with a status that a text has, out and diag hold exactly
/// the records and the line of what comes of the text.
pub fn eft_in_memory(
    alloc: Global,
    words: &Vec<String>,
    library: &mut MemLibrary,
    input: &mut MemSource,
    out: &mut MemSink,
    diag: &mut MemSink,
) -> Status
    ensures answer { AnswersCall (AskFor (texts words.now.items)) (Some (held_bytes library.old.texts)) (HasGiven (λ source. Some source.left) (λ source. source.faults) input.old input.new) result
        (λ bytes. out.new.held ≡ out.old.held ++ bytes) (λ bytes. diag.new.held ≡ diag.old.held ++ bytes) }
    // The program that wants a record beyond the last has read all, and a read that failed is told.
    ensures at_end { result ≡ Status.Trapped EndOfInput → input.new.left ≡ [] }
    ensures told { result ≢ Status.OutputFault → result ≢ Status.InputFault → input.new.faults ≡ input.old.faults }
    // Want of memory comes before anything is read or put.
    ensures before { result ≡ Status.Memory → (input.new ≡ input.old) × (out.new.held ≡ out.old.held ++ []) }
    // With no failing fetch on its list the library is never at fault.
    ensures no_fault { library.old.failing ≡ [] → library.old.faults ≡ 0 → result ≢ Status.LibraryFault }
{
    eft(alloc, words, library, input, out, diag)
}
