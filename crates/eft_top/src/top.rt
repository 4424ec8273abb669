// The one public call: the words, the library, and the streams.
ghost use Rattle.std.specs.Prelude.{◌≡◌, ◌≢◌, ◌⊎◌, ℕ, List, [], IfSome};
ghost use Rattle.ground.specs.declared.token.Dialect.{Dialect};
ghost use Rattle.std.specs.Io.KnownBytes.{IsAtEnd};
ghost use Rattle.ports.specs.Causes.{Rose};
ghost use Rattle.ports.specs.Puts.{PutsPrefix};
ghost use Rattle.ground.specs.declared.trap.Trap.TheVariants.{EndOfInput};
ghost use Rattle.eft_top.specs.Lines.{output_fault_line};
ghost use Rattle.eft_top.specs.Words.{Cards, Listing, AskFor, texts};
ghost use Rattle.eft_top.specs.Causes.{AnswersCall, IsOfText, WasToShow, NeedsNoInput, fixed_line};
ghost use Rattle.eft_top.specs.Input.{HasGiven, HasGot, HasRead};

use crate::Status;
use crate::answer::answer_to;
use front::one_verdict;
use ports::{Failed, Library, Sink, Source};
use std::alloc::Global;

/// All that the program does. The words are those after the program's name; out gets the records of a run, each in one put when it is
/// complete, or a deck or a listing in one put, and diag the line of the counts where it is asked for and at most one line more. A run
/// reads its input where it asks for a record. Want of memory comes before a run begins, or before a deck or a listing is put.
pub fn eft<L: Library, S: Source, K: Sink, D: Sink>(
    alloc: Global,
    words: &Vec<String>,
    library: &mut L,
    input: &mut S,
    out: &mut K,
    diag: &mut D,
) -> Status
    // When each status of a text comes, and what out and diag then have.
    ensures answer { AnswersCall (AskFor (texts words.now.items)) (L.files library.old) (HasGiven S.left S.faults input.old input.new) result
        (λ bytes. K.puts out.old bytes out.new) (λ bytes. D.puts diag.old bytes diag.new) }

    // What a fault of the outside has behind it, and the end of the input.
    ensures read_failed { result ≡ Status.InputFault → Rose (S.faults input.old) (S.faults input.new) }
    ensures input_ended { result ≡ Status.Trapped EndOfInput → IsAtEnd (S.left input.new) × (S.faults input.new ≡ S.faults input.old) }
    ensures library_fault { result ≡ Status.LibraryFault → Rose (L.faults library.old) (L.faults library.new) }
    ensures output_fault { result ≡ Status.OutputFault → Rose (K.faults out.old) (K.faults out.new) ⊎ Rose (D.faults diag.old) (D.faults diag.new) }

    // With any other status no put of this call failed, and no read but with that of a read, and with a text's status no fetch.
    ensures all_put_out { result ≢ Status.OutputFault → K.faults out.new ≡ K.faults out.old }
    ensures all_put_diag { result ≢ Status.OutputFault → D.faults diag.new ≡ D.faults diag.old }
    ensures all_read { result ≢ Status.OutputFault → result ≢ Status.InputFault → S.faults input.new ≡ S.faults input.old }
    ensures all_fetched { IsOfText result → L.faults library.new ≡ L.faults library.old }

    // What out and diag got with any other status, and nothing else.
    ensures line_shown { IfSome (fixed_line result) (λ line. K.puts out.old [] out.new × D.puts diag.old line diag.new) }
    ensures failed { result ≡ Status.OutputFault → WasToShow (AskFor (texts words.now.items)) (L.files library.old) (HasGot S.left input.old input.new)
        (λ bytes. PutsPrefix K.puts out.old bytes out.new) (λ bytes. PutsPrefix D.puts diag.old bytes diag.new) }
    ensures failed_diag { result ≡ Status.OutputFault → Rose (D.faults diag.old) (D.faults diag.new) ⊎ D.puts diag.old output_fault_line diag.new }

    // What became of the objects.
    ensures library { L.becomes library.old library.new }
    ensures input { HasRead (S.left input.old) (S.left input.new) }
    ensures unread { NeedsNoInput result → input.new ≡ input.old }
    ensures unasked { (language : Dialect) (file : List ℕ) → AskFor (texts words.now.items) (Cards language file) → input.new ≡ input.old }
    ensures unlisted { (language : Dialect) (file : List ℕ) → AskFor (texts words.now.items) (Listing language file) → input.new ≡ input.old }
{
    // What a text comes to does not depend on how it is read.
    one_verdict();
    let report = answer_to(alloc, words, library, input, out);
    match report.put(diag) {
        Ok(()) => report.status,
        Err(Failed) => Status::OutputFault,
    }
}
