// All that a call does but for its lines: the words are read, the text is translated or the deck is read, and the text's deck or listing
// is put, or the units run over the input and put their records.
ghost use Rattle.std.specs.Prelude.{◌≡◌, ◌≢◌, ℕ, List, [], ◌∷◌, map, All, IfOk, OnErr};
ghost use Rattle.ground.specs.declared.token.Dialect.{Dialect};
ghost use Rattle.f66_tree.specs.Views.{routine_of};
ghost use Rattle.f66_check.specs.Answers.{IsSoundUnit};
ghost use Rattle.linker.specs.Rules.{program_of};
ghost use Rattle.machine.specs.Runs.{IsSoundProgram};
ghost use Rattle.machine.specs.Listings.{IsListingOf};
ghost use Rattle.stmt_text.specs.Fitting.{IsPrintable};
ghost use Rattle.deck.specs.Decks.{deck_of};
ghost use Rattle.eft_top.specs.declared.status.Status.TheVariants.{InputFault};
ghost use Rattle.eft_top.specs.Words.{AskFor, texts, Run, Cards, Listing, Deck};
ghost use Rattle.eft_top.specs.Outcome.{RunsOver, count_line, if_asked};
ghost use Rattle.eft_top.specs.Reading.{asked_command};
ghost use Rattle.eft_top.specs.Causes.{NeedsNoInput};
ghost use Rattle.eft_top.specs.Input.{HasGiven, HasGot, HasRead, is_unread};
ghost use Rattle.eft_top.specs.Story.{CameOf, CameOfWords, HasPut, HasBroken, Prints, Shows, IsUnitsRun};
ghost use Rattle.eft_top.specs.Report.{ReportsRefusal, counts_bytes};

use crate::Status;
use crate::puts::put_all;
use crate::report::{Counts, Report};
use crate::words::{Asked, read_words};
use deck::write_deck;
use deck_file::load_deck;
use f66_tree::Unit;
use front::{TextRefusal, Translated, translate_text};
use ground::{Dialect, List, Memory, Place, Refusal, Text};
use machine::{listing, load, loaded_runs};
use ports::{Failed, Library, Sink, Source};
use runner::Runner;
use std::alloc::{AllocError, Global};

/// All that a call does but for its lines.
pub fn answer_to<L: Library, S: Source, K: Sink>(
    alloc: Global,
    words: &Vec<String>,
    library: &mut L,
    input: &mut S,
    out: &mut K,
) -> Report
    ensures library { L.becomes library.old library.new }
    ensures input { HasRead (S.left input.old) (S.left input.new) }
    ensures unread { NeedsNoInput result.status → input.new ≡ input.old }
    ensures unasked { (language : Dialect) (file : List ℕ) → AskFor (texts words.now.items) (Cards language file) → input.new ≡ input.old }
    ensures unlisted { (language : Dialect) (file : List ℕ) → AskFor (texts words.now.items) (Listing language file) → input.new ≡ input.old }
    ensures all_read { result.status ≢ InputFault → S.faults input.new ≡ S.faults input.old }
    ensures came { CameOfWords (AskFor (texts words.now.items)) (L.files library.old) (L.faults library.old) (L.faults library.new) (HasGiven S.left S.faults input.old input.new) (HasGot S.left input.old input.new)
        (HasPut K.puts K.faults out.old out.new) (HasBroken K.puts K.faults out.old out.new) result }
{
    let Some(asked) = read_words(words) else {
        return Report::fixed(Status::Usage, "usage: eft cards|run|deck|listing|mill\n");
    };
    match report_of(alloc, asked, library, input, out) {
        Ok(report) => report,
        Err(Memory) => Report::fixed(Status::Memory, "out of memory\n"),
    }
}

fn report_of<L: Library, S: Source, K: Sink>(
    alloc: Global,
    asked: Asked<'_>,
    library: &mut L,
    input: &mut S,
    out: &mut K,
) -> Result<Report, Memory>
    ensures becomes { L.becomes library.old library.new }
    ensures input { HasRead (S.left input.old) (S.left input.new) }
    ensures unread { IfOk result (λ report. NeedsNoInput report.status → input.new ≡ input.old) }
    ensures untouched { OnErr result (input.new ≡ input.old) }
    ensures unput { OnErr result (out.new ≡ out.old) }
    ensures unasked { (language : Dialect) (file : List ℕ) → asked_command asked.entry ≡ Cards language file → input.new ≡ input.old }
    ensures unlisted { (language : Dialect) (file : List ℕ) → asked_command asked.entry ≡ Listing language file → input.new ≡ input.old }
    ensures all_read { IfOk result (λ report. report.status ≢ InputFault → S.faults input.new ≡ S.faults input.old) }
    ensures came { IfOk result (CameOf (asked_command asked.entry) (L.files library.old) (L.faults library.old) (L.faults library.new) (HasGiven S.left S.faults input.old input.new) (HasGot S.left input.old input.new)
        (HasPut K.puts K.faults out.old out.new) (HasBroken K.puts K.faults out.old out.new)) }
{
    match asked {
        Asked::Run(limit, count, language, file) => {
            run_file(alloc, limit, count, language, file, library, input, out)
        }
        Asked::Cards(language, file) => print_file(alloc, language, file, library, out),
        Asked::Listing(language, file) => list_file(alloc, language, file, library, out),
        Asked::Deck(limit, file) => run_deck(alloc, limit, file, library, input, out),
    }
}

/// Translates and runs the text in a file.
fn run_file<L: Library, S: Source, K: Sink>(
    alloc: Global,
    limit: u64,
    count: bool,
    language: Dialect,
    file: &str,
    library: &mut L,
    input: &mut S,
    out: &mut K,
) -> Result<Report, Memory>
    ensures becomes { L.becomes library.old library.new }
    ensures input { HasRead (S.left input.old) (S.left input.new) }
    ensures unread { IfOk result (λ report. NeedsNoInput report.status → input.new ≡ input.old) }
    ensures untouched { OnErr result (input.new ≡ input.old) }
    ensures unput { OnErr result (out.new ≡ out.old) }
    ensures all_read { IfOk result (λ report. report.status ≢ InputFault → S.faults input.new ≡ S.faults input.old) }
    ensures came { IfOk result (CameOf (Run limit count language file.now) (L.files library.old) (L.faults library.old) (L.faults library.new) (HasGiven S.left S.faults input.old input.new) (HasGot S.left input.old input.new)
        (HasPut K.puts K.faults out.old out.new) (HasBroken K.puts K.faults out.old out.new)) }
{
    match translate_text(alloc, language, file, library) {
        Ok(Translated { made, files }) => {
            run(
                alloc,
                limit,
                count,
                &made.units,
                made.finish,
                files,
                input,
                out,
            )
        }
        Err(refusal) => refused(refusal),
    }
}

/// Reads the deck in a file, and runs it.
fn run_deck<L: Library, S: Source, K: Sink>(
    alloc: Global,
    limit: u64,
    file: &str,
    library: &mut L,
    input: &mut S,
    out: &mut K,
) -> Result<Report, Memory>
    ensures becomes { L.becomes library.old library.new }
    ensures input { HasRead (S.left input.old) (S.left input.new) }
    ensures unread { IfOk result (λ report. NeedsNoInput report.status → input.new ≡ input.old) }
    ensures untouched { OnErr result (input.new ≡ input.old) }
    ensures unput { OnErr result (out.new ≡ out.old) }
    ensures all_read { IfOk result (λ report. report.status ≢ InputFault → S.faults input.new ≡ S.faults input.old) }
    ensures came { IfOk result (CameOf (Deck limit file.now) (L.files library.old) (L.faults library.old) (L.faults library.new) (HasGiven S.left S.faults input.old input.new) (HasGot S.left input.old input.new)
        (HasPut K.puts K.faults out.old out.new) (HasBroken K.puts K.faults out.old out.new)) }
{
    let files = only_file(alloc, file)?;
    match load_deck(alloc, file, library) {
        Ok(deck) => run(
            alloc,
            limit,
            false,
            &deck.units,
            deck.finish,
            files,
            input,
            out,
        ),
        Err(refusal) => refused(refusal),
    }
}

/// The names of the files of a deck: its own.
fn only_file(alloc: Global, file: &str) -> Result<List<Text>, AllocError>
    ensures { IfOk result (λ files. files.items ≡ file.now ∷ []) }
{
    let name = Text::from_slice(alloc, file.as_bytes())?;
    let mut files = Vec::new(alloc);
    files.push(name)?;
    Ok(files)
}

/// Translates the text in a file, and puts its deck.
fn print_file<L: Library, K: Sink>(
    alloc: Global,
    language: Dialect,
    file: &str,
    library: &mut L,
    out: &mut K,
) -> Result<Report, Memory>
    ensures becomes { L.becomes library.old library.new }
    ensures unput { OnErr result (out.new ≡ out.old) }
    ensures came { IfOk result (CameOf (Cards language file.now) (L.files library.old) (L.faults library.old) (L.faults library.new) is_unread is_unread
        (HasPut K.puts K.faults out.old out.new) (HasBroken K.puts K.faults out.old out.new)) }
{
    match translate_text(alloc, language, file, library) {
        Ok(translated) => print_units(alloc, &translated.made.units, out),
        Err(refusal) => refused(refusal),
    }
}

fn print_units<K: Sink>(alloc: Global, units: &List<Unit>, out: &mut K) -> Result<Report, Memory>
    requires sound { All IsSoundUnit (map routine_of units.now.items) }
    requires printable { All IsPrintable (map routine_of units.now.items) }
    ensures unput { OnErr result (out.new ≡ out.old) }
    ensures prints { IfOk result (Prints (deck_of (map routine_of units.now.items)) (HasPut K.puts K.faults out.old out.new) (HasBroken K.puts K.faults out.old out.new)) }
{
    let mut deck = Vec::new(alloc);
    match write_deck(units, &mut deck) {
        Ok(()) => Ok(print(&deck, out)),
        Err(Refusal::Memory) => Err(Memory),
        Err(Refusal::Fault(_)) => unreachable!(),
    }
}

/// Translates the text in a file, and puts the listing of its stack code.
fn list_file<L: Library, K: Sink>(
    alloc: Global,
    language: Dialect,
    file: &str,
    library: &mut L,
    out: &mut K,
) -> Result<Report, Memory>
    ensures becomes { L.becomes library.old library.new }
    ensures unput { OnErr result (out.new ≡ out.old) }
    ensures came { IfOk result (CameOf (Listing language file.now) (L.files library.old) (L.faults library.old) (L.faults library.new) is_unread is_unread
        (HasPut K.puts K.faults out.old out.new) (HasBroken K.puts K.faults out.old out.new)) }
{
    match translate_text(alloc, language, file, library) {
        Ok(translated) => { list_units(alloc, &translated.made.units, translated.made.finish, out) }
        Err(refusal) => refused(refusal),
    }
}

fn list_units<K: Sink>(
    alloc: Global,
    units: &List<Unit>,
    finish: Place,
    out: &mut K,
) -> Result<Report, Memory>
    requires { IsSoundProgram (program_of units.now.items finish) }
    ensures unput { OnErr result (out.new ≡ out.old) }
    ensures prints { IfOk result (λ report. (text : List ℕ) × IsListingOf (program_of units.now.items finish) text
        × Prints text (HasPut K.puts K.faults out.old out.new) (HasBroken K.puts K.faults out.old out.new) report) }
{
    let text = listing(alloc, units, finish)?;
    Ok(print(&text, out))
}

/// Puts a text.
fn print<K: Sink>(text: &[u8], out: &mut K) -> Report
    ensures { Prints text.now (HasPut K.puts K.faults out.old out.new) (HasBroken K.puts K.faults out.old out.new) result }
{
    match put_all(out, text) {
        Ok(()) => Report::fixed(Status::Done, ""),
        Err(Failed) => Report::fixed(Status::OutputFault, "output fault\n"),
    }
}

fn refused(refusal: TextRefusal) -> Result<Report, Memory>
    ensures { IfOk result (ReportsRefusal refusal) }
{
    match refusal {
        TextRefusal::Fault(fault, name) => Ok(Report::of_fault(fault, name)),
        TextRefusal::Library => Ok(Report::fixed(Status::LibraryFault, "library fault\n")),
        TextRefusal::Memory => Err(Memory),
    }
}

/// Runs linked units over the input. All memory is taken before the run begins.
fn run<S: Source, K: Sink>(
    alloc: Global,
    limit: u64,
    count: bool,
    units: &List<Unit>,
    finish: Place,
    files: List<Text>,
    input: &mut S,
    out: &mut K,
) -> Result<Report, Memory>
    requires { IsSoundProgram (program_of units.now.items finish) }
    ensures read { HasRead (S.left input.old) (S.left input.new) }
    ensures needs { IfOk result (λ report. NeedsNoInput report.status → ⊥) }
    ensures untouched { OnErr result (input.new ≡ input.old) }
    ensures unput { OnErr result (out.new ≡ out.old) }
    ensures all_read { IfOk result (λ report. report.status ≢ InputFault → S.faults input.new ≡ S.faults input.old) }
    ensures shows { IfOk result (Shows (RunsOver files.items (IsUnitsRun (program_of units.now.items finish) limit) limit count) (HasGiven S.left S.faults input.old input.new) (HasGot S.left input.old input.new)
        (HasPut K.puts K.faults out.old out.new) (HasBroken K.puts K.faults out.old out.new)) }
{
    // A run of a loaded runner is one of its units.
    loaded_runs::<S, K>();
    let mut runner = load(alloc, units, finish, limit)?;
    let end = runner.run(input, out);
    let counts = counts_of(count, &runner);
    Ok(Report::of_end(end, limit, files, counts))
}

/// The counts of a run, where they are asked for.
fn counts_of(count: bool, runner: &Runner) -> Option<Counts>
    ensures { counts_bytes result ≡ count_line (if_asked count runner.now.executed) runner.now.begun }
{
    if count {
        Some(Counts {
            begun: runner.begun(),
            executed: runner.executed(),
        })
    } else {
        None
    }
}
