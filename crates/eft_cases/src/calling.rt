// Calls of `eft` over objects in memory, and what they must show.

use crate::eft_in_memory;
use ports::{Library, MemLibrary, MemSink, MemSource, Sink, Source};
use std::alloc::{AllocError, Global};
use std::process::Abort;
use std::test::Fail;

/// Texts by their names, the first of which is run.
pub type Texts<'a> = &'a [(&'a str, &'a [u8])];

/// The pieces of an input, one for each read.
pub type Pieces<'a> = &'a [&'a [u8]];

/// Which fetch, put on out, put on diag and read fail; 0 is none.
pub type Failing = (u64, u64, u64, u64);

/// The exit code, and what out and diag have.
pub type Shown<'a> = (u8, &'a str, &'a str);

fn failing(alloc: Global, call: u64) -> Result<Vec<u64>, Fail> {
    let mut calls = Vec::new(alloc);
    if call != 0 {
        calls.push(call)?;
    }
    Ok(calls)
}

/// A library of these texts, of whose fetches one fails.
pub fn library_of(alloc: Global, texts: Texts<'_>, fetch: u64) -> Result<MemLibrary, Fail> {
    let mut names = Vec::new(alloc);
    for (name, text) in texts {
        names.push((String::from_str(alloc, name)?, text.to_vec(alloc)?))?;
    }
    Ok(MemLibrary::new(names, failing(alloc, fetch)?))
}

/// A source of these pieces, of whose reads one fails. A piece without bytes is left out.
#[tactic(auto, using(crate::proofs::PieceLemmas::full_more))]
pub fn source_of(alloc: Global, pieces: Pieces<'_>, read: u64) -> Result<MemSource, Fail> {
    let mut full = Vec::new(alloc);
    for piece in pieces {
        if !piece.is_empty() {
            full.push(piece.to_vec(alloc)?)?;
        }
    }
    Ok(MemSource::new(full, failing(alloc, read)?))
}

/// The words that run the first of these texts.
fn words_of(alloc: Global, texts: Texts<'_>) -> Result<Vec<String>, Fail> {
    let (name, _) = texts.first().ok_or("no text")?;
    let mut words = Vec::new(alloc);
    words.push(String::from_str(alloc, "run")?)?;
    words.push(String::from_str(alloc, "ratfor")?)?;
    words.push(String::from_str(alloc, name)?)?;
    Ok(words)
}

/// Bytes as characters.
pub fn shown(alloc: Global, bytes: &[u8]) -> Result<String, AllocError> {
    let mut shown = String::new(alloc);
    for byte in bytes {
        shown.push(*byte as char)?;
    }
    Ok(shown)
}

/// Whether the counts of faults rose exactly where an exit code tells one. A read that fails is wanted, and so it is told.
fn is_counted(
    code: u8,
    library: &MemLibrary,
    input: &MemSource,
    out: &MemSink,
    diag: &MemSink,
) -> bool {
    let fetched = library.faults() == 0;
    let read = input.faults() == 0;
    let put = out.faults() == 0 && diag.faults() == 0;
    match code {
        4 => !fetched && read && put,
        5 => fetched && !read && put,
        6 => !put,
        _ => fetched && read && put,
    }
}

/// A run of the first of these texts, with so much room on out, shows what is wanted.
pub fn expect(
    rt: &impl Abort,
    alloc: Global,
    texts: Texts<'_>,
    pieces: Pieces<'_>,
    failures: Failing,
    room: usize,
    wanted: Shown<'_>,
) -> Result<(), Fail> {
    let (fetch, put, line, read) = failures;
    let words = words_of(alloc, texts)?;
    let mut library = library_of(alloc, texts, fetch)?;
    let mut input = source_of(alloc, pieces, read)?;
    let mut out = MemSink::new(alloc, room, failing(alloc, put)?).map_err(|_| "want of memory")?;
    let mut diag = MemSink::new(alloc, 256, failing(alloc, line)?).map_err(|_| "want of memory")?;
    let status = eft_in_memory(alloc, &words, &mut library, &mut input, &mut out, &mut diag);
    let told = shown(alloc, diag.bytes())?;
    let records = shown(alloc, out.bytes())?;
    let (code, wanted_out, wanted_diag) = wanted;
    assert_eq!(rt; told.as_str(), wanted_diag);
    assert_eq!(rt; records.as_str(), wanted_out);
    assert_eq!(rt; status.code(), code);
    let counted = is_counted(code, &library, &input, &out, &diag);
    assert!(rt; counted);
    Ok(())
}

/// Runs of one text over inputs and with calls that fail show what is wanted.
pub fn expect_all(
    rt: &impl Abort,
    alloc: Global,
    texts: Texts<'_>,
    rows: &[(Pieces<'_>, Failing, Shown<'_>)],
) -> Result<(), Fail> {
    for (pieces, failures, wanted) in rows {
        expect(rt, alloc, texts, pieces, *failures, 4096, *wanted)?;
    }
    Ok(())
}
