// The files of a text, as a library gives them.
ghost use Rattle.std.specs.Prelude.{◌≡◌, ◌≤◌, Some, false, length, IfOk, OnOk, map};
ghost use Rattle.std.specs.Str.{bytes_eq};
ghost use Rattle.indexmap.specs.IndexSet.{insert_key};
ghost use Rattle.ground.specs.declared.fault.Refusal.TheVariants.{Fault as Faulty};
ghost use Rattle.macro_define.specs.Answers.{Answers, Through};
ghost use Rattle.macro_define.specs.Expansion.{fetched_file, file_number as file_number_of, in_file, with_text};
ghost use Rattle.macro_define.specs.Gathered.{Asks, Fetches, HasCause, IsInFile, IsNoFault, IsUnasked, world};

use crate::gathering::Gathering;
use crate::refusal::TextRefusal;
use ground::{Fault, FaultKind, Place, Refusal, Text};
use indexmap::IndexSet;
use ports::{FetchFault, Library};
use std::alloc::{AllocError, Global};
use std::str;

/// The numbers of the limits on bytes and on the characters of a name.
const BYTE_LIMIT_NUMBER: u64 = 1;

const TEXT_LIMIT_NUMBER: u64 = 11;

/// The text under this name, which is counted. A fault has the place where the file is wanted: 6 IncludeMissing,
/// 7 IncludeDepth, or 30 Limit with the number 1 or 11.
pub fn fetch_file<L: Library>(
    alloc: Global,
    library: &mut L,
    place: Place,
    too_deep: bool,
    too_long: bool,
    includer: &[u8],
    name: &[u8],
    gathering: &mut Gathering,
) -> Result<Vec<u8>, TextRefusal>
    ensures text { Through (L.files library.old) (λ names. L.fetches library.old names library.new) (λ before after.
        Fetches (fetched_file place too_deep too_long includer.now name.now (world gathering.old before)) result (world gathering.new after)) }
    ensures room { OnOk result (gathering.new.room ≤ gathering.old.room) }
    ensures fits { IfOk result (λ text. length text.items ≤ gathering.old.room) }
    ensures shallow { OnOk result (too_deep ≡ false) }
    ensures same { L.files library.new ≡ L.files library.old }
    ensures becomes { L.becomes library.old library.new }
    ensures cause { HasCause (L.faults library.old) (L.faults library.new) result }
{
    match ask(alloc, library, name)? {
        Some(text) => count_file(
            alloc, place, too_deep, too_long, includer, name, text, gathering,
        ),
        None => Err(fault_in(
            alloc,
            includer,
            Fault::new(place, FaultKind::IncludeMissing),
        )),
    }
}

/// What the library holds under a name.
fn ask<L: Library>(
    alloc: Global,
    library: &mut L,
    name: &[u8],
) -> Result<Option<Vec<u8>>, TextRefusal>
    ensures text { Through (L.files library.old) (λ names. L.fetches library.old names library.new) (λ before after. Asks name.now result before after) }
    ensures faultless { IsNoFault result }
    ensures same { L.files library.new ≡ L.files library.old }
    ensures becomes { L.becomes library.old library.new }
    ensures cause { HasCause (L.faults library.old) (L.faults library.new) result }
{
    if name.is_empty() {
        return Ok(None);
    }
    match str::from_utf8(name) {
        Ok(name) => match library.fetch(alloc, name) {
            Ok(got) => Ok(got),
            Err(FetchFault::Failed) => Err(TextRefusal::Library),
            Err(FetchFault::Memory) => Err(TextRefusal::Memory),
        },
        Err(_) => Ok(None),
    }
}

/// Counts a file that was fetched, and gives its text back.
fn count_file(
    alloc: Global,
    place: Place,
    too_deep: bool,
    too_long: bool,
    includer: &[u8],
    name: &[u8],
    text: Vec<u8>,
    gathering: &mut Gathering,
) -> Result<Vec<u8>, TextRefusal>
    ensures text { (a : Answers) → Fetches (in_file includer.now a (with_text place too_deep too_long name.now (world gathering.old a) (Some text.items)))
        result (world gathering.new a) }
    ensures room { OnOk result (gathering.new.room ≤ gathering.old.room) }
    ensures fits { IfOk result (λ text. length text.items ≤ gathering.old.room) }
    ensures shallow { OnOk result (too_deep ≡ false) }
    ensures unasked { IsUnasked result }
{
    let fault = if too_deep {
        Fault::new(place, FaultKind::IncludeDepth)
    } else if gathering.room < text.len() {
        Fault::limit(place, BYTE_LIMIT_NUMBER)
    } else if too_long {
        Fault::limit(place, TEXT_LIMIT_NUMBER)
    } else {
        note_file(alloc, &mut gathering.files, name)?;
        gathering.room -= text.len();
        return Ok(text);
    };
    Err(fault_in(alloc, includer, fault))
}

/// Gives a file a number, if it has none.
fn note_file(alloc: Global, files: &mut IndexSet<Vec<u8>>, name: &[u8]) -> Result<(), AllocError>
    ensures { OnOk result (map (λ k. k.items) files.new.keys ≡ insert_key bytes_eq (map (λ k. k.items) files.old.keys) name.now) }
{
    files.insert_full(Vec::from_slice(alloc, name)?)?;
    Ok(())
}

/// The number of the file of this name: that of its first use, at most 65,535.
pub fn file_number(files: &IndexSet<Vec<u8>>, name: &[u8]) -> u16
    ensures { result ≡ file_number_of (map (λ k. k.items) files.now.keys) name.now }
{
    match files.get_index_of(name) {
        Some(number) => number.min(65535) as u16,
        None => 65535,
    }
}

/// A fault in the file of this name.
pub fn fault_in(alloc: Global, name: &[u8], fault: Fault) -> TextRefusal
    ensures { IsInFile name.now (Faulty fault) result }
{
    match Text::from_slice(alloc, name) {
        Ok(name) => TextRefusal::Fault(fault, name),
        Err(_) => TextRefusal::Memory,
    }
}

/// A refusal in the file of this name.
pub fn refusal_in(alloc: Global, name: &[u8], refusal: Refusal) -> TextRefusal
    ensures { IsInFile name.now refusal result }
{
    match refusal {
        Refusal::Fault(fault) => fault_in(alloc, name, fault),
        Refusal::Memory => TextRefusal::Memory,
    }
}
