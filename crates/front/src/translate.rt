// From a file to its units.
ghost use Rattle.std.specs.Prelude.{◌≡◌, ◌≤◌, length};
ghost use Rattle.std.specs.List.{All};
ghost use Rattle.gathered_tokens.specs.Written.{TokenIsWritten};
ghost use Rattle.macro_define.specs.Gathered.{HasCause};
ghost use Rattle.macro_define.specs.GatherAnswers.{EndsText};
ghost use Rattle.front.specs.Verdict.{IsChecked, file_name as name_of_file};
ghost use Rattle.front.specs.Translated.{Finds, IsNamed, IsTranslated};

use crate::{Made, efl, ratfor};
use gathered_tokens::{gathered_are_few, gathered_are_written};
use ground::{Dialect, List, Refusal, Text, Token};
use macro_define::{Gathered, TextRefusal, gather};
use ports::Library;
use std::alloc::Global;

/// A program as sound units of FORTRAN that link. A place's file has its number in the list of names.
#[derive(Drop)]
pub struct Translated {
    pub made: Made,
    pub files: List<Text>,
}

/// The units of the text under this name, with its includes, which do what the text means, or the text's first fault: of gather, of
/// the parse, of the checks unit by unit, or of linking (Kernighan, Ratfor: A Preprocessor for a Rational Fortran, 1975; Feldman,
/// The Programming Language EFL, 1979).
pub fn translate_text<L: Library>(
    alloc: Global,
    dialect: Dialect,
    name: &str,
    library: &mut L,
) -> Result<Translated, TextRefusal>
    ensures text { IsTranslated (L.files library.old) dialect name.now result }
    ensures same { L.files library.new ≡ L.files library.old }
    ensures becomes { L.becomes library.old library.new }
    ensures cause { HasCause (L.faults library.old) (L.faults library.new) result }
{
    let Gathered { tokens, files } = gather(alloc, dialect, name, library)?;
    gathered_are_few();
    gathered_are_written();
    match made_of(alloc, dialect, tokens) {
        Ok(made) => Ok(Translated { made, files }),
        Err(refusal) => Err(named(alloc, &files, refusal)),
    }
}

/// The units of a text with these tokens, or the text's fault.
fn made_of(alloc: Global, dialect: Dialect, tokens: List<Token>) -> Result<Made, Refusal>
    requires ends { EndsText tokens.items }
    requires written { All TokenIsWritten tokens.items }
    requires few { length tokens.items ≤ 200000 }
    ensures { Finds (IsChecked dialect tokens.items) result }
{
    match dialect {
        Dialect::Ratfor => ratfor::program_of(alloc, tokens),
        Dialect::Efl => efl::program_of(alloc, tokens),
    }
}

/// A refusal with the name of the file of its place.
fn named(alloc: Global, files: &[Text], refusal: Refusal) -> TextRefusal
    ensures { IsNamed files.now refusal result }
{
    match refusal {
        Refusal::Fault(fault) => match Text::from_slice(alloc, name_of(files, fault.place.file)) {
            Ok(name) => TextRefusal::Fault(fault, name),
            Err(_) => TextRefusal::Memory,
        },
        Refusal::Memory => TextRefusal::Memory,
    }
}

/// The name of the file that has this number in a list of names.
pub fn name_of(files: &[Text], number: u16) -> &[u8]
    ensures { result.now ≡ name_of_file files.now number }
{
    match files.get(usize::from(number)) {
        Some(name) => name.as_bytes(),
        None => b"",
    }
}
