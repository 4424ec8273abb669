// A text with its macros and includes.
ghost use Rattle.std.specs.Prelude.{◌≡◌, IfOk, Ok, map};
ghost use Rattle.macro_define.specs.Answers.{Through};
ghost use Rattle.macro_define.specs.Expansion.{text_made};
ghost use Rattle.macro_define.specs.Gathered.{Gathers, HasCause, world};
ghost use Rattle.macro_define.specs.GatherAnswers.{EndsText, IsGathered};

use crate::fetches::fetch_file;
use crate::files::add_file;
use crate::gathering::Gathering;
use crate::refusal::TextRefusal;
use ground::{Dialect, List, Place, Text, Token};
use indexmap::IndexSet;
use ports::Library;
use std::alloc::{AllocError, Global};

/// How deep includes may be nested.
const DEPTH_LIMIT: usize = 10;

/// A text's tokens, and the different names of its files: a place's file has its number in this list, from the 65,536th
/// on 65,535.
#[derive(Debug, Drop)]
pub struct Gathered {
    pub tokens: List<Token>,
    pub files: List<Text>,
}

/// The tokens of the text under this name, with its macros replaced and its includes in their places, or its first fault:
/// 1 to 8, or 30 Limit with the number 1, 2, 4 or 11. The rules are those of Kernighan's paper on Ratfor and of
/// Feldman's on EFL, as docs/TEXT.md states them.
pub fn gather<L: Library>(
    alloc: Global,
    dialect: Dialect,
    name: &str,
    library: &mut L,
) -> Result<Gathered, TextRefusal>
    ensures text { IsGathered (L.files library.old) (λ names. L.fetches library.old names library.new) dialect name.now result }
    ensures ended { IfOk result (λ all. EndsText all.tokens.items) }
    ensures same { L.files library.new ≡ L.files library.old }
    ensures becomes { L.becomes library.old library.new }
    ensures cause { HasCause (L.faults library.old) (L.faults library.new) result }
{
    let name = name.as_bytes();
    let mut gathering = Gathering::new(alloc);
    add_text(alloc, dialect, library, DEPTH_LIMIT, name, &mut gathering)?;
    let Gathering { output, files, .. } = gathering;
    let files = texts(alloc, files)?;
    Ok(Gathered {
        tokens: output.tokens,
        files,
    })
}

/// Adds the tokens of the text under this name, where so many files may be nested.
fn add_text<L: Library>(
    alloc: Global,
    dialect: Dialect,
    library: &mut L,
    depth: usize,
    name: &[u8],
    gathering: &mut Gathering,
) -> Result<(), TextRefusal>
    requires { gathering.old.room ≡ 4194304 }
    ensures made { Through (L.files library.old) (λ names. L.fetches library.old names library.new) (λ before after.
        Gathers (text_made dialect depth name.now (world gathering.old before)) result (Ok (world gathering.new after)) after) }
    ensures same { L.files library.new ≡ L.files library.old }
    ensures becomes { L.becomes library.old library.new }
    ensures cause { HasCause (L.faults library.old) (L.faults library.new) result }
{
    let start = Place { file: 0, line: 0 };
    let text = fetch_file(alloc, library, start, false, false, name, name, gathering)?;
    add_file(alloc, dialect, library, depth, true, name, &text, gathering)
}

fn texts(alloc: Global, names: IndexSet<Vec<u8>>) -> Result<List<Text>, AllocError>
    ensures { IfOk result (λ all. all.items ≡ map (λ k. k.items) names.keys) }
{
    let names: Vec<Vec<u8>> = names.into_iter().collect(alloc)?;
    texts_of(alloc, &names)
}

fn texts_of(alloc: Global, names: &[Vec<u8>]) -> Result<List<Text>, AllocError>
    ensures { IfOk result (λ all. all.items ≡ map (λ k. k.items) names.now) }
{
    let mut texts = Vec::new(alloc);
    for name in names {
        let text = Text::from_slice(alloc, name)?;
        texts.push(text)?;
    }
    Ok(texts)
}
