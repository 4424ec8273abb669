// Lines whose tokens stand for themselves, which are most of them.
ghost use Rattle.std.specs.Prelude.{◌≡◌, ◌≤◌, ◌<◌, [], false, length, IfOk, IsTrue, None, OnOk};
ghost use Rattle.ground.specs.declared.token.TokenKind.TheVariants.{Word};
ghost use Rattle.macro_define.specs.Expansion.{is_text_end as is_text_end_of};
ghost use Rattle.macro_define.specs.Macros.{macro_of};
ghost use Rattle.macro_define.specs.Made.{made};
ghost use Rattle.macro_define.specs.Plain.{ArePassed, ArePlain, IsPlain, begins_behind};
ghost use Rattle.macro_define.specs.Uses.{table};

use crate::defines::{FirstWord, ends_line, first_word};
use crate::macros::{Macros, number_of};
use crate::output::Output;
use free_scan::Scanner;
use ground::{Dialect, Token, TokenKind};
use std::alloc::AllocError;

/// Adds the tokens of such lines as follow one another, which a list takes line by line. Whether a line begins behind them.
pub(crate) fn add_plain_lines(
    dialect: Dialect,
    macros: &Macros,
    begins: bool,
    tokens: &mut Scanner<'_>,
    line: &mut Vec<Token>,
    output: &mut Output,
) -> Result<bool, AllocError>
    requires { line.old.items ≡ [] }
    ensures passed { IfOk result (ArePassed dialect (table macros.now) begins tokens.old.tokens tokens.new.tokens (made output.old) (made output.new)) }
    ensures fault { OnOk result (tokens.new.fault ≡ tokens.old.fault) }
    ensures none { OnOk result (line.new.items ≡ []) }
{
    let mut later = begins;
    tokens.take_line(line)?;
    while are_plain(dialect, macros, later, line, output.left) {
        later = is_line_next(later, line);
        output.put_all(line)?;
        tokens.take_line(line)?;
    }
    tokens.put_line(line)?;
    Ok(later)
}

/// Whether there are tokens, no more than so many, and all stand for themselves.
fn are_plain(dialect: Dialect, macros: &Macros, begins: bool, line: &[Token], most: usize) -> bool
    ensures plain { IsTrue result → ArePlain dialect (table macros.now) begins line.now }
    ensures some { IsTrue result → 0 < length line.now }
    ensures few { IsTrue result → length line.now ≤ most }
{
    if line.is_empty() || line.len() > most {
        return false;
    }
    let mut here = begins;
    for token in line {
        if !is_plain(dialect, macros, here, &token.kind) {
            return false;
        }
        here = ends_line(&token.kind);
    }
    true
}

fn is_plain(dialect: Dialect, macros: &Macros, begins: bool, kind: &TokenKind) -> bool
    ensures { IsTrue result → IsPlain dialect (table macros.now) begins kind.now }
{
    match first_word(begins, kind) {
        FirstWord::Other => !is_text_end(kind) && !may_name_macro(dialect, macros, kind),
        FirstWord::Define | FirstWord::Include => false,
    }
}

/// Whether a token ends the text.
pub(crate) fn is_text_end(kind: &TokenKind) -> bool
    ensures { result ≡ is_text_end_of kind.now }
{
    matches!(kind, TokenKind::TextEnd)
}

/// Whether a token may name a macro. A name of EFL is not looked up here, since that takes memory.
pub(crate) fn may_name_macro(dialect: Dialect, macros: &Macros, kind: &TokenKind) -> bool
    ensures { result ≡ false → macro_of dialect (table macros.now) kind.now ≡ None }
{
    match kind {
        TokenKind::Word(name) => !macros.is_empty()
            && may_be_named(dialect, macros, name.as_bytes()),
        _ => false,
    }
}

fn may_be_named(dialect: Dialect, macros: &Macros, name: &[u8]) -> bool
    ensures { result ≡ false → macro_of dialect (table macros.now) (Word name.now) ≡ None }
{
    match dialect {
        Dialect::Ratfor => number_of(macros, name).is_some(),
        Dialect::Efl => true,
    }
}

/// Whether a line begins behind tokens.
fn is_line_next(begins: bool, line: &[Token]) -> bool
    ensures { result ≡ begins_behind begins line.now }
{
    match line {
        [] => begins,
        [.., last] => ends_line(&last.kind),
    }
}
