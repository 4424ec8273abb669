// The defines of a text.
ghost use Rattle.std.specs.Prelude.{◌≡◌, ◌==◌, ◌&&◌, ◌≤◌, ◌<◌, ◌^◌, ◌+◌, ⊤, [], ◌∷◌, ◌++◌, false, length, IfOk, IfSome, MatchOption, OnOk};
ghost use Rattle.std.specs.Option.{option_map};
ghost use Rattle.free_scan.specs.Tokens.{open_after as open_after_of};
ghost use Rattle.ground.specs.Faults.{fault_at};
ghost use Rattle.ground.specs.declared.fault.FaultKind.TheVariants.{BadDefine};
ghost use Rattle.ground.specs.declared.fault.Refusal.TheVariants.{Fault as Faulty};
ghost use Rattle.macro_define.specs.Made.{Came};
ghost use Rattle.macro_define.specs.Uses.{table};
ghost use Rattle.macro_define.specs.Defines.{define_of, enclosed_define as enclosed_define_of, enclosed_text as enclosed_text_of, ends_line as ends_line_of, ends_text as ends_text_of, first_word as first_word_of, is_close as is_close_of, is_comma as is_comma_of, is_full as is_full_of, is_open as is_open_of, is_reserved as is_reserved_of, line_define as line_define_of, line_text as line_text_of, named_define, name_in, with_macro, word_begins as word_begins_of};
ghost use Rattle.macro_define.specs.Ends.{IsEnd, IsAtEnd};

use crate::macros::{Macros, key, number_of};
use free_scan::Scanner;
use ground::{Dialect, Fault, FaultKind, Place, Refusal, Sign, Token, TokenKind, is_spelled};
use std::alloc::{AllocError, Global};

/// The number of macros that a text may have.
const MACRO_LIMIT: usize = 4096;
/// The number of that limit.
const MACRO_LIMIT_NUMBER: u64 = 4;

/// What the first token of a line begins.
#[derive(Clone, Copy, Debug)]
pub enum FirstWord {
    Define,
    Include,
    Other,
}

/// The text of a define in parentheses, or how it lacks its end.
#[derive(Drop)]
pub enum Enclosed {
    Closed(Vec<TokenKind>),
    /// The line ends before.
    Broken,
    /// The tokens stop before, at a fault.
    CutOff,
}

/// What a token begins, where it stands at the beginning of a line that continues no other, or elsewhere.
pub fn first_word(begins: bool, kind: &TokenKind) -> FirstWord
    ensures { result ≡ first_word_of begins kind.now }
{
    match kind {
        TokenKind::Word(name) if begins => word_begins(name.as_bytes()),
        _ => FirstWord::Other,
    }
}

fn word_begins(name: &[u8]) -> FirstWord
    ensures { result ≡ word_begins_of name.now }
{
    if is_spelled(b"define", name) {
        FirstWord::Define
    } else if is_spelled(b"include", name) {
        FirstWord::Include
    } else {
        FirstWord::Other
    }
}

fn is_reserved(name: &[u8]) -> bool
    ensures { result ≡ is_reserved_of name.now }
{
    is_spelled(b"define", name) || is_spelled(b"include", name)
}

/// Takes what stands behind the word `define` at this place, and keeps the macro: `define name text` to the end of the
/// line, or `define(name, text)` to the matching parenthesis (Kernighan's paper; Feldman's).
pub fn define(
    alloc: Global,
    dialect: Dialect,
    place: Place,
    macros: &mut Macros,
    tokens: &mut Scanner<'_>,
) -> Result<(), Refusal>
    ensures made { Came (define_of dialect place (table macros.old) tokens.old.tokens) result (tokens.new.tokens, table macros.new) }
    ensures fewer { OnOk result (length tokens.new.tokens ≤ length tokens.old.tokens) }
    ensures fault { OnOk result (tokens.new.fault ≡ tokens.old.fault) }
{
    match tokens.next()? {
        None => Ok(()),
        Some(first) if is_open(&first.kind) => match tokens.next()? {
            None => Ok(()),
            Some(name) => define_named(alloc, dialect, place, true, name, macros, tokens),
        },
        Some(name) => define_named(alloc, dialect, place, false, name, macros, tokens),
    }
}

/// Takes what stands behind the name, which this token must be.
fn define_named(
    alloc: Global,
    dialect: Dialect,
    place: Place,
    enclosed: bool,
    token: Token,
    macros: &mut Macros,
    tokens: &mut Scanner<'_>,
) -> Result<(), Refusal>
    ensures made { Came (named_define dialect place enclosed (table macros.old) token.place (name_in token.kind) tokens.old.tokens) result (tokens.new.tokens, table macros.new) }
    ensures fewer { OnOk result (length tokens.new.tokens ≤ length tokens.old.tokens) }
    ensures fault { OnOk result (tokens.new.fault ≡ tokens.old.fault) }
{
    let Token { kind, place: at } = token;
    let TokenKind::Word(name) = kind else {
        return Err(bad_define(place));
    };
    if is_reserved(name.as_bytes()) {
        return Err(bad_define(place));
    }
    let name = key(alloc, dialect, name.as_bytes())?;
    if is_full(macros, &name) {
        return Err(Refusal::Fault(Fault::limit(at, MACRO_LIMIT_NUMBER)));
    }
    if enclosed {
        define_enclosed(alloc, place, name, macros, tokens)
    } else {
        define_line(alloc, name, macros, tokens)
    }
}

fn is_full(macros: &Macros, name: &[u8]) -> bool
    ensures { result ≡ is_full_of (table macros.now) name.now }
{
    macros.len() >= MACRO_LIMIT && number_of(macros, name).is_none()
}

/// Takes the comma, the text and the parenthesis behind it, and keeps the macro.
fn define_enclosed(
    alloc: Global,
    place: Place,
    name: Vec<u8>,
    macros: &mut Macros,
    tokens: &mut Scanner<'_>,
) -> Result<(), Refusal>
    ensures made { Came (enclosed_define_of place (table macros.old) name.items tokens.old.tokens) result (tokens.new.tokens, table macros.new) }
    ensures fewer { OnOk result (length tokens.new.tokens ≤ length tokens.old.tokens) }
    ensures fault { OnOk result (tokens.new.fault ≡ tokens.old.fault) }
{
    match tokens.next()? {
        None => Ok(()),
        Some(comma) if is_comma(&comma.kind) => match enclosed_text(alloc, tokens)? {
            Enclosed::Closed(text) => Ok(keep(macros, name, text)?),
            Enclosed::Broken => Err(bad_define(place)),
            Enclosed::CutOff => Ok(()),
        },
        Some(_) => Err(bad_define(place)),
    }
}

/// Takes the text up to the parenthesis that closes the define.
fn enclosed_text(alloc: Global, tokens: &mut Scanner<'_>) -> Result<Enclosed, AllocError>
    ensures end { IfOk result (λ end. IsEnd (enclosed_text_of 0 [] tokens.old.tokens) end tokens.new.tokens) }
    ensures fewer { OnOk result (length tokens.new.tokens ≤ length tokens.old.tokens) }
    ensures fault { OnOk result (tokens.new.fault ≡ tokens.old.fault) }
{
    let mut text = Vec::new(alloc);
    let mut opened = 0usize;
    while let Some(token) = tokens.next()? {
        if ends_text(&token.kind) {
            return Ok(Enclosed::Broken);
        }
        if is_close(&token.kind) && opened == 0 {
            return Ok(Enclosed::Closed(text));
        }
        opened = open_after(opened, &token.kind);
        text.push(token.kind)?;
    }
    Ok(Enclosed::CutOff)
}

/// How many parentheses are open after a token.
fn open_after(opened: usize, kind: &TokenKind) -> usize
    requires { opened + 1 < 2 ^ 64 }
    ensures value { result ≡ open_after_of opened kind.now }
    ensures few { result ≤ opened + 1 }
{
    match kind {
        TokenKind::Sign(Sign::Open) => opened + 1,
        TokenKind::Sign(Sign::Close) => opened.saturating_sub(1),
        _ => opened,
    }
}

/// Takes the text up to the end of the line, and keeps the macro.
fn define_line(
    alloc: Global,
    name: Vec<u8>,
    macros: &mut Macros,
    tokens: &mut Scanner<'_>,
) -> Result<(), Refusal>
    ensures made { Came (line_define_of (table macros.old) name.items tokens.old.tokens) result (tokens.new.tokens, table macros.new) }
    ensures fewer { OnOk result (length tokens.new.tokens ≤ length tokens.old.tokens) }
    ensures fault { OnOk result (tokens.new.fault ≡ tokens.old.fault) }
{
    let text = line_text(alloc, tokens)?;
    keep(macros, name, text)?;
    Ok(())
}

/// Takes the text up to the end of the line.
fn line_text(alloc: Global, tokens: &mut Scanner<'_>) -> Result<Vec<TokenKind>, AllocError>
    ensures text { IfOk result (λ text. line_text_of [] tokens.old.tokens ≡ (text.items, tokens.new.tokens)) }
    ensures fewer { OnOk result (length tokens.new.tokens ≤ length tokens.old.tokens) }
    ensures fault { OnOk result (tokens.new.fault ≡ tokens.old.fault) }
{
    let mut text = Vec::new(alloc);
    while let Some(token) = next_in_line(tokens)? {
        text.push(token.kind)?;
    }
    Ok(text)
}

/// Takes the next token, if it stands before the end of the line.
fn next_in_line(tokens: &mut Scanner<'_>) -> Result<Option<Token>, AllocError>
    ensures token { IfOk result (λ next. MatchOption next ((tokens.new.tokens ≡ tokens.old.tokens) × IsAtEnd tokens.old.tokens)
        (λ token. (tokens.old.tokens ≡ token ∷ tokens.new.tokens) × (ends_text_of token.kind ≡ false))) }
    ensures fewer { OnOk result (length tokens.new.tokens ≤ length tokens.old.tokens) }
    ensures fault { OnOk result (tokens.new.fault ≡ tokens.old.fault) }
{
    let Some(next) = tokens.next()? else {
        return Ok(None);
    };
    if ends_text(&next.kind) {
        tokens.put_back(next)?;
        return Ok(None);
    }
    Ok(Some(next))
}

/// Keeps a macro.
fn keep(macros: &mut Macros, name: Vec<u8>, text: Vec<TokenKind>) -> Result<(), AllocError>
    ensures { OnOk result (table macros.new ≡ with_macro (table macros.old) name.items text.items) }
{
    macros.insert(name, text)?;
    Ok(())
}

/// Whether a token ends its line.
pub fn ends_line(kind: &TokenKind) -> bool
    ensures { result ≡ ends_line_of kind.now }
{
    matches!(kind, TokenKind::LineEnd)
}

fn is_open(kind: &TokenKind) -> bool
    ensures { result ≡ is_open_of kind.now }
{
    matches!(kind, TokenKind::Sign(Sign::Open))
}

fn is_comma(kind: &TokenKind) -> bool
    ensures { result ≡ is_comma_of kind.now }
{
    matches!(kind, TokenKind::Sign(Sign::Comma))
}

fn is_close(kind: &TokenKind) -> bool
    ensures { result ≡ is_close_of kind.now }
{
    matches!(kind, TokenKind::Sign(Sign::Close))
}

fn ends_text(kind: &TokenKind) -> bool
    ensures { result ≡ ends_text_of kind.now }
{
    matches!(kind, TokenKind::LineEnd | TokenKind::TextEnd)
}

fn bad_define(place: Place) -> Refusal
    ensures { result ≡ Faulty (fault_at place BadDefine) }
{
    Refusal::Fault(Fault::new(place, FaultKind::BadDefine))
}
