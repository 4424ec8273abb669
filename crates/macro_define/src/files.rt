// The files of a text, token by token, each include in its place.
ghost use Rattle.std.specs.Prelude.{◌≡◌, ◌≤◌, ◌<◌, [], length, IfOk, OnOk, Ok};
ghost use Rattle.macro_define.specs.Answers.{Answers, Through};
ghost use Rattle.macro_define.specs.Expansion.{GatherState, behind_name, define_token, end_of, file_made, include_made, part, plain_token, quoted_next};
ghost use Rattle.macro_define.specs.Gathered.{Gathers, HasCause, IsUnasked, world};
ghost use Rattle.macro_define.specs.Plain.{HasPassed};

use crate::defines::{FirstWord, define, ends_line, first_word};
use crate::fetches::{fault_in, fetch_file, file_number, refusal_in};
use crate::gathering::Gathering;
use crate::macros::add_token;
use crate::plain::{add_plain_lines, is_text_end};
use crate::refusal::TextRefusal;
use free_scan::Scanner;
use ground::{Dialect, Fault, Place, Text, Token, TokenKind};
use ports::Library;
use std::alloc::{AllocError, Global};

/// The number of characters of a file's name in an include.
const LONGEST_NAME: usize = 255;

/// Adds the tokens of a file that an include at this place names, where so many more files may be nested.
#[cycle(files)]
fn add_include<L: Library>(
    alloc: Global,
    dialect: Dialect,
    library: &mut L,
    depth: usize,
    includer: &[u8],
    place: Place,
    name: &[u8],
    gathering: &mut Gathering,
) -> Result<(), TextRefusal>
    requires { gathering.old.room ≤ 4194304 }
    ensures made { Through (L.files library.old) (λ names. L.fetches library.old names library.new) (λ before after.
        Gathers (include_made dialect depth includer.now place name.now (world gathering.old before)) result (Ok (world gathering.new after)) after) }
    ensures room { OnOk result (gathering.new.room ≤ 4194304) }
    ensures same { L.files library.new ≡ L.files library.old }
    ensures becomes { L.becomes library.old library.new }
    ensures cause { HasCause (L.faults library.old) (L.faults library.new) result }
{
    let text = fetch_file(
        alloc,
        library,
        place,
        depth == 0,
        name.len() > LONGEST_NAME,
        includer,
        name,
        gathering,
    )?;
    add_file(
        alloc,
        dialect,
        library,
        depth - 1,
        false,
        name,
        &text,
        gathering,
    )
}

/// Adds the tokens of a file with this text, where so many more files may be nested in it.
#[cycle(files)]
pub fn add_file<L: Library>(
    alloc: Global,
    dialect: Dialect,
    library: &mut L,
    depth: usize,
    outermost: bool,
    name: &[u8],
    text: &[u8],
    gathering: &mut Gathering,
) -> Result<(), TextRefusal>
    requires short { length text.now ≤ 4194304 }
    requires room { gathering.old.room ≤ 4194304 }
    ensures made { Through (L.files library.old) (λ names. L.fetches library.old names library.new) (λ before after.
        Gathers (file_made dialect (include_made dialect depth name.now) outermost name.now text.now (world gathering.old before)) result (Ok (world gathering.new after)) after) }
    ensures room { OnOk result (gathering.new.room ≤ 4194304) }
    ensures same { L.files library.new ≡ L.files library.old }
    ensures becomes { L.becomes library.old library.new }
    ensures cause { HasCause (L.faults library.old) (L.faults library.new) result }
{
    let number = file_number(&gathering.files, name);
    let mut tokens = Scanner::new(alloc, dialect, text, number);
    let mut line = Vec::new(alloc);
    let mut begins = pass_plain_lines(dialect, true, &mut tokens, &mut line, gathering)?;
    while let Some(token) = tokens.next()? {
        let first = first_word(begins, &token.kind);
        let ended = ends_line(&token.kind);
        add_part(
            alloc,
            dialect,
            library,
            depth,
            outermost,
            name,
            first,
            token,
            &mut tokens,
            gathering,
        )?;
        begins = pass_plain_lines(dialect, ended, &mut tokens, &mut line, gathering)?;
    }
    let fault = tokens.fault()?;
    end_file(alloc, name, fault)
}

/// Adds the tokens of the lines up to the next one that has to be looked at token by token, where a line begins. Whether one begins
/// behind them.
fn pass_plain_lines(
    dialect: Dialect,
    begins: bool,
    tokens: &mut Scanner<'_>,
    line: &mut Vec<Token>,
    gathering: &mut Gathering,
) -> Result<bool, AllocError>
    requires { line.old.items ≡ [] }
    ensures passed { IfOk result (HasPassed dialect begins tokens.old.tokens tokens.new.tokens gathering.old gathering.new) }
    ensures fault { OnOk result (tokens.new.fault ≡ tokens.old.fault) }
    ensures none { OnOk result (line.new.items ≡ []) }
    ensures room { gathering.new.room ≡ gathering.old.room }
{
    if !begins {
        return Ok(false);
    }
    add_plain_lines(
        dialect,
        &gathering.macros,
        true,
        tokens,
        line,
        &mut gathering.output,
    )
}

/// Ends a file's tokens, at a fault of the scan if there is one.
fn end_file(alloc: Global, name: &[u8], fault: Option<Fault>) -> Result<(), TextRefusal>
    ensures made { (w : GatherState) → Gathers (end_of name.now fault w) result (Ok w) w.answers }
    ensures unasked { IsUnasked result }
{
    match fault {
        Some(fault) => Err(fault_in(alloc, name, fault)),
        None => Ok(()),
    }
}

/// Adds what a token and those behind it make.
#[cycle(files)]
fn add_part<L: Library>(
    alloc: Global,
    dialect: Dialect,
    library: &mut L,
    depth: usize,
    outermost: bool,
    name: &[u8],
    first: FirstWord,
    token: Token,
    tokens: &mut Scanner<'_>,
    gathering: &mut Gathering,
) -> Result<(), TextRefusal>
    requires { gathering.old.room ≤ 4194304 }
    ensures made { Through (L.files library.old) (λ names. L.fetches library.old names library.new) (λ before after.
        Gathers (part (include_made dialect depth name.now) dialect outermost name.now first token tokens.old.tokens (world gathering.old before))
        result (Ok (tokens.new.tokens, world gathering.new after)) after) }
    ensures fewer { OnOk result (length tokens.new.tokens ≤ length tokens.old.tokens) }
    ensures fault { OnOk result (tokens.new.fault ≡ tokens.old.fault) }
    ensures room { OnOk result (gathering.new.room ≤ 4194304) }
    ensures same { L.files library.new ≡ L.files library.old }
    ensures becomes { L.becomes library.old library.new }
    ensures cause { HasCause (L.faults library.old) (L.faults library.new) result }
{
    match first {
        FirstWord::Define => { add_define(alloc, dialect, name, token.place, tokens, gathering) }
        FirstWord::Include => match next_name(tokens)? {
            Some((place, file)) => add_include(
                alloc,
                dialect,
                library,
                depth,
                name,
                place,
                file.as_bytes(),
                gathering,
            ),
            None => Ok(()),
        },
        FirstWord::Other => add_plain(alloc, dialect, outermost, name, token, gathering),
    }
}

/// Takes the name of a file, which stands quoted with the place of its line.
fn next_name(tokens: &mut Scanner<'_>) -> Result<Option<(Place, Text)>, AllocError>
    ensures name { IfOk result (λ name. name ≡ quoted_next tokens.old.tokens) }
    ensures rest { OnOk result (tokens.new.tokens ≡ behind_name tokens.old.tokens) }
    ensures fewer { OnOk result (length tokens.new.tokens ≤ length tokens.old.tokens) }
    ensures fault { OnOk result (tokens.new.fault ≡ tokens.old.fault) }
{
    let Some(Token { kind, place }) = tokens.next()? else {
        return Ok(None);
    };
    match kind {
        TokenKind::Quoted(name) => Ok(Some((place, name))),
        kind => {
            tokens.put_back(Token { kind, place })?;
            Ok(None)
        }
    }
}

/// Keeps the macro of a define whose word stands at this place.
fn add_define(
    alloc: Global,
    dialect: Dialect,
    name: &[u8],
    place: Place,
    tokens: &mut Scanner<'_>,
    gathering: &mut Gathering,
) -> Result<(), TextRefusal>
    ensures made { (a : Answers) → Gathers (define_token dialect name.now place tokens.old.tokens (world gathering.old a)) result (Ok (tokens.new.tokens, world gathering.new a)) a }
    ensures fewer { OnOk result (length tokens.new.tokens ≤ length tokens.old.tokens) }
    ensures fault { OnOk result (tokens.new.fault ≡ tokens.old.fault) }
    ensures room { gathering.new.room ≡ gathering.old.room }
    ensures unasked { IsUnasked result }
{
    match define(alloc, dialect, place, &mut gathering.macros, tokens) {
        Ok(()) => Ok(()),
        Err(refusal) => Err(refusal_in(alloc, name, refusal)),
    }
}

/// Adds what a token makes that begins no define and no include.
fn add_plain(
    alloc: Global,
    dialect: Dialect,
    outermost: bool,
    name: &[u8],
    token: Token,
    gathering: &mut Gathering,
) -> Result<(), TextRefusal>
    ensures made { (a : Answers) → Gathers (plain_token dialect outermost name.now token (world gathering.old a)) result (Ok (world gathering.new a)) a }
    ensures room { gathering.new.room ≡ gathering.old.room }
    ensures unasked { IsUnasked result }
{
    if !outermost && is_text_end(&token.kind) {
        return Ok(());
    }
    match add_token(
        alloc,
        dialect,
        &gathering.macros,
        token,
        &mut gathering.output,
    ) {
        Ok(()) => Ok(()),
        Err(refusal) => Err(refusal_in(alloc, name, refusal)),
    }
}
