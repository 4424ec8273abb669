// Texts, line by line.
ghost use Rattle.std.specs.Prelude.{All, ◌≡◌, ◌==◌, ◌+◌, ◌<◌, ◌≤◌, ◌^◌, [], ◌++◌, length, None, IfOk, OnOk, if◌then◌else◌};
ghost use Rattle.std.specs.List.{list_any};
ghost use Rattle.free_scan.specs.IncludeNames.{include_word as include_word_of};
ghost use Rattle.free_scan.specs.Lines.{IsPlace, IsWithin, last_byte as last_byte_of};
ghost use Rattle.free_scan.specs.Tokens.{continuing, IfGoes, include_line as include_line_of, is_continued as is_continued_line, line_after as line_after_of, line_of, line_reading, open_after as open_after_token, open_after_all as open_after_all_of, open_parentheses as open_parentheses_of, outcome, plain_line as plain_line_of, scanned, tokens_in, token_at as token_of};

use crate::characters::{are_printable, begins_with, is_blank};
use crate::include_names::{begun, file_name, include_word};
use crate::lexemes::{add_tokens, bytes};
use crate::lines::{Character, LineEnding, line_size, read_line};
use ground::{Dialect, Fault, FaultKind, List, Memory, Place, Sign, Text, Token, TokenKind};
use std::alloc::{AllocError, Global};

/// Where a line starts: its place in the text, its number, how many of Ratfor's parentheses are open, and whether it
/// continues the line before.
#[derive(Clone, Copy, Debug)]
pub struct LineStart {
    pub next: usize,
    pub number: u32,
    pub opened: usize,
    pub continues: bool,
}

/// How a line ends: at the start of the next one, or at a fault.
#[derive(Clone, Copy, Debug)]
pub enum Outcome {
    Goes(LineStart),
    Stops(Fault),
}

/// So many open parentheses count as out of memory.
const MOST_OPEN: usize = 1 << 62;

pub(crate) fn token_at(file: u16, line: u32, kind: TokenKind) -> Token
    ensures { result ≡ token_of file line kind }
{
    Token {
        kind,
        place: Place { file, line },
    }
}

/// Adds the tokens of the line that starts here.
pub(crate) fn scan_line(
    alloc: Global,
    dialect: Dialect,
    text: &[u8],
    file: u16,
    start: LineStart,
    characters: &mut Vec<Character>,
    tokens: &mut Vec<Token>,
) -> Result<Outcome, AllocError>
    requires short { length text.now < 4294967295 }
    requires in_text { start.next < length text.now }
    requires counted { start.number ≤ start.next + 1 }
    requires numbered { 0 < start.number }
    requires few_open { start.opened < 2 ^ 62 }
    ensures tokens { OnOk result (tokens.new.items
        ≡ tokens.old.items ++ tokens_in (line_reading dialect text.now file start)) }
    ensures outcome { IfOk result (λ o. o ≡ outcome (line_reading dialect text.now file start)) }
    ensures place { IfOk result (λ o. IfGoes o (λ after. IsPlace (start.next + 1) (length text.now) after.next after.number)) }
    ensures few_open { IfOk result (λ o. IfGoes o (λ after. after.opened < 2 ^ 62)) }
{
    if begins_with(b'%', &text[start.next..]) {
        let place = Place {
            file,
            line: start.number,
        };
        return Ok(Outcome::Stops(Fault::new(place, FaultKind::PercentLine)));
    }
    let ending = read_line(dialect, text, start.next, start.number, characters)?;
    add_line(
        alloc, dialect, text, file, start, characters, ending, tokens,
    )
}

/// Adds the tokens of a line with these characters.
fn add_line(
    alloc: Global,
    dialect: Dialect,
    text: &[u8],
    file: u16,
    start: LineStart,
    characters: &[Character],
    ending: LineEnding,
    tokens: &mut Vec<Token>,
) -> Result<Outcome, AllocError>
    requires short { length text.now < 4294967295 }
    requires few_open { start.opened < 2 ^ 62 }
    requires within { All (IsWithin start.next (length text.now)) characters.now }
    requires place { IsPlace (start.next + 1) (length text.now) ending.next ending.number }
    ensures tokens { OnOk result (tokens.new.items ≡ tokens.old.items
        ++ tokens_in (line_of dialect text.now file start (record { characters = characters.now; ending = ending }))) }
    ensures outcome { IfOk result (λ o. o
        ≡ outcome (line_of dialect text.now file start (record { characters = characters.now; ending = ending }))) }
    ensures place { IfOk result (λ o. IfGoes o (λ after. IsPlace (start.next + 1) (length text.now) after.next after.number)) }
    ensures few_open { IfOk result (λ o. IfGoes o (λ after. after.opened < 2 ^ 62)) }
{
    let line = begun(characters);
    match include_at(start.continues, line) {
        Some((first, last)) => {
            let word = Text::new(bytes(alloc, line, 7)?)?;
            include_line(alloc, text, file, word, first, last, tokens)
        }
        None => plain_line(
            alloc, dialect, text, file, start, characters, ending, tokens,
        ),
    }
}

/// The ends of the word `include` that makes a line an include line.
fn include_at(continues: bool, line: &[Character]) -> Option<(Character, Character)>
    ensures { result ≡ if continues then None else include_word_of line.now }
{
    if continues { None } else { include_word(line) }
}

/// Adds the tokens of an include line, whose word has this text and these ends.
fn include_line(
    alloc: Global,
    text: &[u8],
    file: u16,
    word: Text,
    first: Character,
    last: Character,
    tokens: &mut Vec<Token>,
) -> Result<Outcome, AllocError>
    requires short { length text.now < 4294967295 }
    requires in_text { last.next ≤ length text.now }
    requires counted { last.line ≤ last.next }
    requires numbered { 0 < last.line }
    ensures tokens { OnOk result (tokens.new.items
        ≡ tokens.old.items ++ tokens_in (include_line_of text.now file word first last)) }
    ensures outcome { IfOk result (λ o. o ≡ outcome (include_line_of text.now file word first last)) }
    ensures place { IfOk result (λ o. IfGoes o (λ after. IsPlace last.next (length text.now) after.next after.number)) }
    ensures closed { IfOk result (λ o. IfGoes o (λ after. after.opened ≡ 0)) }
{
    tokens.push(token_at(file, first.line, TokenKind::Word(word)))?;
    let rest = &text[last.next..];
    let name = file_name(rest);
    if !are_printable(name) {
        let place = Place {
            file,
            line: last.line,
        };
        return Ok(Outcome::Stops(Fault::new(place, FaultKind::BadByte)));
    }
    let name = Text::from_slice(alloc, name)?;
    tokens.push(token_at(file, last.line, TokenKind::Quoted(name)))?;
    tokens.push(token_at(file, last.line, TokenKind::LineEnd))?;
    Ok(Outcome::Goes(line_after(last, rest)))
}

/// The line after an include line, whose word ends with this character.
fn line_after(last: Character, rest: &[u8]) -> LineStart
    requires short { last.next + length rest.now < 4294967295 }
    requires counted { last.line ≤ last.next }
    requires numbered { 0 < last.line }
    ensures value { result ≡ line_after_of last rest.now }
    ensures place { IsPlace last.next (last.next + length rest.now) result.next result.number }
    ensures closed { result.opened ≡ 0 }
{
    let size = line_size(rest);
    if size < rest.len() {
        LineStart {
            next: last.next + size + 1,
            number: last.line + 1,
            opened: 0,
            continues: false,
        }
    } else {
        LineStart {
            next: last.next + size,
            number: last.line,
            opened: 0,
            continues: false,
        }
    }
}

/// Adds the tokens of a line that is no include line, and its LineEnd.
fn plain_line(
    alloc: Global,
    dialect: Dialect,
    text: &[u8],
    file: u16,
    start: LineStart,
    characters: &[Character],
    ending: LineEnding,
    tokens: &mut Vec<Token>,
) -> Result<Outcome, AllocError>
    requires few_open { start.opened < 2 ^ 62 }
    requires counted { 0 < ending.number }
    ensures tokens { OnOk result (tokens.new.items
        ≡ tokens.old.items ++ tokens_in (plain_line_of dialect text.now file start characters.now ending)) }
    ensures outcome { IfOk result (λ o. o ≡ outcome (plain_line_of dialect text.now file start characters.now ending)) }
    ensures place { IfOk result (λ o. IfGoes o (λ after. (after.next ≡ ending.next) × (after.number ≡ ending.number))) }
    ensures few_open { IfOk result (λ o. IfGoes o (λ after. after.opened < 2 ^ 62)) }
{
    let count = tokens.len();
    if let Some(fault) = add_tokens(alloc, dialect, text, file, characters, tokens)? {
        return Ok(Outcome::Stops(fault));
    }
    let opened = open_parentheses(dialect, start.opened, &tokens[count..]);
    if opened >= MOST_OPEN {
        return Err(AllocError);
    }
    let goes_on = !ending.ended || is_continued(dialect, characters) || opened > 0;
    let continues = goes_on && (start.continues || tokens.len() > count);
    if !goes_on {
        tokens.push(token_at(file, ending.number - 1, TokenKind::LineEnd))?;
    }
    Ok(Outcome::Goes(LineStart {
        next: ending.next,
        number: ending.number,
        opened,
        continues,
    }))
}

/// How many parentheses of a Ratfor text are open after tokens.
fn open_parentheses(dialect: Dialect, opened: usize, tokens: &[Token]) -> usize
    requires { opened + length tokens.now < 2 ^ 64 }
    ensures value { result ≡ open_parentheses_of dialect opened tokens.now }
    ensures few { result ≤ opened + length tokens.now }
{
    match dialect {
        Dialect::Ratfor => open_after_all(opened, tokens),
        Dialect::Efl => 0,
    }
}

fn open_after_all(opened: usize, tokens: &[Token]) -> usize
    requires { opened + length tokens.now < 2 ^ 64 }
    ensures value { result ≡ open_after_all_of opened tokens.now }
    ensures few { result ≤ opened + length tokens.now }
{
    let mut count = opened;
    for token in tokens {
        count = open_after(count, &token.kind);
    }
    count
}

fn open_after(count: usize, kind: &TokenKind) -> usize
    requires { count + 1 < 2 ^ 64 }
    ensures value { result ≡ open_after_token count kind.now }
    ensures few { result ≤ count + 1 }
{
    match kind {
        TokenKind::Sign(Sign::Open) => count + 1,
        TokenKind::Sign(Sign::Close) => count.saturating_sub(1),
        _ => count,
    }
}

/// Whether a line with these characters is continued on the next.
fn is_continued(dialect: Dialect, characters: &[Character]) -> bool
    ensures { result ≡ is_continued_line dialect characters.now }
{
    match last_byte(characters) {
        Some(byte) => is_continuing(dialect, byte),
        None => false,
    }
}

fn last_byte(characters: &[Character]) -> Option<u8>
    ensures { result ≡ last_byte_of None characters.now }
{
    let mut count = characters.len();
    while count > 0 {
        let byte = characters[count - 1].byte;
        if !is_blank(byte) {
            return Some(byte);
        }
        count -= 1;
    }
    None
}

fn is_continuing(dialect: Dialect, byte: u8) -> bool
    ensures { result ≡ list_any (λ c. c == byte) (continuing dialect) }
{
    match dialect {
        Dialect::Ratfor => b"=+-*,|&(_".contains(&byte),
        Dialect::Efl => b"=+-*/~!^<>&|,{[(_".contains(&byte),
    }
}
