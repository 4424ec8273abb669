// The tokens of a line's characters.
ghost use Rattle.std.specs.Prelude.{◌≡◌, ◌-◌, ◌≤◌, ◌++◌, length, map, IfOk, OnOk};
ghost use Rattle.free_scan.specs.Lexemes.{bytes_of, digits_size as size_of_digits, in_range, is_gap as is_gap_byte, lexeme as lexeme_of, more_of, number as number_of, quotation as quotation_of, sign as sign_of, tokens_of, value_after, word as word_of, word_size as size_of_word};

use crate::characters::{are_printable, is_blank, is_quote, is_word_byte, rest_from};
use crate::lines::Character;
use crate::quotes;
use crate::spellings::longest_sign;
use arrayvec::ArrayVec;
use ground::{Dialect, Fault, FaultKind, Place, Text, Token, TokenKind};
use std::alloc::{AllocError, Global};

/// The greatest number of characters of a word or a quoted text.
const LONGEST_TEXT: usize = 255;
/// The greatest number of characters of a word whose text takes no memory.
const SHORT_WORD: usize = 14;
/// The number of that limit.
const TEXT_LIMIT: u64 = 11;

const GREATEST_NUMBER: u64 = 2147483647;

/// What begins at a character of a line.
#[derive(Drop)]
pub enum Lexeme {
    /// Nothing.
    Gap,
    /// A token, with how many more characters belong to it.
    Found(TokenKind, usize),
    /// A fault, with the number of the limit or 0.
    Wrong(FaultKind, u64),
}

/// Whether a byte outside quotes is a blank or the underscore that ends a line.
pub fn is_gap(byte: u8) -> bool
    ensures { result ≡ is_gap_byte byte }
{
    is_blank(byte) || byte == b'_'
}

/// How many letters and digits stand here.
pub fn word_size(characters: &[Character]) -> usize
    ensures size { result ≡ size_of_word characters.now }
    ensures in_range { result ≤ length characters.now }
{
    characters
        .iter()
        .take_while(|c| is_word_byte(c.byte))
        .count()
}

/// The bytes of the first characters, as many as this count says.
pub fn bytes(alloc: Global, characters: &[Character], count: usize) -> Result<Vec<u8>, AllocError>
    ensures { IfOk result (λ text. text.items ≡ bytes_of characters.now count) }
{
    characters.iter().take(count).map(|c| c.byte).collect(alloc)
}

/// The text of few characters. It takes no memory.
fn short_text(characters: &[Character]) -> Text
    requires { length characters.now ≤ 14 }
    ensures { result ≡ map (λ c. c.byte) characters.now }
{
    let mut bytes: ArrayVec<u8, SHORT_WORD> = ArrayVec::new();
    for character in characters {
        bytes.push(character.byte);
    }
    Text::short(&bytes)
}

fn word(alloc: Global, characters: &[Character]) -> Result<Lexeme, AllocError>
    ensures lexeme { IfOk result (λ lexeme. lexeme ≡ word_of characters.now) }
    ensures within { IfOk result (λ lexeme. more_of lexeme ≤ length characters.now - 1) }
{
    let size = word_size(characters);
    if size > LONGEST_TEXT {
        return Ok(Lexeme::Wrong(FaultKind::Limit, TEXT_LIMIT));
    }
    let text = if size <= SHORT_WORD {
        short_text(&characters[..size])
    } else {
        Text::new(bytes(alloc, characters, size)?)?
    };
    Ok(Lexeme::Found(TokenKind::Word(text), size.saturating_sub(1)))
}

/// How many digits stand here.
fn digits_size(characters: &[Character]) -> usize
    ensures size { result ≡ size_of_digits characters.now }
    ensures in_range { result ≤ length characters.now }
{
    characters
        .iter()
        .take_while(|c| c.byte.is_ascii_digit())
        .count()
}

/// The value of digits, unless it is above the greatest number.
fn value(digits: &[Character]) -> Option<u64>
    ensures { result ≡ in_range (value_after 0 digits.now) }
{
    let mut value = 0;
    for digit in digits {
        if value > GREATEST_NUMBER {
            return None;
        }
        value = value * 10 + u64::from(digit.byte.saturating_sub(b'0'));
    }
    if value > GREATEST_NUMBER {
        None
    } else {
        Some(value)
    }
}

fn number(characters: &[Character]) -> Lexeme
    ensures lexeme { result ≡ number_of characters.now }
    ensures within { more_of result ≤ length characters.now - 1 }
{
    let size = digits_size(characters);
    match value(&characters[..size]) {
        Some(value) => Lexeme::Found(TokenKind::Number(value as i64), size.saturating_sub(1)),
        None => Lexeme::Wrong(FaultKind::NumberTooLarge, 0),
    }
}

fn quotation(alloc: Global, dialect: Dialect, quote: u8, rest: &[u8]) -> Result<Lexeme, AllocError>
    ensures lexeme { IfOk result (λ lexeme. lexeme ≡ quotation_of dialect quote rest.now) }
    ensures within { IfOk result (λ lexeme. more_of lexeme ≡ 0) }
{
    let end = quotes::measure(dialect, quote, rest);
    if !are_printable(&rest[..end.size]) {
        return Ok(Lexeme::Wrong(FaultKind::BadByte, 0));
    }
    if !end.closed {
        return Ok(Lexeme::Wrong(FaultKind::UnclosedQuote, 0));
    }
    let text = quotes::literal(alloc, dialect, &rest[..end.size.saturating_sub(1)])?;
    if text.len() > LONGEST_TEXT {
        return Ok(Lexeme::Wrong(FaultKind::Limit, TEXT_LIMIT));
    }
    Ok(Lexeme::Found(TokenKind::Quoted(Text::new(text)?), 0))
}

fn sign(dialect: Dialect, characters: &[Character]) -> Lexeme
    ensures lexeme { result ≡ sign_of dialect characters.now }
    ensures within { more_of result ≤ length characters.now - 1 }
{
    match longest_sign(dialect, characters) {
        Some((sign, size)) => Lexeme::Found(TokenKind::Sign(sign), size.saturating_sub(1)),
        None => Lexeme::Wrong(FaultKind::BadByte, 0),
    }
}

/// What begins at the first of a line's characters. A quoted text is read from the text.
fn lexeme_at(
    alloc: Global,
    dialect: Dialect,
    text: &[u8],
    first: Character,
    characters: &[Character],
) -> Result<Lexeme, AllocError>
    ensures lexeme { IfOk result (λ lexeme. lexeme ≡ lexeme_of dialect text.now first characters.now) }
    ensures within { IfOk result (λ lexeme. more_of lexeme ≤ length characters.now - 1) }
{
    if is_gap(first.byte) {
        Ok(Lexeme::Gap)
    } else if first.byte.is_ascii_alphabetic() {
        word(alloc, characters)
    } else if first.byte.is_ascii_digit() {
        Ok(number(characters))
    } else if is_quote(first.byte) {
        quotation(alloc, dialect, first.byte, rest_from(text, first.next))
    } else if first.byte == b';' {
        Ok(Lexeme::Found(TokenKind::Semicolon, 0))
    } else {
        Ok(sign(dialect, characters))
    }
}

/// Adds the tokens of a line's characters, up to the first fault.
pub fn add_tokens(
    alloc: Global,
    dialect: Dialect,
    text: &[u8],
    file: u16,
    characters: &[Character],
    tokens: &mut Vec<Token>,
) -> Result<Option<Fault>, AllocError>
    ensures tokens { OnOk result (tokens.new.items
        ≡ tokens.old.items ++ (tokens_of dialect text.now file 0 characters.now).tokens) }
    ensures fault { IfOk result (λ fault. fault ≡ (tokens_of dialect text.now file 0 characters.now).fault) }
{
    let mut at = 0;
    while at < characters.len() {
        let first = characters[at];
        if is_gap(first.byte) {
            at += 1;
            continue;
        }
        let place = Place {
            file,
            line: first.line,
        };
        match lexeme_at(alloc, dialect, text, first, &characters[at..])? {
            Lexeme::Gap => at += 1,
            Lexeme::Found(kind, more) => {
                tokens.push(Token { kind, place })?;
                at += 1 + more;
            }
            Lexeme::Wrong(kind, number) => {
                return Ok(Some(Fault {
                    kind,
                    place,
                    number,
                }));
            }
        }
    }
    Ok(None)
}
