// What the grammar sees of a token.

ghost use Rattle.std.specs.Prelude.{◌≡◌, map};
ghost use Rattle.efl_parse_table.specs.Words.{seen, word_terminal, reserved, terminal_in, is_spelled as spells, is_letter as letter, letter_terminal, name_terminal, text_terminal, sign_terminal};

use crate::table::Terminal;
use ground::{Sign, Token, TokenKind};

/// What the grammar sees of a token.
pub fn terminal_at(token: &Token) -> Terminal
    ensures { result ≡ seen token.now }
{
    match &token.kind {
        TokenKind::Word(word) => word_at(word.as_bytes()),
        TokenKind::Number(_) => Terminal::Number,
        TokenKind::Quoted(text) => text_at(text.as_bytes()),
        TokenKind::Sign(sign) => sign_at(*sign),
        TokenKind::LineEnd => Terminal::LineEnd,
        TokenKind::Semicolon => Terminal::Semicolon,
        TokenKind::TextEnd => Terminal::TextEnd,
    }
}

/// How many letters each reserved word has at least.
const SHORTEST: usize = 2;

/// A reserved word in capitals, and its terminal.
type Reserved = (&'static [u8], Terminal);

static WORDS: [Reserved; 31] = [
    (b"PROCEDURE", Terminal::Procedure),
    (b"END", Terminal::End),
    (b"IMPLICIT", Terminal::Implicit),
    (b"INITIAL", Terminal::Initial),
    (b"COMMON", Terminal::Common),
    (b"STRUCT", Terminal::Struct),
    (b"INTEGER", Terminal::Plain),
    (b"LOGICAL", Terminal::Plain),
    (b"LONG", Terminal::Long),
    (b"REAL", Terminal::Floating),
    (b"COMPLEX", Terminal::Floating),
    (b"TRUE", Terminal::Truth),
    (b"FALSE", Terminal::Truth),
    (b"IF", Terminal::If),
    (b"ELSE", Terminal::Else),
    (b"WHILE", Terminal::While),
    (b"FOR", Terminal::For),
    (b"REPEAT", Terminal::Repeat),
    (b"UNTIL", Terminal::Until),
    (b"DO", Terminal::Do),
    (b"SWITCH", Terminal::Switch),
    (b"CASE", Terminal::Case),
    (b"DEFAULT", Terminal::Default),
    (b"BREAK", Terminal::Leave),
    (b"NEXT", Terminal::Leave),
    (b"RETURN", Terminal::Return),
    (b"GOTO", Terminal::Goto),
    (b"GO", Terminal::Go),
    (b"TO", Terminal::To),
    (b"WRITE", Terminal::Write),
    (b"READ", Terminal::Read),
];

fn words() -> &'static [Reserved]
    ensures { map (λ w. (w.0.now, w.1)) result.now ≡ reserved }
{
    &WORDS
}

fn word_at(word: &[u8]) -> Terminal
    ensures { result ≡ word_terminal word.now }
{
    match reserved_at(word) {
        Some(terminal) => terminal,
        None => name_at(word),
    }
}

fn reserved_at(word: &[u8]) -> Option<Terminal>
    ensures { result ≡ terminal_in reserved word.now }
{
    if word.len() < SHORTEST {
        return None;
    }
    for (spelling, terminal) in words() {
        if is_spelled(spelling, word) {
            return Some(*terminal);
        }
    }
    None
}

/// Whether a word is this one in capitals, in whatever case.
pub fn is_spelled(spelling: &[u8], word: &[u8]) -> bool
    ensures { result ≡ spells spelling.now word.now }
{
    spelling.len() == word.len() && are_its_letters(spelling, word)
}

fn are_its_letters(spelling: &[u8], word: &[u8]) -> bool
    ensures { result ≡ spells spelling.now word.now }
{
    match spelling {
        [] => word.is_empty(),
        [first, spelling @ ..] => match word {
            [] => false,
            [byte, word @ ..] => {
                *first == byte.to_ascii_uppercase() && are_its_letters(spelling, word)
            }
        },
    }
}

fn name_at(word: &[u8]) -> Terminal
    ensures { result ≡ name_terminal word.now }
{
    match word {
        [byte] => letter_at(*byte),
        _ => Terminal::Name,
    }
}

fn letter_at(byte: u8) -> Terminal
    ensures { result ≡ letter_terminal byte }
{
    if is_letter(b'I', byte) || is_letter(b'L', byte) {
        Terminal::WidthLetter
    } else if is_letter(b'C', byte) {
        Terminal::CharLetter
    } else if is_letter(b'X', byte) {
        Terminal::SkipLetter
    } else {
        Terminal::Letter
    }
}

fn is_letter(capital: u8, byte: u8) -> bool
    ensures { result ≡ letter capital byte }
{
    byte.to_ascii_uppercase() == capital
}

fn text_at(text: &[u8]) -> Terminal
    ensures { result ≡ text_terminal text.now }
{
    match text {
        [] => Terminal::Other,
        _ => Terminal::Quoted,
    }
}

fn sign_at(sign: Sign) -> Terminal
    ensures { result ≡ sign_terminal sign }
{
    match sign {
        Sign::Plus => Terminal::Plus,
        Sign::Minus => Terminal::Minus,
        Sign::Star => Terminal::Star,
        Sign::Slash => Terminal::Slash,
        Sign::Power => Terminal::Power,
        Sign::Open => Terminal::Open,
        Sign::Close => Terminal::Close,
        Sign::Comma => Terminal::Comma,
        Sign::OpenBrace => Terminal::OpenBrace,
        Sign::CloseBrace => Terminal::CloseBrace,
        Sign::Colon => Terminal::Colon,
        Sign::Eq | Sign::Ne | Sign::Lt | Sign::Le | Sign::Gt | Sign::Ge => Terminal::Relation,
        Sign::And | Sign::AndThen => Terminal::And,
        Sign::Or | Sign::OrElse => Terminal::Or,
        Sign::Not => Terminal::Not,
        Sign::Point => Terminal::Point,
        Sign::Assign => Terminal::Assign,
        Sign::AddAssign
        | Sign::SubAssign
        | Sign::MulAssign
        | Sign::DivAssign
        | Sign::PowerAssign
        | Sign::AndAssign
        | Sign::OrAssign
        | Sign::AndThenAssign
        | Sign::OrElseAssign => Terminal::OperatorAssign,
        Sign::Increment | Sign::Decrement => Terminal::Stepper,
        Sign::Arrow => Terminal::Arrow,
        Sign::Dollar => Terminal::Dollar,
        _ => Terminal::Other,
    }
}
