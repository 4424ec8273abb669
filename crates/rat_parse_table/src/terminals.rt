// What the grammar sees of a token.

ghost use Rattle.std.specs.Prelude.{◌≡◌, map};
ghost use Rattle.std.specs.List.{list_all};
ghost use Rattle.rat_parse_table.specs.WordLengths.{of_length};
ghost use Rattle.rat_parse_table.specs.Words.{seen, word_terminal, reserved, terminal_in, is_spelled as spells, is_field_word as field_word, is_edit_word as edit_word, is_letter as letter, is_digit as digit, is_octal as octal, has_octal_digits as octal_digits, number_terminal, text_terminal, sign_terminal};

use crate::table::Terminal;
use ground::{Sign, Token, TokenKind};

/// What the grammar sees of a token.
pub fn terminal_at(token: &Token) -> Terminal
    ensures { result ≡ seen token.now }
{
    match &token.kind {
        TokenKind::Word(word) => word_at(word.as_bytes()),
        TokenKind::Number(number) => number_at(*number),
        TokenKind::Quoted(text) => text_at(text.as_bytes()),
        TokenKind::Sign(sign) => sign_at(*sign),
        TokenKind::LineEnd => Terminal::LineEnd,
        TokenKind::Semicolon => Terminal::Semicolon,
        TokenKind::TextEnd => Terminal::TextEnd,
    }
}

/// A reserved word in capitals, and its terminal.
type Reserved = (&'static [u8], Terminal);

// By their lengths, since most words of a text are names, and are told from those of their length alone.

static TWO: [Reserved; 4] = [
    (b"IF", Terminal::If),
    (b"DO", Terminal::Do),
    (b"GO", Terminal::Go),
    (b"TO", Terminal::To),
];

static THREE: [Reserved; 2] = [(b"END", Terminal::End), (b"FOR", Terminal::For)];

static FOUR: [Reserved; 9] = [
    (b"DATA", Terminal::Data),
    (b"ELSE", Terminal::Else),
    (b"CASE", Terminal::Case),
    (b"NEXT", Terminal::Leave),
    (b"GOTO", Terminal::Goto),
    (b"CALL", Terminal::Call),
    (b"STOP", Terminal::Stop),
    (b"READ", Terminal::Transfer),
    (b"REAL", Terminal::Type),
];

static FIVE: [Reserved; 5] = [
    (b"BLOCK", Terminal::Block),
    (b"WHILE", Terminal::While),
    (b"UNTIL", Terminal::Until),
    (b"BREAK", Terminal::Leave),
    (b"WRITE", Terminal::Transfer),
];

static SIX: [Reserved; 6] = [
    (b"REPEAT", Terminal::Repeat),
    (b"SWITCH", Terminal::Switch),
    (b"RETURN", Terminal::Return),
    (b"FORMAT", Terminal::Format),
    (b"DOUBLE", Terminal::Double),
    (b"COMMON", Terminal::Common),
];

static SEVEN: [Reserved; 4] = [
    (b"DEFAULT", Terminal::Default),
    (b"INTEGER", Terminal::Type),
    (b"LOGICAL", Terminal::Type),
    (b"COMPLEX", Terminal::Type),
];

static EIGHT: [Reserved; 2] = [
    (b"FUNCTION", Terminal::Function),
    (b"CONTINUE", Terminal::Continue),
];

static NINE: [Reserved; 2] = [
    (b"PRECISION", Terminal::Precision),
    (b"DIMENSION", Terminal::Dimension),
];

static TEN: [Reserved; 1] = [(b"SUBROUTINE", Terminal::Subroutine)];

static ELEVEN: [Reserved; 1] = [(b"EQUIVALENCE", Terminal::Equivalence)];

/// The reserved words of so many letters.
fn words_of(length: usize) -> &'static [Reserved]
    ensures { map (λ w. (w.0.now, w.1)) result.now ≡ of_length length reserved }
{
    match length {
        2 => &TWO,
        3 => &THREE,
        4 => &FOUR,
        5 => &FIVE,
        6 => &SIX,
        7 => &SEVEN,
        8 => &EIGHT,
        9 => &NINE,
        10 => &TEN,
        11 => &ELEVEN,
        _ => &[],
    }
}

fn word_at(word: &[u8]) -> Terminal
    ensures { result ≡ word_terminal word.now }
{
    match reserved_at(word) {
        Some(terminal) => terminal,
        None if is_field_word(word) => Terminal::FieldWord,
        None => Terminal::Name,
    }
}

fn reserved_at(word: &[u8]) -> Option<Terminal>
    ensures { result ≡ terminal_in reserved word.now }
{
    for (spelling, terminal) in words_of(word.len()) {
        if is_spelled(spelling, word) {
            return Some(*terminal);
        }
    }
    None
}

/// Whether a word is this one in capitals, in whatever case.
pub fn is_spelled(spelling: &[u8], word: &[u8]) -> bool
    ensures { result ≡ spells spelling.now word.now }
{
    spelling.len() == word.len() && are_its_letters(spelling, word)
}

fn are_its_letters(spelling: &[u8], word: &[u8]) -> bool
    ensures { result ≡ spells spelling.now word.now }
{
    match spelling {
        [] => word.is_empty(),
        [first, spelling @ ..] => match word {
            [] => false,
            [byte, word @ ..] => {
                *first == byte.to_ascii_uppercase() && are_its_letters(spelling, word)
            }
        },
    }
}

/// A field of a format: `Iw`, `Lw`, `A1` or `X`.
fn is_field_word(word: &[u8]) -> bool
    ensures { result ≡ field_word word.now }
{
    match word {
        [] => false,
        [letter] => is_letter(b'X', *letter),
        [letter, digit, digits @ ..] => is_edit_word(*letter, *digit, digits),
    }
}

fn is_edit_word(letter: u8, digit: u8, digits: &[u8]) -> bool
    ensures { result ≡ edit_word letter digit digits.now }
{
    if is_letter(b'A', letter) {
        digit == b'1' && digits.is_empty()
    } else if is_letter(b'I', letter) || is_letter(b'L', letter) {
        is_digit(digit) && are_digits(digits)
    } else {
        false
    }
}

fn is_letter(capital: u8, byte: u8) -> bool
    ensures { result ≡ letter capital byte }
{
    byte.to_ascii_uppercase() == capital
}

fn are_digits(bytes: &[u8]) -> bool
    ensures { result ≡ list_all digit bytes.now }
{
    bytes.iter().all(|byte| is_digit(*byte))
}

fn is_digit(byte: u8) -> bool
    ensures { result ≡ digit byte }
{
    b'0' <= byte && byte <= b'9'
}

fn number_at(number: i64) -> Terminal
    ensures { result ≡ number_terminal number }
{
    if is_octal(number) {
        Terminal::Octal
    } else {
        Terminal::Number
    }
}

fn is_octal(number: i64) -> bool
    ensures { result ≡ octal number }
{
    number >= 0 && has_octal_digits(number as u64)
}

/// Whether a number has at most five digits, all of them octal.
fn has_octal_digits(number: u64) -> bool
    ensures { result ≡ octal_digits number }
{
    number <= 77_777
        && number % 10 < 8
        && number / 10 % 10 < 8
        && number / 100 % 10 < 8
        && number / 1_000 % 10 < 8
        && number / 10_000 % 10 < 8
}

fn text_at(text: &[u8]) -> Terminal
    ensures { result ≡ text_terminal text.now }
{
    match text {
        [] => Terminal::Other,
        [_] => Terminal::Letter,
        _ => Terminal::Chars,
    }
}

fn sign_at(sign: Sign) -> Terminal
    ensures { result ≡ sign_terminal sign }
{
    match sign {
        Sign::Plus | Sign::Minus => Terminal::Adding,
        Sign::Star => Terminal::Star,
        Sign::Slash => Terminal::Slash,
        Sign::Power => Terminal::Power,
        Sign::Open => Terminal::Open,
        Sign::Close => Terminal::Close,
        Sign::Comma => Terminal::Comma,
        Sign::OpenBrace => Terminal::OpenBrace,
        Sign::CloseBrace => Terminal::CloseBrace,
        Sign::Colon => Terminal::Colon,
        Sign::Eq | Sign::Ne | Sign::Lt | Sign::Le | Sign::Gt | Sign::Ge => Terminal::Relation,
        Sign::And => Terminal::And,
        Sign::Or => Terminal::Or,
        Sign::Not => Terminal::Not,
        Sign::True | Sign::False => Terminal::Truth,
        Sign::Assign => Terminal::Assign,
        _ => Terminal::Other,
    }
}
