// What is read off words, numbers and signs.
ghost use Rattle.std.specs.Prelude.{◌≡◌, ◌≤◌};
ghost use Rattle.rat_parse_table.specs.Words.{is_spelled as spells};
ghost use Rattle.rat_parse_values.specs.Parts.{kind_integer, capped, octal_value as octal, kind_sign, is_true as truth, is_minus as minus, operator_of as operator, kind_word};

use f66_tree::Operator;
use ground::{Sign, TokenKind};
use rat_parse_table::is_spelled;

/// The number that a token is.
pub fn integer_of_kind(kind: &TokenKind) -> i64
    ensures { result ≡ kind_integer kind.now }
{
    match kind {
        TokenKind::Number(number) => *number,
        _ => 0,
    }
}

/// A number as a label, at most 4,294,967,295.
pub fn capped_label(number: i64) -> u32
    ensures { result ≡ capped 4294967295 number }
{
    if number < 0 {
        0
    } else if number <= 4_294_967_295 {
        number as u32
    } else {
        4_294_967_295
    }
}

/// A number as a count of a format, at most 65,535.
pub fn capped_count(number: i64) -> u16
    ensures { result ≡ capped 65535 number }
{
    if number < 0 {
        0
    } else if number <= 65_535 {
        number as u16
    } else {
        65_535
    }
}

fn capped_octal(number: i64) -> u32
    ensures { result ≡ capped 77777 number }
{
    if number < 0 {
        0
    } else if number <= 77_777 {
        number as u32
    } else {
        77_777
    }
}

fn octal_value(number: u32) -> u16
    requires { number ≤ 77777 }
    ensures { result ≡ octal number }
{
    let first = number / 10_000 % 10;
    let second = number / 1_000 % 10;
    let third = number / 100 % 10;
    let fourth = number / 10 % 10;
    ((((first * 8 + second) * 8 + third) * 8 + fourth) * 8 + number % 10) as u16
}

/// The number of a STOP, whose digits are read as octal ones.
pub fn octal_of_kind(kind: &TokenKind) -> u16
    ensures { result ≡ octal (capped 77777 (kind_integer kind.now)) }
{
    octal_value(capped_octal(integer_of_kind(kind)))
}

/// The sign that a token is.
pub fn sign_of_kind(kind: &TokenKind) -> Sign
    ensures { result ≡ kind_sign kind.now }
{
    match kind {
        TokenKind::Sign(sign) => *sign,
        _ => Sign::Plus,
    }
}

pub fn is_true(sign: Sign) -> bool
    ensures { result ≡ truth sign }
{
    matches!(sign, Sign::True)
}

pub fn is_minus(sign: Sign) -> bool
    ensures { result ≡ minus sign }
{
    matches!(sign, Sign::Minus)
}

pub fn operator_of(sign: Sign) -> Operator
    ensures { result ≡ operator sign }
{
    match sign {
        Sign::Minus => Operator::Sub,
        Sign::Star => Operator::Mul,
        Sign::Slash => Operator::Div,
        Sign::Power => Operator::Power,
        Sign::Lt => Operator::Lt,
        Sign::Le => Operator::Le,
        Sign::Eq => Operator::Eq,
        Sign::Ne => Operator::Ne,
        Sign::Ge => Operator::Ge,
        Sign::Gt => Operator::Gt,
        Sign::And => Operator::And,
        Sign::Or => Operator::Or,
        _ => Operator::Add,
    }
}

/// Whether a token is this word in capitals, in whatever case.
pub fn kind_is(spelling: &[u8], kind: &TokenKind) -> bool
    ensures { result ≡ spells spelling.now (kind_word kind.now) }
{
    match kind {
        TokenKind::Word(word) => is_spelled(spelling, word.as_bytes()),
        _ => is_spelled(spelling, &[]),
    }
}
