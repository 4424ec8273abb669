// Reads tokens: their places, names, numbers and signs.
ghost use Rattle.std.specs.Prelude.{◌≡◌};
ghost use Rattle.efl_parse_table.specs.Words.{is_spelled as spells};
ghost use Rattle.efl_parse_values.specs.Values.{value};
ghost use Rattle.efl_parse_values.specs.Parts.{place_in, kind_name, name_in, kind_text, text_in, letter_in, letter_part, first_letter, kind_integer, integer_in, capped as capped_so, number_in, count_or_one, kind_sign, sign_in, is_minus as minus, is_decrement as decrement, operator_of as operator, kind_word, is_word as word_is, is_true as truth};

use crate::value::{
    CountValue, DeclarationValue, ExpressionValue, ProcedureValue, StatementValue, TypeValue, Value,
};
use efl_parse_table::is_spelled;
use efl_tree::{EflName, EflOperator};
use ground::{Place, Sign, Text, TokenKind};
use std::alloc::Global;

/// The place of a part that has none.
pub const NOWHERE: Place = Place { file: 0, line: 0 };

/// The place of a part's first token.
pub fn place_of(part: &Value) -> Place
    ensures { result ≡ place_in (value part.now) }
{
    match part {
        Value::Token(token) => token.place,
        Value::Expression(ExpressionValue::Located(place, _)) => *place,
        Value::Type(TypeValue::Typed(place, _)) => *place,
        Value::Declaration(DeclarationValue::Declaration(declaration)) => declaration.place,
        Value::Procedure(ProcedureValue::Header(header)) => header.place,
        Value::Statement(StatementValue::Statement(statement)) => statement.place,
        _ => NOWHERE,
    }
}

pub fn take_place(part: Value) -> Place
    ensures { result ≡ place_in (value part) }
{
    let place = place_of(&part);
    drop(part);
    place
}

/// A word in capitals.
pub fn into_word(part: Value) -> Text
    ensures { result ≡ name_in (value part) }
{
    match part {
        Value::Token(token) => word_of_kind(token.kind),
        other => {
            drop(other);
            Text::empty()
        }
    }
}

fn word_of_kind(kind: TokenKind) -> Text
    ensures { result ≡ kind_name kind }
{
    match kind {
        TokenKind::Word(word) => word.into_capitals(),
        other => {
            drop(other);
            Text::empty()
        }
    }
}

pub fn into_name(part: Value) -> EflName
    ensures { result ≡ name_in (value part) }
{
    EflName::new(into_word(part))
}

/// A quoted text.
pub fn into_text(part: Value) -> Text
    ensures { result ≡ text_in (value part) }
{
    match part {
        Value::Token(token) => text_of_kind(token.kind),
        other => {
            drop(other);
            Text::empty()
        }
    }
}

fn text_of_kind(kind: TokenKind) -> Text
    ensures { result ≡ kind_text kind }
{
    match kind {
        TokenKind::Quoted(text) => text,
        other => {
            drop(other);
            Text::empty()
        }
    }
}

/// The first letter of a name, as a capital.
pub fn take_letter(part: Value) -> u8
    ensures { result ≡ letter_in (value part) }
{
    first_of(&into_word(part))
}

/// The first letter of a name, if the part is one.
pub fn take_letter_if_any(part: Value) -> Option<u8>
    ensures { result ≡ letter_part (value part) }
{
    match part {
        Value::Token(token) => Some(first_of(&word_of_kind(token.kind))),
        other => {
            drop(other);
            None
        }
    }
}

fn first_of(word: &Text) -> u8
    ensures { result ≡ first_letter word.now }
{
    match word.as_bytes() {
        [] => 0,
        [first, ..] => *first,
    }
}

pub fn take_integer(part: Value) -> i64
    ensures { result ≡ integer_in (value part) }
{
    let integer = integer_of(&part);
    drop(part);
    integer
}

fn integer_of(part: &Value) -> i64
    ensures { result ≡ integer_in (value part.now) }
{
    match part {
        Value::Token(token) => integer_of_kind(&token.kind),
        Value::Count(CountValue::Integer(integer)) => *integer,
        _ => 0,
    }
}

fn integer_of_kind(kind: &TokenKind) -> i64
    ensures { result ≡ kind_integer kind.now }
{
    match kind {
        TokenKind::Number(number) => *number,
        _ => 0,
    }
}

fn capped(number: i64) -> u32
    ensures { result ≡ capped_so number }
{
    if number < 0 {
        0
    } else if number <= 4_294_967_295 {
        number as u32
    } else {
        4_294_967_295
    }
}

pub fn take_number(part: Value) -> u32
    ensures { result ≡ number_in (value part) }
{
    capped(take_integer(part))
}

pub fn take_count_or_one(part: Value) -> u32
    ensures { result ≡ count_or_one (value part) }
{
    let count = count_or_one_of(&part);
    drop(part);
    count
}

fn count_or_one_of(part: &Value) -> u32
    ensures { result ≡ count_or_one (value part.now) }
{
    match part {
        Value::Token(token) => capped(integer_of_kind(&token.kind)),
        _ => 1,
    }
}

pub fn take_sign(part: Value) -> Sign
    ensures { result ≡ sign_in (value part) }
{
    let sign = sign_of(&part);
    drop(part);
    sign
}

fn sign_of(part: &Value) -> Sign
    ensures { result ≡ sign_in (value part.now) }
{
    match part {
        Value::Token(token) => sign_of_kind(&token.kind),
        _ => Sign::Plus,
    }
}

fn sign_of_kind(kind: &TokenKind) -> Sign
    ensures { result ≡ kind_sign kind.now }
{
    match kind {
        TokenKind::Sign(sign) => *sign,
        _ => Sign::Plus,
    }
}

pub fn is_minus(sign: Sign) -> bool
    ensures { result ≡ minus sign }
{
    matches!(sign, Sign::Minus)
}

pub fn is_decrement(sign: Sign) -> bool
    ensures { result ≡ decrement sign }
{
    matches!(sign, Sign::Decrement)
}

/// The operator of a binary sign, or of an assignment.
pub fn operator_of(sign: Sign) -> EflOperator
    ensures { result ≡ operator sign }
{
    match sign {
        Sign::Minus | Sign::SubAssign => EflOperator::Sub,
        Sign::Star | Sign::MulAssign => EflOperator::Mul,
        Sign::Slash | Sign::DivAssign => EflOperator::Div,
        Sign::Power | Sign::PowerAssign => EflOperator::Power,
        Sign::Lt => EflOperator::Lt,
        Sign::Le => EflOperator::Le,
        Sign::Eq => EflOperator::Eq,
        Sign::Ne => EflOperator::Ne,
        Sign::Ge => EflOperator::Ge,
        Sign::Gt => EflOperator::Gt,
        Sign::And | Sign::AndAssign => EflOperator::And,
        Sign::Or | Sign::OrAssign => EflOperator::Or,
        Sign::AndThen | Sign::AndThenAssign => EflOperator::AndThen,
        Sign::OrElse | Sign::OrElseAssign => EflOperator::OrElse,
        _ => EflOperator::Add,
    }
}

/// Whether a part is this word in capitals, in whatever case.
pub fn is_word(spelling: &[u8], part: &Value) -> bool
    ensures { result ≡ word_is spelling.now (value part.now) }
{
    match part {
        Value::Token(token) => kind_is(spelling, &token.kind),
        _ => is_spelled(spelling, &[]),
    }
}

fn kind_is(spelling: &[u8], kind: &TokenKind) -> bool
    ensures { result ≡ spells spelling.now (kind_word kind.now) }
{
    match kind {
        TokenKind::Word(word) => is_spelled(spelling, word.as_bytes()),
        _ => is_spelled(spelling, &[]),
    }
}

pub fn take_truth(part: Value) -> bool
    ensures { result ≡ truth (value part) }
{
    let truth = is_word(b"TRUE", &part);
    drop(part);
    truth
}
