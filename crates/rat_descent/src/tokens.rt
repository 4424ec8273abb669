// Names, numbers and signs.

ghost use Rattle.std.specs.Prelude.{◌≡◌, IfOk, codes};
ghost use Rattle.grammar.specs.declared.language.Symbol.TheVariants.{Nonterminal as nonterminal_symbol};
ghost use Rattle.rat_parse_table.specs.declared.table.Nonterminal.TheVariants as nonterminals;
ghost use Rattle.rat_parse_values.specs.Values.{tok};
ghost use Rattle.rat_parse_values.specs.Parts.{kind_name, kind_sign, kind_text, text_in, number_in, first_letter, is_word, type_word, operator_of as operation};
ghost use Rattle.rat_descent.specs.Reading.{Reads};

use crate::reader::{Reader, is_at, take_token};
use descent::GiveUp;
use f66_tree::{Name, Operator, TypeWord};
use ground::{Text, Token, TokenKind};
use rat_parse_table::Terminal;
use rat_parse_values::{capped_label, integer_of_kind, kind_is, operator_of, sign_of_kind};
use std::alloc::{AllocError, Global};

pub fn name_token<'a>(reader: &mut Reader<'a>) -> Result<&'a Token, GiveUp>
    ensures { IfOk result (λ token. Reads (nonterminal_symbol nonterminals.AnyName) reader.old (tok token.now) reader.new) }
{
    if is_at(reader, Terminal::Name) {
        Ok(take_token(reader, Terminal::Name)?)
    } else {
        Ok(take_token(reader, Terminal::FieldWord)?)
    }
}

pub fn number_token<'a>(reader: &mut Reader<'a>) -> Result<&'a Token, GiveUp>
    ensures { IfOk result (λ token. Reads (nonterminal_symbol nonterminals.AnyNumber) reader.old (tok token.now) reader.new) }
{
    if is_at(reader, Terminal::Number) {
        Ok(take_token(reader, Terminal::Number)?)
    } else {
        Ok(take_token(reader, Terminal::Octal)?)
    }
}

/// A name in capitals.
pub fn name_of(token: &Token) -> Result<Name, AllocError>
    ensures { IfOk result (λ name. name ≡ kind_name token.now.kind) }
{
    match &token.kind {
        TokenKind::Word(word) => Ok(Name::new(word.clone()?.into_capitals())),
        _ => Ok(Name::new(Text::empty())),
    }
}

pub fn operator_at(token: &Token) -> Operator
    ensures { result ≡ operation (kind_sign token.now.kind) }
{
    operator_of(sign_of_kind(&token.kind))
}

/// A number as a label.
pub fn number_of(token: &Token) -> u32
    ensures { result ≡ number_in (tok token.now) }
{
    capped_label(integer_of_kind(&token.kind))
}

/// A quoted text.
fn text_of(token: &Token) -> &[u8]
    ensures { result.now ≡ kind_text token.now.kind }
{
    match &token.kind {
        TokenKind::Quoted(text) => text.as_bytes(),
        _ => &[],
    }
}

/// The first character of a quoted text.
pub fn letter_at(token: &Token) -> u8
    ensures { result ≡ first_letter (text_in (tok token.now)) }
{
    match text_of(token) {
        [] => 0,
        [first, ..] => *first,
    }
}

/// The word or words of a type.
pub fn type_token<'a>(reader: &mut Reader<'a>) -> Result<&'a Token, GiveUp>
    ensures { IfOk result (λ token. Reads (nonterminal_symbol nonterminals.TypeWord) reader.old (tok token.now) reader.new) }
{
    if is_at(reader, Terminal::Type) {
        return Ok(take_token(reader, Terminal::Type)?);
    }
    let token = take_token(reader, Terminal::Double)?;
    take_token(reader, Terminal::Precision)?;
    Ok(token)
}

/// The type that a word gives.
pub fn type_at(token: &Token) -> TypeWord
    ensures { result ≡ type_word (tok token.now) }
{
    if kind_is(b"INTEGER", &token.kind) {
        TypeWord::Integer
    } else if kind_is(b"LOGICAL", &token.kind) {
        TypeWord::Logical
    } else {
        TypeWord::Other
    }
}

/// Whether the word is NEXT.
pub fn is_next(token: &Token) -> bool
    ensures { result ≡ is_word (codes "NEXT") (tok token.now) }
{
    kind_is(b"NEXT", &token.kind)
}

/// Whether the word is READ.
pub fn is_read(token: &Token) -> bool
    ensures { result ≡ is_word (codes "READ") (tok token.now) }
{
    kind_is(b"READ", &token.kind)
}
