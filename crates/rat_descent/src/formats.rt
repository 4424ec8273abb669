// The fields of a format.

ghost use Rattle.std.specs.Prelude.{◌≡◌, IfOk};
ghost use Rattle.grammar.specs.declared.language.Symbol.TheVariants.{Nonterminal as nonterminal_symbol};
ghost use Rattle.f66_tree.specs.Fields.{Single, Group, Chars};
ghost use Rattle.f66_tree.specs.Views.{field_then, fields_of};
ghost use Rattle.rat_parse_table.specs.declared.table.Nonterminal.TheVariants as nonterminals;
ghost use Rattle.rat_parse_values.specs.Values.{tok, field, fields as fields_value};
ghost use Rattle.rat_parse_values.specs.Parts.{as_fields, kind_text, count_in};
ghost use Rattle.rat_parse_values.specs.Phrases.{counted_field};
ghost use Rattle.rat_descent.specs.Reading.{Reads, Gives};
ghost use Rattle.rat_descent.specs.Formats.{Enclosed};

use crate::reader::{Reader, is_at, take_token};
use crate::tokens::{name_of, number_token};
use descent::GiveUp;
use f66_tree::Field;
use ground::{List, Token, TokenKind};
use rat_parse_table::Terminal;
use rat_parse_values::{capped_count, integer_of_kind, word_field};
use std::alloc::Global;

fn count_of(token: &Token) -> u16
    ensures { result ≡ count_in (tok token.now) }
{
    capped_count(integer_of_kind(&token.kind))
}

fn text_field(token: &Token) -> Result<Field, GiveUp>
    ensures { IfOk result (λ f. field_then f ≡ Single 1 (Chars (kind_text token.now.kind))) }
{
    match &token.kind {
        TokenKind::Quoted(text) => Ok(Field::Chars(text.clone()?)),
        _ => Err(GiveUp),
    }
}

fn group(count: u16, list: List<Field>) -> Field
    ensures { field_then result ≡ Group count (fields_of list.items) }
{
    Field::Group(count, list)
}

/// What stands before the rest of a list of fields.
#[derive(Clone, Copy)]
enum Position {
    Start,
    Edit,
    Comma,
    Slash,
}

/// Fields up to the parenthesis that closes them. So many groups may still stand inside one another.
#[cycle(fields)]
fn listed(alloc: Global, reader: &mut Reader<'_>, room: usize) -> Result<List<Field>, GiveUp>
    ensures { IfOk result (λ list. Reads (nonterminal_symbol nonterminals.Fields) reader.old (fields_value (fields_of list.items)) reader.new) }
{
    let mut list = Vec::new(alloc);
    let mut position = Position::Start;
    'more: for _ in 0..reader.rest.len() {
        match reader.seen {
            Terminal::Slash => {
                take_token(reader, Terminal::Slash)?;
                list.push(Field::Slash)?;
                position = Position::Slash;
            }
            Terminal::Comma => {
                match position {
                    Position::Start | Position::Comma => return Err(GiveUp),
                    _ => {}
                }
                take_token(reader, Terminal::Comma)?;
                position = Position::Comma;
            }
            Terminal::Close => {
                match position {
                    Position::Comma => return Err(GiveUp),
                    _ => return Ok(list),
                }
            }
            _ => {
                match position {
                    Position::Edit => return Err(GiveUp),
                    _ => {}
                }
                list.push(edit(alloc, reader, room)?)?;
                position = Position::Edit;
            }
        }
    }
    Err(GiveUp)
}

#[cycle(fields)]
fn edit(alloc: Global, reader: &mut Reader<'_>, room: usize) -> Result<Field, GiveUp>
    ensures { IfOk result (λ f. Reads (nonterminal_symbol nonterminals.Edit) reader.old (field (field_then f)) reader.new) }
{
    match reader.seen {
        Terminal::Octal | Terminal::Number => {
            let count = count_of(number_token(reader)?);
            Ok(counted(alloc, reader, room, count)?)
        }
        Terminal::Open => Ok(group(1, enclosed(alloc, reader, room)?)),
        Terminal::Letter => Ok(text_field(take_token(reader, Terminal::Letter)?)?),
        Terminal::Chars => Ok(text_field(take_token(reader, Terminal::Chars)?)?),
        _ => {
            let name = name_of(take_token(reader, Terminal::FieldWord)?)?;
            Ok(word_field(1, &name))
        }
    }
}

/// A word or a group behind its count.
#[cycle(fields)]
fn counted(alloc: Global, reader: &mut Reader<'_>, room: usize, count: u16) -> Result<Field, GiveUp>
    ensures { IfOk result (λ f. Gives nonterminals.Counted (counted_field count) reader.old (field_then f) reader.new) }
{
    if is_at(reader, Terminal::Open) {
        return Ok(group(count, enclosed(alloc, reader, room)?));
    }
    let name = name_of(take_token(reader, Terminal::FieldWord)?)?;
    Ok(word_field(count, &name))
}

/// Fields in parentheses.
#[cycle(fields)]
fn enclosed(alloc: Global, reader: &mut Reader<'_>, room: usize) -> Result<List<Field>, GiveUp>
    ensures { IfOk result (λ list. Enclosed reader.old (fields_of list.items) reader.new) }
{
    let Some(room) = room.checked_sub(1) else {
        return Err(GiveUp);
    };
    take_token(reader, Terminal::Open)?;
    let list = listed(alloc, reader, room)?;
    take_token(reader, Terminal::Close)?;
    Ok(list)
}

/// The fields of a format, without its parentheses.
pub fn fields(alloc: Global, reader: &mut Reader<'_>, room: usize) -> Result<List<Field>, GiveUp>
    ensures { IfOk result (λ list. Gives nonterminals.Fields as_fields reader.old (fields_of list.items) reader.new) }
{
    Ok(listed(alloc, reader, room)?)
}
