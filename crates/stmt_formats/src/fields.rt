// What the items of a FORMAT mean.
ghost use Rattle.std.specs.Prelude.{◌≡◌, IfOk};
ghost use Rattle.std.specs.List.{list_all};
ghost use Rattle.stmt_reader.specs.Acts.{act_if};
ghost use Rattle.stmt_reader.specs.Formats.{Ends, Nest, Then, count_of as count_in, edit_of, field_of, fields_of, grouped, format_of as format_of_tokens, small as small_of, value_after, width_of as width_in};
ghost use Rattle.stmt_reader.specs.Levels.{is_digit as is_digit_character};
ghost use Rattle.stmt_formats.specs.States.{IsAdded, field_if, fields_if, format_of_inside, format_of_items, item_of, items_of, meaning_of};

use crate::commas::are_separated;
use crate::items::Item;
use crate::places::read_items;
use f66_tree::{Field, StmtKind};
use ground::List;
use std::alloc::{AllocError, Global};
use stmt_reader::Token;

/// The greatest count or width of a tree.
const GREATEST: u32 = 65_535;

/// What an item means: nothing, no field, or a field.
#[derive(Drop)]
pub enum Meaning {
    Wrong,
    Point,
    One(Field),
}

/// A FORMAT, behind its word.
pub fn read_format(alloc: Global, tokens: &[Token]) -> Result<Option<StmtKind>, AllocError>
    ensures { IfOk result (λ s. act_if s ≡ format_of_tokens tokens.now) }
{
    let Some(items) = read_items(alloc, tokens)? else {
        return Ok(None);
    };
    format_in(alloc, &items)
}

/// The fields of a format that is one pair of parentheses.
fn format_in(alloc: Global, items: &[Item]) -> Result<Option<StmtKind>, AllocError>
    ensures { IfOk result (λ s. act_if s ≡ format_of_items (items_of items.now)) }
{
    if items.len() >= 2 {
        return Ok(None);
    }
    match items {
        [item] => format_of(alloc, item),
        _ => Ok(None),
    }
}

fn format_of(alloc: Global, item: &Item) -> Result<Option<StmtKind>, AllocError>
    ensures { IfOk result (λ s. act_if s ≡ format_of_items (Then (item_of item.now) Ends)) }
{
    match item {
        Item::Nest(count, inside) => format_nest(alloc, *count, inside),
        _ => Ok(None),
    }
}

fn format_nest(
    alloc: Global,
    count: Option<u32>,
    inside: &[Item],
) -> Result<Option<StmtKind>, AllocError>
    ensures { IfOk result (λ s. act_if s ≡ format_of_items (Then (Nest count (items_of inside.now)) Ends)) }
{
    match count {
        None => format_inside(alloc, inside),
        Some(_) => Ok(None),
    }
}

fn format_inside(alloc: Global, inside: &[Item]) -> Result<Option<StmtKind>, AllocError>
    ensures { IfOk result (λ s. act_if s ≡ format_of_inside (items_of inside.now)) }
{
    if !are_separated(inside) {
        return Ok(None);
    }
    match fields(alloc, inside)? {
        None => Ok(None),
        Some(fields) => Ok(Some(StmtKind::Format(fields))),
    }
}

#[cycle(fields)]
fn fields(alloc: Global, items: &[Item]) -> Result<Option<List<Field>>, AllocError>
    ensures { IfOk result (λ r. fields_if r ≡ fields_of (items_of items.now)) }
{
    let mut fields = Vec::new(alloc);
    for item in items {
        let meaning = meaning_in(alloc, item)?;
        if !add(&mut fields, meaning)? {
            return Ok(None);
        }
    }
    Ok(Some(fields))
}

#[cycle(fields)]
fn meaning_in(alloc: Global, item: &Item) -> Result<Meaning, AllocError>
    ensures { IfOk result (λ m. meaning_of m ≡ field_of (item_of item.now)) }
{
    match item {
        Item::Point => Ok(Meaning::Point),
        Item::Stroke => Ok(Meaning::One(Field::Slash)),
        Item::Words(text) => Ok(Meaning::One(Field::Chars(text.clone()?))),
        Item::Edit(count, word) => Ok(one(edit(*count, word.as_bytes()))),
        Item::Nest(count, inside) => Ok(group(*count, fields(alloc, inside)?)),
    }
}

fn one(field: Option<Field>) -> Meaning
    ensures { meaning_of result ≡ field_if field }
{
    match field {
        None => Meaning::Wrong,
        Some(field) => Meaning::One(field),
    }
}

/// A group with its count.
fn group(count: Option<u32>, fields: Option<List<Field>>) -> Meaning
    ensures { meaning_of result ≡ grouped count (fields_if fields) }
{
    match fields {
        None => Meaning::Wrong,
        Some(fields) => Meaning::One(Field::Group(count_of(count), fields)),
    }
}

/// Adds what an item means; a comma means no field.
fn add(fields: &mut Vec<Field>, meaning: Meaning) -> Result<bool, AllocError>
    ensures { IfOk result (λ b. IsAdded b fields.old.items fields.new.items (meaning_of meaning)) }
{
    match meaning {
        Meaning::Wrong => Ok(false),
        Meaning::Point => Ok(true),
        Meaning::One(field) => {
            fields.push(field)?;
            Ok(true)
        }
    }
}

/// `Iw`, `Lw`, `A1` and `X`.
fn edit(count: Option<u32>, word: &[u8]) -> Option<Field>
    ensures { field_if result ≡ edit_of count word.now }
{
    match word {
        [b'I', width @ ..] => Some(Field::Whole(count_of(count), width_of(width)?)),
        [b'L', width @ ..] => Some(Field::Truth(count_of(count), width_of(width)?)),
        [b'A', b'1'] => Some(Field::Letter(count_of(count))),
        [b'X'] => Some(Field::Skip(count_of(count))),
        _ => None,
    }
}

/// A count above 65535 stands as 65535.
fn count_of(count: Option<u32>) -> u16
    ensures { result ≡ count_in count }
{
    match count {
        None => 1,
        Some(n) => small(n),
    }
}

fn small(n: u32) -> u16
    ensures { result ≡ small_of n }
{
    if n > GREATEST { 65_535 } else { n as u16 }
}

/// The width of an edit: a digit or more.
fn width_of(digits: &[u8]) -> Option<u16>
    ensures { result ≡ width_in digits.now }
{
    if digits.is_empty() || !are_digits(digits) {
        return None;
    }
    Some(small_value(digits))
}

fn are_digits(digits: &[u8]) -> bool
    ensures { result ≡ list_all is_digit_character digits.now }
{
    digits.iter().all(|c| is_digit(*c))
}

fn is_digit(c: u8) -> bool
    ensures { result ≡ is_digit_character c }
{
    b'0' <= c && c <= b'9'
}

/// The value of digits; above 65535 it stands as 65535.
fn small_value(digits: &[u8]) -> u16
    ensures { result ≡ small_of (value_after 0 digits.now) }
{
    let mut value: u32 = 0;
    for c in digits {
        if value > GREATEST {
            return 65_535;
        }
        value = value * 10 + u32::from(c.saturating_sub(b'0'));
    }
    small(value)
}
