// The texts of formats.
ghost use Rattle.std.specs.Prelude.{◌≡◌, ◌||◌, ◌∷◌, map, if◌then◌else◌};
ghost use Rattle.f66_tree.specs.Fields.{Group, NoField};
ghost use Rattle.f66_tree.specs.Syntax.{Format};
ghost use Rattle.f66_tree.specs.Views.{field_then, strung};
ghost use Rattle.stmt_text.specs.Breaks.{is_break as is_slash_field};
ghost use Rattle.stmt_text.specs.Emitting.{Emits};
ghost use Rattle.stmt_text.specs.Characters.{comma};
ghost use Rattle.stmt_text.specs.Texts.{act_text, count_text, fields_text};

use crate::writer::{StatementText, push, push_all, push_number};
use f66_tree::Field;

/// Adds a FORMAT.
pub fn push_format(out: &mut StatementText, fields: &[Field]) -> Option<()>
    ensures { Emits result out.old.items out.new.items (act_text (Format (strung (map field_then fields.now)))) }
{
    push_all(out, b"FORMAT(")?;
    push_fields(out, fields)?;
    push(out, b')')
}

/// Fields, with commas where they are needed.
#[cycle(fields)]
fn push_fields(out: &mut StatementText, list: &[Field]) -> Option<()>
    ensures { Emits result out.old.items out.new.items (fields_text (strung (map field_then list.now))) }
{
    let mut free = true;
    for field in list {
        push_member(out, free, field)?;
        free = is_break(field);
    }
    Some(())
}

/// A field, with a comma before it where neither it nor what stands before is a slash.
#[cycle(fields)]
fn push_member(out: &mut StatementText, free: bool, field: &Field) -> Option<()>
    ensures { Emits result out.old.items out.new.items (λ k. if free || is_slash_field field.now then fields_text (field_then field.now NoField) k else comma ∷ fields_text (field_then field.now NoField) k) }
{
    if free || is_break(field) {
        return push_field(out, field);
    }
    push(out, b',')?;
    push_field(out, field)
}

#[cycle(fields)]
fn push_field(out: &mut StatementText, field: &Field) -> Option<()>
    ensures { Emits result out.old.items out.new.items (fields_text (field_then field.now NoField)) }
{
    match field {
        Field::Whole(count, width) => {
            push_count(out, *count)?;
            push(out, b'I')?;
            push_number(out, u64::from(*width))
        }
        Field::Truth(count, width) => {
            push_count(out, *count)?;
            push(out, b'L')?;
            push_number(out, u64::from(*width))
        }
        Field::Letter(count) => {
            push_count(out, *count)?;
            push(out, b'A')?;
            push_number(out, 1)
        }
        Field::Skip(count) => {
            push_number(out, u64::from(*count))?;
            push(out, b'X')
        }
        Field::Chars(text) => {
            push_number(out, text.as_bytes().len() as u64)?;
            push(out, b'H')?;
            push_all(out, text.as_bytes())
        }
        Field::Slash => push(out, b'/'),
        Field::Group(count, fields) => push_nest(out, *count, fields),
    }
}

/// A group with its count.
#[cycle(fields)]
fn push_nest(out: &mut StatementText, count: u16, fields: &[Field]) -> Option<()>
    ensures { Emits result out.old.items out.new.items (fields_text (Group count (strung (map field_then fields.now)) NoField)) }
{
    push_count(out, count)?;
    push(out, b'(')?;
    push_fields(out, fields)?;
    push(out, b')')
}

/// A count, which is left out where it is 1.
fn push_count(out: &mut StatementText, count: u16) -> Option<()>
    ensures { Emits result out.old.items out.new.items (count_text count) }
{
    if count == 1 {
        return Some(());
    }
    push_number(out, u64::from(count))
}

fn is_break(field: &Field) -> bool
    ensures { result ≡ is_slash_field field.now }
{
    match field {
        Field::Slash => true,
        _ => false,
    }
}
