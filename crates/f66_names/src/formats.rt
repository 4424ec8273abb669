// The rules of formats.
ghost use Rattle.std.specs.Prelude.{◌≡◌, ◌&&◌};
ghost use Rattle.f66_tree.specs.Fields.{NoField, Group};
ghost use Rattle.f66_tree.specs.Views.{field_then, fields_of, act_of};
ghost use Rattle.f66_names.specs.StoreRules.{is_between, are_fit, is_sound_format, has_bad_format};

use f66_tree::{Field, StmtKind};

/// Whether a count or a width of a format is too small or too large, or its groups nest too deep (X3.9-1966, section 7.2.3).
pub fn has_bad_format(kind: &StmtKind) -> bool
    ensures { result ≡ has_bad_format (act_of kind.now) }
{
    match kind {
        StmtKind::Format(fields) => !is_format(fields),
        _ => false,
    }
}

fn is_format(fields: &[Field]) -> bool
    ensures { result ≡ is_sound_format (fields_of fields.now) }
{
    are_fit(2, fields)
}

/// Whether counts and widths have their ranges, and groups nest at most so deep.
#[cycle(are_fit)]
fn are_fit(deep: u8, fields: &[Field]) -> bool
    ensures { result ≡ are_fit deep (fields_of fields.now) }
{
    for field in fields {
        if !is_fit(deep, field) {
            return false;
        }
    }
    true
}

#[cycle(are_fit)]
fn is_fit(deep: u8, field: &Field) -> bool
    ensures { result ≡ are_fit deep (field_then field.now NoField) }
{
    match field {
        Field::Whole(count, width) => takes_fit(*count, *width),
        Field::Truth(count, width) => takes_fit(*count, *width),
        Field::Letter(count) => takes_fit(*count, 1),
        Field::Skip(count) => is_length(usize::from(*count)),
        Field::Chars(text) => is_length(text.as_bytes().len()),
        Field::Slash => true,
        Field::Group(count, inside) => is_fit_group(deep, *count, inside),
    }
}

#[cycle(are_fit)]
fn is_fit_group(deep: u8, count: u16, inside: &[Field]) -> bool
    ensures { result ≡ are_fit deep (Group count (fields_of inside.now) NoField) }
{
    deep > 0 && (is_count(count) && are_fit(deep - 1, inside))
}

/// Whether an edit that takes an item has a fit count and a fit width.
fn takes_fit(count: u16, width: u16) -> bool
    ensures { result ≡ (is_between 1 999 count && is_between 1 132 width) }
{
    is_count(count) && (1 <= width && width <= 132)
}

fn is_count(count: u16) -> bool
    ensures { result ≡ is_between 1 999 count }
{
    1 <= count && count <= 999
}

/// Whether so many blanks or characters may stand at once.
fn is_length(count: usize) -> bool
    ensures { result ≡ is_between 1 255 count }
{
    1 <= count && count <= 255
}
