// The fields of a FORMAT.
ghost use Rattle.std.specs.Prelude.{◌≡◌, IfOk, map};
ghost use Rattle.f66_tree.specs.Views.{field_then};

use ground::{List, Text};
use std::alloc::{AllocError, Global};

/// A field of a format (X3.9-1966, section 7.2.3). The first number is its count; a count or width that the text gives
/// above 65,535 stands as 65,535.
#[derive(Drop)]
pub enum Field {
    /// `rIw`.
    Whole(u16, u16),
    /// `rLw`.
    Truth(u16, u16),
    /// `rA1`.
    Letter(u16),
    /// `nX`.
    Skip(u16),
    /// `nH`, or a quoted text of Ratfor.
    Chars(Text),
    Slash,
    Group(u16, List<Field>),
}

#[cycle(copy_fields)]
fn copy_field(alloc: Global, field: &Field) -> Result<Field, AllocError>
    ensures { IfOk result (λ r. field_then r ≡ field_then field.now) }
{
    match field {
        Field::Whole(count, width) => Ok(Field::Whole(*count, *width)),
        Field::Truth(count, width) => Ok(Field::Truth(*count, *width)),
        Field::Letter(count) => Ok(Field::Letter(*count)),
        Field::Skip(count) => Ok(Field::Skip(*count)),
        Field::Chars(text) => Ok(Field::Chars(text.clone()?)),
        Field::Slash => Ok(Field::Slash),
        Field::Group(count, fields) => Ok(Field::Group(*count, copy_fields(alloc, fields)?)),
    }
}

/// The same fields once more.
#[cycle(copy_fields)]
pub fn copy_fields(alloc: Global, list: &[Field]) -> Result<List<Field>, AllocError>
    ensures { IfOk result (λ r. map field_then r.items ≡ map field_then list.now) }
{
    let mut copies = Vec::new(alloc);
    for field in list {
        let copy = copy_field(alloc, field)?;
        copies.push(copy)?;
    }
    Ok(copies)
}
