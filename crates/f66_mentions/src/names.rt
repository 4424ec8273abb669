// What names are in a unit.
ghost use Rattle.std.specs.Prelude.{◌≡◌, map};
ghost use Rattle.std.specs.Str.{bytes_eq};
ghost use Rattle.f66_tree.specs.Units.{sizes_of};
ghost use Rattle.f66_tree.specs.Views.{header_of, par_of};
ghost use Rattle.f66_program.specs.Linking.{is_intrinsic};
ghost use Rattle.f66_program.specs.Mentions.{is_dummy};
ghost use Rattle.f66_mentions.specs.UnitViews.{context_in};

use crate::unit_names::UnitNames;
use f66_tree::{Name, Par};
use name_tables::value_of;

/// The dimensions of a name, of which a variable has none.
pub fn sizes_of<'a>(names: &UnitNames<'a>, name: &[u8]) -> &'a [Par]
    ensures { map par_of result.now ≡ sizes_of name.now (context_in names.now).notes }
{
    match value_of(&names.dims, name) {
        Some(sizes) => sizes,
        None => &[],
    }
}

/// Whether a name is a dummy of the unit.
pub fn is_dummy(names: &UnitNames, name: &[u8]) -> bool
    ensures { result ≡ is_dummy name.now (header_of names.now.unit.now.header) }
{
    value_of(&names.dummies, name).is_some()
}

fn is_text(name: &Name, text: &[u8]) -> bool
    ensures { result ≡ bytes_eq text.now name.now }
{
    text == name.as_bytes()
}

/// Whether a name is that of an intrinsic function (X3.9-1966, section 8.2).
pub fn is_intrinsic(name: &Name) -> bool
    ensures { result ≡ is_intrinsic name.now }
{
    is_text(name, b"IABS")
        || is_text(name, b"MOD")
        || is_text(name, b"ISIGN")
        || is_text(name, b"IDIM")
        || is_text(name, b"MAX0")
        || is_text(name, b"MIN0")
}
