// What names with arguments are.
ghost use Rattle.std.specs.Prelude.{◌≡◌};
ghost use Rattle.std.specs.Str.{bytes_eq};
ghost use Rattle.f66_tree.specs.Evaluation.{known, intrinsics, sort_of};
ghost use Rattle.code_gen.specs.Expressions.{function_number};
ghost use Rattle.code_emit.specs.Sorts.{intrinsic_in, sort_in};

use crate::coded_unit::NamedUnit;
use f66_tree::{Name, Par};

/// The intrinsic functions of integers (X3.9-1966, section 8.2).
#[derive(Clone, Copy)]
pub(crate) enum Known {
    Iabs,
    Mod,
    Isign,
    Idim,
    Max0,
    Min0,
}

/// What a name with arguments is: an array with its dimensions, an intrinsic function, or a function of the program.
#[derive(Clone, Copy)]
pub(crate) enum NameSort<'a> {
    Array(&'a [Par]),
    Intrinsic(Known),
    Function,
}

/// The number of an intrinsic function in stack code.
pub(crate) fn number_of(known: Known) -> u8
    ensures { result ≡ function_number (intrinsic_in known) }
{
    match known {
        Known::Iabs => 0,
        Known::Mod => 1,
        Known::Isign => 2,
        Known::Idim => 3,
        Known::Max0 => 4,
        Known::Min0 => 5,
    }
}

fn is_text(name: &Name, text: &[u8]) -> bool
    ensures { result ≡ bytes_eq text.now name.now }
{
    text == name.as_bytes()
}

fn plain_sort<'a>(name: &Name) -> NameSort<'a>
    ensures { sort_in result ≡ known intrinsics name.now }
{
    if is_text(name, b"IABS") {
        NameSort::Intrinsic(Known::Iabs)
    } else if is_text(name, b"MOD") {
        NameSort::Intrinsic(Known::Mod)
    } else if is_text(name, b"ISIGN") {
        NameSort::Intrinsic(Known::Isign)
    } else if is_text(name, b"IDIM") {
        NameSort::Intrinsic(Known::Idim)
    } else if is_text(name, b"MAX0") {
        NameSort::Intrinsic(Known::Max0)
    } else if is_text(name, b"MIN0") {
        NameSort::Intrinsic(Known::Min0)
    } else {
        NameSort::Function
    }
}

/// What a name with arguments is in a unit.
pub(crate) fn sort<'a, U: NamedUnit>(unit: &'a U, name: &Name) -> NameSort<'a>
    ensures { sort_in result ≡ sort_of ((U.layout unit.now).linked.context (U.number unit.now)) name.now }
{
    let sizes = unit.sizes(name);
    if sizes.is_empty() {
        plain_sort(name)
    } else {
        NameSort::Array(sizes)
    }
}
