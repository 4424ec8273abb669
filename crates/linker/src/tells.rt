// Faults of linking, where they stand, and what headers say.
ghost use Rattle.std.specs.Prelude.{◌≡◌, Some};
ghost use Rattle.f66_tree.specs.Units.{dummies_of, is_main};
ghost use Rattle.f66_tree.specs.Views.{header_of, routine_of};
ghost use Rattle.f66_program.specs.Linking.{first_of, place_of_part};

use f66_tree::{Header, Name, Unit};
use ground::{Fault, FaultKind, Place};

/// A fault that is no limit's.
pub(crate) fn fault_at(kind: FaultKind, place: Place) -> Fault
    ensures kind { result.kind ≡ kind }
    ensures number { result.number ≡ 0 }
    ensures place { result.place ≡ place }
{
    Fault {
        kind,
        place,
        number: 0,
    }
}

/// The place of the first statement of a unit, or of its header where it has none.
pub(crate) fn first_place(unit: &Unit) -> Place
    ensures { place_of_part (routine_of unit.now) (first_of (routine_of unit.now)) ≡ Some result }
{
    match unit.statements.first() {
        Some(statement) => statement.place,
        None => unit.place,
    }
}

/// Whether a unit is a main.
pub(crate) fn is_main(unit: &Unit) -> bool
    ensures { result ≡ is_main (routine_of unit.now).header }
{
    matches!(unit.header, Header::Main)
}

/// The dummies of a header.
pub(crate) fn dummies_of(header: &Header) -> &[Name]
    ensures { result.now ≡ dummies_of (header_of header.now) }
{
    match header {
        Header::Sub(_, dummies) => dummies.as_slice(),
        Header::Func(_, _, dummies) => dummies.as_slice(),
        _ => &[],
    }
}
