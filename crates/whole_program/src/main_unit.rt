// The main of a program.
ghost use Rattle.std.specs.Prelude.{◌≡◌, MatchOption, length, map};
ghost use Rattle.f66_tree.specs.Units.{is_main};
ghost use Rattle.f66_tree.specs.Views.{routine_of};
ghost use Rattle.linker.specs.Mains.{HasNoMain, IsMainAt};

use f66_tree::{Header, Unit};

/// The number of the first main; none where there is none.
pub(crate) fn main_of(units: &[Unit]) -> Option<usize>
    ensures { MatchOption result (HasNoMain (map routine_of units.now) (length units.now)) (IsMainAt (map routine_of units.now)) }
{
    for (number, unit) in units.iter().enumerate() {
        if is_main(unit) {
            return Some(number);
        }
    }
    None
}

fn is_main(unit: &Unit) -> bool
    ensures { result ≡ is_main (routine_of unit.now).header }
{
    matches!(unit.header, Header::Main)
}
