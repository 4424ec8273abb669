// The rule that each name is given once: to a unit, to an intrinsic function, or to a common block.
ghost use Rattle.std.specs.Prelude.{◌≡◌, MatchOption, map};
ghost use Rattle.std.specs.List.{list_any};
ghost use Rattle.f66_tree.specs.Views.{act_of, area_of, header_of, routine_of};
ghost use Rattle.ground.specs.declared.place.Place.{Place as APlace};
ghost use Rattle.ground.specs.declared.fault.FaultKind.TheVariants.{DuplicateUnit as IsDuplicateUnit};
ghost use Rattle.linker.specs.CallViews.{AreCalls, units_in};
ghost use Rattle.linker.specs.Repeats.{act_repeats, block_repeats, header_repeats, is_taken, is_there, AreClear, IsClearUnit, IsFirstIn, IsFirstRepeat};
ghost use Rattle.linker.specs.Rules.{IsFirstBroken, IsKept, program_of};

use crate::calls::Calls;
use crate::tells::fault_at;
use f66_mentions::is_intrinsic;
use f66_tree::{Area, Header, Name, StmtKind, Unit};
use ground::{Fault, FaultKind, Place};
use rule_table::is_below;

/// The fault of the first unit that has the name of an earlier one or of an intrinsic function, or COMMON that names a block
/// with the name of a unit; or none (X3.9-1966, section 10.1).
pub fn duplicate_unit(calls: &Calls) -> Option<Fault>
    requires { AreCalls calls.now }
    ensures { (finish : APlace) → MatchOption result (IsKept IsDuplicateUnit (program_of calls.now.units.now finish)) (IsFirstBroken IsDuplicateUnit (program_of calls.now.units.now finish)) }
{
    match first_repeat(calls) {
        Some(place) => Some(fault_at(FaultKind::DuplicateUnit, place)),
        None => None,
    }
}

/// Where the first part stands that gives a name once more.
fn first_repeat(calls: &Calls) -> Option<Place>
    requires { AreCalls calls.now }
    ensures { MatchOption result (AreClear (units_in calls.now)) (IsFirstRepeat (units_in calls.now)) }
{
    for (number, unit) in calls.units.iter().enumerate() {
        if let Some(place) = first_in_unit(calls, number, unit) {
            return Some(place);
        }
    }
    None
}

/// Where the first part of a unit stands that does.
fn first_in_unit(calls: &Calls, number: usize, unit: &Unit) -> Option<Place>
    requires { AreCalls calls.now }
    ensures { MatchOption result (IsClearUnit (units_in calls.now) number (routine_of unit.now)) (IsFirstIn (units_in calls.now) number (routine_of unit.now)) }
{
    if repeats_header(calls, number, &unit.header) {
        return Some(unit.place);
    }
    for statement in &unit.statements {
        if repeats_block(calls, &statement.kind) {
            return Some(statement.place);
        }
    }
    None
}

/// Whether the unit with a number and a header has the name of an earlier one or of an intrinsic function.
fn repeats_header(calls: &Calls, number: usize, header: &Header) -> bool
    requires { AreCalls calls.now }
    ensures { result ≡ header_repeats (units_in calls.now) number (header_of header.now) }
{
    match header {
        Header::Sub(name, _) => is_taken(calls, number, name),
        Header::Func(_, name, _) => is_taken(calls, number, name),
        _ => false,
    }
}

fn is_taken(calls: &Calls, number: usize, name: &Name) -> bool
    requires { AreCalls calls.now }
    ensures { result ≡ is_taken (units_in calls.now) number name.now }
{
    is_below(number, calls.numbers.get(name.as_bytes()).copied()) || is_intrinsic(name)
}

/// Whether a statement is a COMMON that names a block with the name of a unit.
fn repeats_block(calls: &Calls, kind: &StmtKind) -> bool
    requires { AreCalls calls.now }
    ensures { result ≡ act_repeats (units_in calls.now) (act_of kind.now) }
{
    match kind {
        StmtKind::Common(areas) => names_unit(calls, areas),
        _ => false,
    }
}

fn names_unit(calls: &Calls, areas: &[Area]) -> bool
    requires { AreCalls calls.now }
    ensures { result ≡ list_any (λ a. block_repeats (units_in calls.now) a.name) (map area_of areas.now) }
{
    for area in areas {
        if is_unit(calls, &area.name) {
            return true;
        }
    }
    false
}

/// Whether a block has the name of a unit. Blank common has no name.
fn is_unit(calls: &Calls, block: &Option<Name>) -> bool
    requires { AreCalls calls.now }
    ensures { result ≡ block_repeats (units_in calls.now) block.now }
{
    match block {
        Some(name) => is_there(calls, name),
        None => false,
    }
}

fn is_there(calls: &Calls, name: &Name) -> bool
    requires { AreCalls calls.now }
    ensures { result ≡ is_there (units_in calls.now) name.now }
{
    calls.numbers.contains_key(name.as_bytes())
}
