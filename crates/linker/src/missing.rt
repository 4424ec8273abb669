// The rules that each unit that is called is there, and has as many dummies as there are actuals.
ghost use Rattle.std.specs.Prelude.{MatchOption};
ghost use Rattle.ground.specs.declared.place.Place.{Place as APlace};
ghost use Rattle.ground.specs.declared.fault.FaultKind.TheVariants.{MissingUnit as IsMissingUnit, WrongCount as IsWrongCount};
ghost use Rattle.linker.specs.CallViews.{AreCalls};
ghost use Rattle.linker.specs.Rules.{IsFirstBroken, IsKept, program_of};

use crate::call_rules::first_broken;
use crate::calls::Calls;
use crate::rule::CallRule;
use crate::tells::fault_at;
use ground::{Fault, FaultKind};

/// The fault of the first call of a unit that is not in the program; or none (X3.9-1966, sections 8.3.2 and 8.4.2).
pub fn missing_unit(calls: &Calls) -> Option<Fault>
    requires { AreCalls calls.now }
    ensures { (finish : APlace) → MatchOption result (IsKept IsMissingUnit (program_of calls.now.units.now finish)) (IsFirstBroken IsMissingUnit (program_of calls.now.units.now finish)) }
{
    match first_broken(CallRule::Missing, calls) {
        Some(place) => Some(fault_at(FaultKind::MissingUnit, place)),
        None => None,
    }
}

/// The fault of the first call with another number of actuals than its unit has dummies; or none (sections 8.3.2 and 8.4.2).
pub fn wrong_count(calls: &Calls) -> Option<Fault>
    requires { AreCalls calls.now }
    ensures { (finish : APlace) → MatchOption result (IsKept IsWrongCount (program_of calls.now.units.now finish)) (IsFirstBroken IsWrongCount (program_of calls.now.units.now finish)) }
{
    match first_broken(CallRule::Counted, calls) {
        Some(place) => Some(fault_at(FaultKind::WrongCount, place)),
        None => None,
    }
}
