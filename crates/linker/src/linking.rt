// The rules on names and calls, in the order in which they are asked.
ghost use Rattle.std.specs.Prelude.{◌≡◌, IfOk, IfErr, MatchOption};
ghost use Rattle.linker.specs.CallViews.{AreCalls};
ghost use Rattle.linker.specs.Order.{AreCallsKept, IsCallFault, IsCallRefusal};
ghost use Rattle.linker.specs.Rules.{program_of};

use crate::calls::{Calls, calls_of};
use crate::clashes::type_clash;
use crate::duplicates::duplicate_unit;
use crate::mains::main_count;
use crate::missing::{missing_unit, wrong_count};
use crate::recursion::first_recursion;
use f66_tree::Unit;
use ground::{Fault, Place, Refusal};
use std::alloc::{AllocError, Global};

/// The calls of units whose text ends there, in which each name is given once, there is one main, each unit that is called is there,
/// actuals and dummies agree, and no call leads back; or the first fault (X3.9-1966, sections 8.3, 8.4, 9.1 and 10.1).
pub fn link_calls<'a>(alloc: Global, units: &'a [Unit], finish: Place) -> Result<Calls<'a>, Refusal>
    ensures units { IfOk result (λ c. c.units.now ≡ units.now) }
    ensures calls { IfOk result (λ c. AreCalls c) }
    ensures kept { IfOk result (λ c. AreCallsKept (program_of units.now finish)) }
    ensures refused { IfErr result (λ e. IsCallRefusal (program_of units.now finish) e) }
{
    let calls = calls_of(alloc, units)?;
    match call_fault(alloc, &calls, finish)? {
        Some(fault) => Err(Refusal::Fault(fault)),
        None => Ok(calls),
    }
}

/// The first fault of a program by one of these rules; or none.
fn call_fault(alloc: Global, calls: &Calls, finish: Place) -> Result<Option<Fault>, AllocError>
    requires { AreCalls calls.now }
    ensures { IfOk result (λ o. MatchOption o (AreCallsKept (program_of calls.now.units.now finish)) (IsCallFault (program_of calls.now.units.now finish))) }
{
    if let Some(fault) = duplicate_unit(calls) {
        return Ok(Some(fault));
    }
    if let Some(fault) = main_count(calls.units, finish) {
        return Ok(Some(fault));
    }
    if let Some(fault) = missing_unit(calls) {
        return Ok(Some(fault));
    }
    if let Some(fault) = type_clash(alloc, calls)? {
        return Ok(Some(fault));
    }
    if let Some(fault) = wrong_count(calls) {
        return Ok(Some(fault));
    }
    match first_recursion(alloc, calls)? {
        Some(fault) => Ok(Some(fault)),
        None => Ok(None),
    }
}
