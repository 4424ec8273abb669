// The first fault of a whole program.
ghost use Rattle.std.specs.Prelude.{◌≡◌, OnOk, IfOk, IfErr, None, map};
ghost use Rattle.efl_tree.specs.Syntax.{Text};
ghost use Rattle.efl_tree.specs.Views.{procedure_of, program_of};
ghost use Rattle.efl_types.specs.Whole.{number_of, count_fault as count_fault_seen, TellsWhole, TellsCalls};
ghost use Rattle.efl_whole.specs.CallViews.{numbers_of as numbers_seen};
ghost use Rattle.efl_whole.specs.Names.{IsRightRefusal};

use crate::names::{first_taken, main_fault};
use crate::numbers::{Numbers, numbers_of};
use crate::procedures::calls_of;
use call_cycles::first_on_cycle;
use efl_tree::EflProgram;
use ground::{Fault, FaultKind, Refusal};
use std::alloc::{AllocError, Global};

/// Whether procedures have names of their own, one main is among them, and no call leads back to its procedure; else the first fault
/// (Feldman, The Programming Language EFL: program form; procedures).
pub fn whole(alloc: Global, program: &EflProgram) -> Result<(), Refusal>
    ensures accepted { OnOk result (TellsWhole (program_of program.now) None) }
    ensures refused { IfErr result (IsRightRefusal (program_of program.now)) }
{
    match whole_fault(alloc, program) {
        Err(_) => Err(Refusal::Memory),
        Ok(Some(fault)) => Err(Refusal::Fault(fault)),
        Ok(None) => Ok(()),
    }
}

fn whole_fault(alloc: Global, program: &EflProgram) -> Result<Option<Fault>, AllocError>
    ensures { IfOk result (λ fault. TellsWhole (program_of program.now) fault) }
{
    let numbers = numbers_of(alloc, &program.procedures)?;
    match count_fault(&numbers, program) {
        Some(fault) => Ok(Some(fault)),
        None => recursion(alloc, &numbers, program),
    }
}

/// What is told before the calls are asked.
fn count_fault(numbers: &Numbers, program: &EflProgram) -> Option<Fault>
    requires { (x : Text) → numbers_seen numbers.now x ≡ number_of (program_of program.now).procedures x }
    ensures { result ≡ count_fault_seen (program_of program.now) }
{
    match first_taken(numbers, &program.procedures) {
        Some(place) => Some(Fault::new(place, FaultKind::DuplicateUnit)),
        None => match main_fault(&program.procedures, program.finish) {
            Some(place) => Some(Fault::new(place, FaultKind::MainCount)),
            None => None,
        },
    }
}

/// The fault of the first call that leads back to its own procedure.
fn recursion(
    alloc: Global,
    numbers: &Numbers,
    program: &EflProgram,
) -> Result<Option<Fault>, AllocError>
    requires { (x : Text) → numbers_seen numbers.now x ≡ number_of (program_of program.now).procedures x }
    ensures { IfOk result (λ fault. TellsCalls (program_of program.now) fault) }
{
    let calls = calls_of(alloc, numbers, &program.procedures)?;
    match first_on_cycle(alloc, program.procedures.len(), &calls.edges)? {
        None => Ok(None),
        Some(number) => Ok(Some(Fault::new(calls.places[number], FaultKind::Recursion))),
    }
}
