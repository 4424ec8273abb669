// From a program of Ratfor to units of FORTRAN.
ghost use Rattle.std.specs.Prelude.{◌≡◌, map, None, IfOk};
ghost use Rattle.rat_tree.specs.Views.{program_of, rat_routine_of};
ghost use Rattle.rat_check.specs.FirstFault.{Tells, first_fault, first_fault_of};
ghost use Rattle.rat_lower.specs.Lowered.{AllHaveRoom};
ghost use Rattle.rat_lower.specs.Served.{AllServe};

use crate::lower_unit;
use f66_tree::Unit;
use ground::{List, Memory, Refusal};
use rat_check::check;
use rat_tree::{RatProgram, RatUnit};
use std::alloc::Global;

/// The units of FORTRAN that do what those of a program do, each in its place, or the first fault of the checks. Each is sound
/// (X3.9-1966, sections 3 to 9). A unit of at most 20,000 tokens has room for its labels and names.
pub fn lower(alloc: Global, program: RatProgram) -> Result<List<Unit>, Refusal>
    requires room { AllHaveRoom (program_of program).routines }
    ensures fault { Tells result (first_fault (program_of program)) }
    ensures serves { IfOk result (λ made. AllServe (program_of program).routines program.finish made.items) }
{
    match check_units(alloc, &program.units) {
        Ok(()) => Ok(lower_accepted(alloc, program)?),
        Err(refusal) => Err(refusal),
    }
}

/// Checks the units one by one.
fn check_units(alloc: Global, units: &[RatUnit]) -> Result<(), Refusal>
    ensures { Tells result (first_fault_of (map rat_routine_of units.now)) }
{
    for unit in units {
        match check(alloc, unit) {
            Ok(_) => {}
            Err(refusal) => return Err(refusal),
        }
    }
    Ok(())
}

/// The same of a program in which the checks find no fault, which are not made again.
pub fn lower_accepted(alloc: Global, program: RatProgram) -> Result<List<Unit>, Memory>
    requires room { AllHaveRoom (program_of program).routines }
    requires accepted { first_fault (program_of program) ≡ None }
    ensures { IfOk result (λ made. AllServe (program_of program).routines program.finish made.items) }
{
    let RatProgram { units, finish } = program;
    let mut made = Vec::with_capacity(alloc, units.len())?;
    for unit in units {
        let unit = lower_unit(alloc, unit, finish)?;
        let Ok(()) = made.push(unit) else {
            return Err(Memory);
        };
    }
    Ok(made)
}
