// Linked units with the memory of their run.
ghost use Rattle.std.specs.Prelude.{IfOk};
ghost use Rattle.linker.specs.Rules.{program_of};
ghost use Rattle.machine.specs.Runs.{IsSoundProgram};
ghost use Rattle.machine.specs.Loading.{IsLoaded};

use crate::code::code_of;
use f66_tree::Unit;
use ground::{Memory, Place};
use runner::Runner;
use std::alloc::Global;

/// Loads sound units that link, whose text ends at `finish`: their stack code with all the memory that its run needs, in which at
/// most so many statements may begin. An error is want of memory.
pub fn load(alloc: Global, units: &[Unit], finish: Place, steps: u64) -> Result<Runner, Memory>
    requires { IsSoundProgram (program_of units.now finish) }
    ensures { IfOk result (λ r. IsLoaded (program_of units.now finish) steps r) }
{
    let code = code_of(alloc, units, finish)?;
    Runner::new(alloc, code, steps)
}
