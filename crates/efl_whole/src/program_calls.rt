// The calls of a program, from procedures to others.
ghost use Rattle.std.specs.Prelude.{◌≡◌, IfOk};
ghost use Rattle.efl_tree.specs.Views.{program_of};
ghost use Rattle.efl_types.specs.Whole.{edges_of};

use crate::numbers::numbers_of;
use crate::procedures::calls_of;
use call_cycles::Edge;
use efl_tree::EflProgram;
use std::alloc::{AllocError, Global};

/// All calls of a program in reading order, by the numbers of the procedures.
pub fn edges(alloc: Global, program: &EflProgram) -> Result<Vec<Edge>, AllocError>
    ensures { IfOk result (λ edges. edges.items ≡ edges_of (program_of program.now)) }
{
    let numbers = numbers_of(alloc, &program.procedures)?;
    let calls = calls_of(alloc, &numbers, &program.procedures)?;
    Ok(calls.edges)
}
