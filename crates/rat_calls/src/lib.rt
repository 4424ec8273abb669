//! The lowering of Ratfor once more, under the same contract: on it wrong bodies are tried.
#![tactic(auto)]

ghost use Rattle.std.specs.Prelude.{IfOk};
ghost use Rattle.rat_tree.specs.Views.{program_of};
ghost use Rattle.rat_check.specs.FirstFault.{Tells, first_fault};
ghost use Rattle.rat_lower.specs.Lowered.{AllHaveRoom};
ghost use Rattle.rat_lower.specs.Served.{AllServe};

use f66_tree::Unit;
use ground::{List, Refusal};
use rat_lower::lower;
use rat_tree::RatProgram;
use std::alloc::Global;

/// The units of FORTRAN that do what those of a program do, each in its place, or the program's first fault.
pub fn lowered(alloc: Global, program: RatProgram) -> Result<List<Unit>, Refusal>
    requires room { AllHaveRoom (program_of program).routines }
    ensures fault { Tells result (first_fault (program_of program)) }
    ensures serves { IfOk result (λ made. AllServe (program_of program).routines program.finish made.items) }
{
    lower(alloc, program)
}
