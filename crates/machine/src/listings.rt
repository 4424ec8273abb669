// The printed text of linked units' stack code.
ghost use Rattle.std.specs.Prelude.{IfOk};
ghost use Rattle.linker.specs.Rules.{program_of};
ghost use Rattle.machine.specs.Runs.{IsSoundProgram};
ghost use Rattle.machine.specs.Listings.{IsListingOf};

use crate::code::code_of;
use code_listing::list_code;
use f66_tree::Unit;
use ground::{Memory, Place};
use std::alloc::Global;

/// Lists the stack code of sound units that link, whose text ends at `finish`. An error is want of memory.
pub fn listing(alloc: Global, units: &[Unit], finish: Place) -> Result<Vec<u8>, Memory>
    requires { IsSoundProgram (program_of units.now finish) }
    ensures { IfOk result (λ text. IsListingOf (program_of units.now finish) text.items) }
{
    let code = code_of(alloc, units, finish)?;
    list_code(alloc, &code)
}
