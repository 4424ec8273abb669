// The stack code of linked units.
ghost use Rattle.std.specs.Prelude.{◌≡◌, map, IfOk};
ghost use Rattle.f66_tree.specs.Views.{routine_of};
ghost use Rattle.linker.specs.Rules.{program_of};
ghost use Rattle.whole_program.specs.Linked.{IsLinked};
ghost use Rattle.machine.specs.Runs.{IsSoundProgram, Codes};

use code_gen::{code_behaves, ranked_is_program};
use code_layout::compile;
use f66_tree::Unit;
use ground::{Memory, Place, Refusal};
use linked_soundness::linked_never_wrong;
use sound_units::sound_is_ready;
use stack_code::{Code, runs_once};
use std::alloc::Global;
use whole_program::{Linked, link, linked_is_linkage};

/// The tables of units that link. An error is want of memory.
fn linked<'a>(alloc: Global, units: &'a [Unit], finish: Place) -> Result<Linked<'a>, Memory>
    requires { IsSoundProgram (program_of units.now finish) }
    ensures units { IfOk result (λ l. l.calls.units.now ≡ units.now) }
    ensures linked { IfOk result (λ l. IsLinked (map routine_of units.now) l) }
{
    sound_is_ready();
    match link(alloc, units, finish) {
        Ok(linked) => Ok(linked),
        Err(Refusal::Memory) => Err(Memory),
        Err(Refusal::Fault(_)) => unreachable!(),
    }
}

/// The stack code of sound units that link, whose text ends at `finish`. An error is want of memory.
pub fn code_of(alloc: Global, units: &[Unit], finish: Place) -> Result<Code, Memory>
    requires { IsSoundProgram (program_of units.now finish) }
    ensures { IfOk result (λ code. Codes (program_of units.now finish) code) }
{
    code_behaves();
    ranked_is_program();
    linked_never_wrong();
    runs_once();
    linked_is_linkage();
    let linked = linked(alloc, units, finish)?;
    compile(alloc, &linked)
}
