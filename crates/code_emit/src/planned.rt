// The code of a program with the plans of its formats.
ghost use Rattle.std.specs.Prelude.{◌≡◌, ◌≤◌, ◌∷◌, ℕ, List, All, IfOk, map};
ghost use Rattle.format_io.specs.Places.{depth};
ghost use Rattle.code_gen.specs.Layout.{Layout};
ghost use Rattle.code_gen.specs.Behaves.{program};
ghost use Rattle.code_emit.specs.Plans.{all_formats, formats_in};
ghost use Rattle.code_emit.specs.Planned.{program_in};
ghost use Rattle.code_emit.specs.Units.{AllEntered, AllPlanned};

use crate::coded_unit::NamedUnit;
use crate::formats::program_plans;
use crate::units::program_code;
use format_io::Plan;
use ground::Memory;
use stack_code::Op;
use std::alloc::Global;

/// Code, and the plans by which it reads and writes.
#[derive(Drop)]
pub struct PlannedCode {
    pub ops: Vec<Op>,
    pub plans: Vec<Plan>,
}

/// The code and the plans of the units of a program, of which the main is the first.
pub fn code_program<N: NamedUnit>(alloc: Global, units: &[N]) -> Result<PlannedCode, Memory>
    requires entered { AllEntered N.layout N.number 0 units.now }
    requires planned { AllPlanned N.layout N.number 0 units.now }
    requires shallow { All (λ v. All (λ f. depth f ≤ 2) (formats_in ((N.layout v).lines (N.number v)))) units.now }
    ensures { IfOk result (λ made. (y : Layout) (others : List ℕ) → All (λ v. N.layout v ≡ y) units.now → map N.number units.now ≡ y.linked.main ∷ others →
        program_in made ≡ program y others (all_formats y.lines (y.linked.main ∷ others))) }
{
    let ops = program_code(alloc, units)?;
    let plans = program_plans(alloc, units)?;
    Ok(PlannedCode { ops, plans })
}
