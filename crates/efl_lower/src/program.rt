// From the tree of a program to its units.
ghost use Rattle.std.specs.Prelude.{◌≡◌, true, map, IfOk};
ghost use Rattle.f66_tree.specs.Views.{routine_of};
ghost use Rattle.efl_tree.specs.Views.{program_of};
ghost use Rattle.efl_scope.specs.Parts.{program_parts};
ghost use Rattle.efl_scope.specs.Marks.{program_variables};
ghost use Rattle.efl_built.specs.Unbuilt.{are_built};
ghost use Rattle.efl_variables.specs.Numbered.{AreVariables};
ghost use Rattle.efl_lower.specs.Lowered.{made_of};

use efl_tree::EflProgram;
use efl_typing::typed_bodies;
use efl_units::units;
use efl_variables::Variables;
use f66_tree::Unit;
use ground::List;
use std::alloc::{AllocError, Global};

/// The units of a program whose forms are all built, by the numbers of its variables (Feldman, The Programming Language EFL, 1979).
pub fn lower(
    alloc: Global,
    program: &EflProgram,
    variables: &Variables,
) -> Result<List<Unit>, AllocError>
    ensures { IfOk result (λ units. are_built (program_parts (program_of program.now)) ≡ true → AreVariables (program_variables (program_of program.now)) variables.now →
        map routine_of units.items ≡ (made_of (program_of program.now)).units) }
{
    let bodies = typed_bodies(alloc, program, variables)?;
    units(alloc, program, variables, &bodies)
}
