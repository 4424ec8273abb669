// The units of a program.
ghost use Rattle.std.specs.Prelude.{◌≡◌, [], ◌∷◌, ◌++◌, map, slice_get, IfOk, OnOk, Some};
ghost use Rattle.f66_tree.specs.Views.{routine_of};
ghost use Rattle.efl_tree.specs.Syntax.{EflProgram as Program};
ghost use Rattle.efl_tree.specs.Views.{procedure_of, program_of};
ghost use Rattle.efl_scope.specs.Marks.{program_variables};
ghost use Rattle.efl_typed.specs.Typing.{bodies_of};
ghost use Rattle.efl_typed_tree.specs.Views.{stmts_of};
ghost use Rattle.efl_typing.specs.Bodies.{AreBodies};
ghost use Rattle.efl_variables.specs.Numbered.{AreVariables};
ghost use Rattle.efl_lowered.specs.Lowering.{unit_of, units_of};
ghost use Rattle.efl_naming.specs.Choice.{naming_of};
ghost use Rattle.efl_units.specs.TypedViews.{AreTyped};
ghost use Rattle.efl_units.specs.Units.{HasNames};

use crate::{Typed, name_unit, program_naming, typed_program, unit};
use efl_emit::Naming;
use efl_tree::{EflProcedure, EflProgram};
use efl_typed_tree::TypedStmt;
use efl_variables::Variables;
use f66_tree::Unit;
use ground::List;
use std::alloc::{AllocError, Global};

/// The units of a program, by its bodies.
pub fn units(
    alloc: Global,
    program: &EflProgram,
    variables: &Variables,
    bodies: &[List<TypedStmt>],
) -> Result<List<Unit>, AllocError>
    ensures { IfOk result (λ units. AreVariables (program_variables (program_of program.now)) variables.now → AreBodies (program_of program.now) bodies.now →
        map routine_of units.items ≡ units_of (naming_of (program_of program.now)) (program_of program.now)) }
{
    let typed = typed_program(alloc, program, variables)?;
    let mut naming = program_naming(alloc, program, variables)?;
    let mut units = Vec::new(alloc);
    for (number, procedure) in program.procedures.iter().enumerate() {
        put_unit(
            alloc,
            &mut naming,
            &typed,
            variables,
            number,
            procedure,
            bodies,
            &mut units,
        )?;
    }
    Ok(units)
}

// The unit of the next procedure comes behind the others.
fn put_unit<'a>(
    alloc: Global,
    naming: &mut Naming<'a>,
    typed: &Typed,
    variables: &Variables,
    number: usize,
    procedure: &EflProcedure,
    bodies: &'a [List<TypedStmt>],
    units: &mut List<Unit>,
) -> Result<(), AllocError>
    ensures kept { OnOk result ((p : Program) → HasNames p naming.old → HasNames p naming.new) }
    ensures put { OnOk result ((p : Program) → AreVariables (program_variables p) variables.now → AreBodies p bodies.now → AreTyped p typed.now → HasNames p naming.old → slice_get p.procedures number ≡ Some (procedure_of procedure.now) →
        map routine_of units.new.items ≡ map routine_of units.old.items ++ unit_of (naming_of p) p number (procedure_of procedure.now) ∷ []) }
{
    match bodies.get(number) {
        None => Ok(()),
        Some(body) => {
            let unit = next_unit(alloc, naming, typed, variables, number, procedure, body)?;
            units.push(unit)?;
            Ok(())
        }
    }
}

// The unit of the next procedure.
fn next_unit<'a>(
    alloc: Global,
    naming: &mut Naming<'a>,
    typed: &Typed,
    variables: &Variables,
    number: usize,
    procedure: &EflProcedure,
    body: &'a [TypedStmt],
) -> Result<Unit, AllocError>
    ensures kept { OnOk result ((p : Program) → HasNames p naming.old → HasNames p naming.new) }
    ensures made { IfOk result (λ unit. (p : Program) → AreVariables (program_variables p) variables.now → AreTyped p typed.now → HasNames p naming.old → slice_get p.procedures number ≡ Some (procedure_of procedure.now) →
        stmts_of body.now ≡ bodies_of p number → routine_of unit ≡ unit_of (naming_of p) p number (procedure_of procedure.now)) }
{
    name_unit(alloc, naming, number, body)?;
    unit(alloc, naming, typed, variables, number, procedure, body)
}
