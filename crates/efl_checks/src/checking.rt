// The first fault of a program by the rules of types, and the limit on all variables.
ghost use Rattle.std.specs.Prelude.{◌≡◌, None, map, IfOk, IfErr, OnOk};
ghost use Rattle.efl_tree.specs.Syntax.{EflProgram as ProgramSeen};
ghost use Rattle.efl_tree.specs.Views.{procedure_of, program_of};
ghost use Rattle.efl_scope.specs.Parts.{program_parts};
ghost use Rattle.efl_scope.specs.Marks.{program_variables};
ghost use Rattle.efl_variables.specs.Numbered.{AreVariables};
ghost use Rattle.efl_reading.specs.Walked.{Read};
ghost use Rattle.efl_checks.specs.Walks.{ProceduresFit};
ghost use Rattle.efl_checks.specs.Answers.{IsRightRefusal, typed_fault};

use crate::procedures::check_procedures;
use efl_blocks::{Types, open_procedures};
use efl_expressions::Structures;
use efl_reading::Walk;
use efl_scoped::Pairs;
use efl_tree::{EflProcedure, EflProgram};
use efl_variables::Variables;
use ground::{Fault, Refusal};
use std::alloc::{AllocError, Global};

/// The variables of a program no part of which breaks a rule of types and whose variables have no more places than a program may have,
/// where its scopes have no fault and lists of common stand in outer blocks alone; else exactly the first fault, that of the limit behind all
/// others (Feldman, The Programming Language EFL: data types and variables; expressions; declarations; executable statements; procedures).
pub fn check(alloc: Global, program: &EflProgram) -> Result<Variables, Refusal>
    ensures accepted { OnOk result (ProceduresFit (program_of program.now).procedures → typed_fault (program_of program.now) ≡ None) }
    ensures variables { IfOk result (λ variables. ProceduresFit (program_of program.now).procedures → AreVariables (program_variables (program_of program.now)) variables) }
    ensures refused { IfErr result (IsRightRefusal (program_of program.now)) }
{
    let Ok(walk) = read(alloc, program) else {
        return Err(Refusal::Memory);
    };
    match walked_fault(&walk, &program.procedures) {
        Some(fault) => Err(Refusal::Fault(fault)),
        None => Ok(variables_met(walk)),
    }
}

/// What is known behind all parts of a program.
fn read(alloc: Global, program: &EflProgram) -> Result<Walk<'_>, AllocError>
    ensures { IfOk result (λ walk. ProceduresFit (program_of program.now).procedures → Read (program_of program.now).procedures (program_parts (program_of program.now)) walk) }
{
    let mut types = Types {
        structures: Structures {
            list: Vec::new(alloc),
        },
        numbers: Pairs::new(alloc),
    };
    let opened = open_procedures(alloc, &program.procedures, &mut types)?;
    let mut walk = Walk::new(alloc, &program.procedures)?;
    check_procedures(
        alloc,
        &program.procedures,
        opened.outers,
        &opened.units,
        &mut types,
        &mut walk,
    )?;
    Ok(walk)
}

/// The variables that were met.
fn variables_met(walk: Walk) -> Variables
    ensures { result ≡ walk.entry.storage.variables }
{
    let storage = walk.storage;
    storage.variables
}

/// The fault of a program whose parts are all read.
fn walked_fault(walk: &Walk, procedures: &[EflProcedure]) -> Option<Fault>
    ensures { (p : ProgramSeen) → p.procedures ≡ map procedure_of procedures.now → Read p.procedures (program_parts p) walk.now → result ≡ typed_fault p }
{
    match walk.progress.fault {
        Some(fault) => Some(fault),
        None => walk.storage.fault(procedures),
    }
}
