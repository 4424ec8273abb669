// The variables of each type in each procedure, and the functions that it calls.
ghost use Rattle.std.specs.Prelude.{◌≡◌, [], IfOk, length, map, replicate};
ghost use Rattle.efl_tree.specs.Views.{program_of};
ghost use Rattle.efl_scope.specs.Marks.{program_variables};
ghost use Rattle.efl_types.specs.Whole.{edges_of};
ghost use Rattle.efl_variables.specs.Numbered.{AreVariables};
ghost use Rattle.efl_units.specs.Groups.{groups_of, put_all};
ghost use Rattle.efl_units.specs.TypedViews.{AreOfKind, AreTyped};

use crate::{called, callers, owned};
use efl_tree::EflProgram;
use efl_variables::Variables;
use efl_whole::edges;
use ground::{Kind, List};
use std::alloc::{AllocError, Global};

/// The variables of one type in each procedure, and the functions of that type that it calls, which may stand several times in a row.
#[derive(Drop)]
pub struct OfKind {
    pub variables: List<List<usize>>,
    pub functions: List<List<usize>>,
}

/// Those of both types.
#[derive(Drop)]
pub struct Typed {
    pub integers: OfKind,
    pub logicals: OfKind,
}

/// Those of a program.
pub fn typed_program(
    alloc: Global,
    program: &EflProgram,
    variables: &Variables,
) -> Result<Typed, AllocError>
    ensures { IfOk result (λ typed. AreVariables (program_variables (program_of program.now)) variables.now → AreTyped (program_of program.now) typed) }
{
    let callers = program_callers(alloc, program)?;
    let integers = of_kind(alloc, program, variables, &callers, Kind::Integer)?;
    let logicals = of_kind(alloc, program, variables, &callers, Kind::Logical)?;
    Ok(Typed { integers, logicals })
}

// The callers of each procedure.
fn program_callers(alloc: Global, program: &EflProgram) -> Result<List<List<usize>>, AllocError>
    ensures { IfOk result (λ groups. groups_of groups.items ≡ put_all (map (λ e. (e.to, e.from)) (edges_of (program_of program.now))) (replicate (length (program_of program.now).procedures) [])) }
{
    let edges = edges(alloc, program)?;
    callers(alloc, program.procedures.len(), &edges)
}

fn of_kind(
    alloc: Global,
    program: &EflProgram,
    variables: &Variables,
    callers: &[List<usize>],
    kind: Kind,
) -> Result<OfKind, AllocError>
    requires { groups_of callers.now ≡ put_all (map (λ e. (e.to, e.from)) (edges_of (program_of program.now))) (replicate (length (program_of program.now).procedures) []) }
    ensures { IfOk result (λ typed. AreVariables (program_variables (program_of program.now)) variables.now → AreOfKind (program_of program.now) kind typed) }
{
    let count = program.procedures.len();
    let functions = called(alloc, count, callers, &program.procedures, kind)?;
    let variables = owned(alloc, count, &variables.list, kind)?;
    Ok(OfKind {
        variables,
        functions,
    })
}
