// The bodies of a program's procedures.
ghost use Rattle.std.specs.Prelude.{◌≡◌, true, map, IfOk};
ghost use Rattle.efl_tree.specs.Views.{procedure_of, program_of};
ghost use Rattle.efl_scope.specs.Parts.{program_parts};
ghost use Rattle.efl_scope.specs.Marks.{program_variables};
ghost use Rattle.efl_built.specs.Unbuilt.{are_built};
ghost use Rattle.efl_variables.specs.Numbered.{AreVariables};
ghost use Rattle.efl_typing.specs.Bodies.{IsBody, AreEach, AreBodies, IsMade, IsAlone};

use crate::statements::typed_statements;
use efl_bindings::{
    Letters, Procedures, Scopes, Site, Table, letters_of, outer_table, procedures_of,
};
use efl_tree::{EflProcedure, EflProgram};
use efl_typed_tree::TypedStmt;
use efl_variables::Variables;
use ground::List;
use std::alloc::{AllocError, Global};

/// The typed bodies of the procedures of a program, of which these are all variables.
pub fn typed_bodies(
    alloc: Global,
    program: &EflProgram,
    variables: &Variables,
) -> Result<List<List<TypedStmt>>, AllocError>
    ensures { IfOk result (λ bodies. are_built (program_parts (program_of program.now)) ≡ true → AreVariables (program_variables (program_of program.now)) variables.now → AreBodies (program_of program.now) bodies.items) }
{
    let procedures = procedures_of(alloc, &program.procedures)?;
    typed_each(alloc, &program.procedures, &procedures, variables)
}

/// The bodies one behind the other.
fn typed_each<'a>(
    alloc: Global,
    list: &'a [EflProcedure],
    procedures: &Procedures<'a>,
    variables: &Variables,
) -> Result<List<List<TypedStmt>>, AllocError>
    ensures { IfOk result (λ bodies. AreEach (map procedure_of list.now) procedures.now variables.now bodies.items) }
{
    let mut bodies = Vec::new(alloc);
    for (unit, procedure) in list.iter().enumerate() {
        bodies.push(typed_body(alloc, unit, procedure, procedures, variables)?)?;
    }
    Ok(bodies)
}

/// The body of the procedure with this number.
fn typed_body<'a>(
    alloc: Global,
    unit: usize,
    procedure: &'a EflProcedure,
    procedures: &Procedures<'a>,
    variables: &Variables,
) -> Result<List<TypedStmt>, AllocError>
    ensures { IfOk result (λ body. IsBody unit (procedure_of procedure.now) procedures.now variables.now body.items) }
{
    let letters = letters_of(alloc, &procedure.declarations)?;
    let table = outer_table(alloc, unit, procedure, &letters, variables)?;
    typed_within(
        alloc, unit, procedure, procedures, &letters, variables, &table,
    )
}

/// The same in its outer block.
fn typed_within<'a>(
    alloc: Global,
    unit: usize,
    procedure: &'a EflProcedure,
    procedures: &Procedures<'a>,
    letters: &Letters,
    variables: &Variables,
    table: &Table<'a>,
) -> Result<List<TypedStmt>, AllocError>
    ensures { IfOk result (λ body. IsMade unit (procedure_of procedure.now) procedures.now letters.now variables.now table.now body.items) }
{
    let scopes = Scopes::Inside(&*table, &Scopes::Outside);
    let site = site_of(unit, &*procedures, &*letters, &*variables, &scopes);
    typed_statements(alloc, &procedure.body, &site)
}

/// Where a body begins.
fn site_of<'c, 'a>(
    unit: usize,
    procedures: &'c Procedures<'a>,
    letters: &'c Letters,
    variables: &'c Variables,
    scopes: &'c Scopes<'c, 'a>,
) -> Site<'c, 'a>
    ensures { IsAlone unit procedures.now letters.now variables.now scopes.now result }
{
    Site {
        unit,
        place: Some(0),
        procedures,
        letters,
        variables,
        scopes,
    }
}
