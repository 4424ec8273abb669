// The outer block of a procedure, with its formals.
ghost use Rattle.std.specs.Prelude.{IfOk, OnOk};
ghost use Rattle.efl_tree.specs.Views.{procedure_of};
ghost use Rattle.efl_bindings.specs.Declarations.{DeclaresFormals, IsOuter};

use crate::blocks::declared_table;
use crate::homes::Home;
use crate::{Letters, Table};
use efl_tree::{EflName, EflProcedure};
use efl_typed_tree::Scalar;
use efl_variables::Variables;
use std::alloc::{AllocError, Global};

/// The variables of the outer block of a procedure with this number, by the types that its letters give.
pub fn outer_table<'a>(
    alloc: Global,
    unit: usize,
    procedure: &'a EflProcedure,
    letters: &Letters,
    variables: &Variables,
) -> Result<Table<'a>, AllocError>
    ensures { IfOk result (λ table. IsOuter unit (procedure_of procedure.now) letters.now variables.now table) }
{
    let home = Home {
        unit,
        place: Some(0),
        variables,
    };
    let mut table = declared_table(alloc, &procedure.declarations, &home)?;
    declare_formals(&procedure.formals, letters, &home, &mut table)?;
    Ok(table)
}

/// Formals that aren't declared come, with the types of their letters.
fn declare_formals<'a>(
    formals: &'a [EflName],
    letters: &Letters,
    home: &Home,
    table: &mut Table<'a>,
) -> Result<(), AllocError>
    ensures { OnOk result (DeclaresFormals home.now letters.now table.old formals.now table.new) }
{
    for formal in formals {
        let name = formal.as_bytes();
        let scalar = Scalar {
            variable: home.number(name),
            kind: letters.kind(name),
        };
        table.declare(name, scalar)?;
    }
    Ok(())
}
