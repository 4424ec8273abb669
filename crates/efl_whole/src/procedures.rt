// The calls of procedures.
ghost use Rattle.std.specs.Prelude.{◌≡◌, OnOk, IfOk, map};
ghost use Rattle.efl_tree.specs.Views.{procedure_of};
ghost use Rattle.efl_whole.specs.Roles.{with_formals, letter_role};
ghost use Rattle.efl_whole.specs.RoleViews.{roles_of, letters_of};
ghost use Rattle.efl_whole.specs.Calls.{no_calls, procedure_calls, procedures_calls};
ghost use Rattle.efl_whole.specs.CallViews.{calls_of, numbers_of};

use crate::calls::{Calls, Site};
use crate::listing::{Letters, by_letter, list_block};
use crate::numbers::Numbers;
use crate::roles::{Role, Roles, Scopes};
use crate::statements::{add_declarations, add_inside};
use efl_tree::{EflName, EflProcedure};
use std::alloc::{AllocError, Global};

/// The calls of procedures, in reading order.
pub fn calls_of<'a>(
    alloc: Global,
    numbers: &Numbers<'a>,
    procedures: &'a [EflProcedure],
) -> Result<Calls, AllocError>
    ensures { IfOk result (λ calls. calls_of calls ≡ procedures_calls (numbers_of numbers.now) 0 (map procedure_of procedures.now) no_calls) }
{
    let mut calls = Calls::new(alloc);
    for (unit, procedure) in procedures.iter().enumerate() {
        add_procedure(alloc, numbers, unit, procedure, &mut calls)?;
    }
    Ok(calls)
}

fn add_procedure<'a>(
    alloc: Global,
    numbers: &Numbers<'a>,
    unit: usize,
    procedure: &'a EflProcedure,
    calls: &mut Calls,
) -> Result<(), AllocError>
    ensures { OnOk result (calls_of calls.new ≡ procedure_calls (numbers_of numbers.now) unit (procedure_of procedure.now) (calls_of calls.old)) }
{
    let site = Site {
        numbers,
        unit,
        scopes: &Scopes::Outside,
    };
    let block = list_block(alloc, &procedure.declarations, &Scopes::Outside)?;
    let mut own = block.variables;
    let letters = block.letters;
    declare_formals(&procedure.formals, &letters, &mut own)?;
    add_declarations(&procedure.declarations, &site, &mut own, calls)?;
    add_inside(alloc, &own, &procedure.body, &site, calls)
}

/// Formals come that are not declared.
fn declare_formals<'a>(
    list: &'a [EflName],
    letters: &Letters,
    variables: &mut Roles<'a>,
) -> Result<(), AllocError>
    ensures { OnOk result (roles_of variables.new ≡ with_formals (letters_of letters.now) list.now (roles_of variables.old)) }
{
    for formal in list {
        variables.declare(formal.as_bytes(), by_name(letters, formal))?;
    }
    Ok(())
}

/// What an undeclared formal is, by its letter.
fn by_name(letters: &Letters, name: &EflName) -> Role
    ensures { result ≡ letter_role (letters_of letters.now) name.now }
{
    match name.as_bytes().first() {
        None => Role::Single,
        Some(letter) => by_letter(letters, *letter),
    }
}
