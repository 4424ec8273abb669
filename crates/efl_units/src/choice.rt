// The names of FORTRAN for the variables and the procedures of a program.
ghost use Rattle.std.specs.Prelude.{◌≡◌, IfOk, map};
ghost use Rattle.std.specs.List.{enumerate_from};
ghost use Rattle.efl_tree.specs.Views.{procedure_of};
ghost use Rattle.efl_whole.specs.CallViews.{numbers_of};
ghost use Rattle.efl_naming.specs.Choice.{name_or_made, procedure_name};
ghost use Rattle.efl_units.specs.Homes.{home_in, keeps_name_in};

use crate::{copied_name, is_kept, made_name};
use efl_tree::{EflName, EflProcedure};
use efl_variables::Variable;
use efl_whole::Numbers;
use f66_tree::Name;
use ground::List;
use std::alloc::{AllocError, Global};

/// The names of variables, by their numbers, where procedures have these numbers by their names.
pub fn homes(
    alloc: Global,
    numbers: &Numbers,
    variables: &[Variable],
) -> Result<List<Name>, AllocError>
    ensures { IfOk result (λ names. names.items ≡ map (λ x. home_in (numbers_of numbers.now) x.0 x.1) (enumerate_from 0 variables.now)) }
{
    let mut names = Vec::new(alloc);
    for (number, variable) in variables.iter().enumerate() {
        let name = home(alloc, numbers, number, variable)?;
        names.push(name)?;
    }
    Ok(names)
}

fn home(
    alloc: Global,
    numbers: &Numbers,
    number: usize,
    variable: &Variable,
) -> Result<Name, AllocError>
    ensures { IfOk result (λ name. name ≡ home_in (numbers_of numbers.now) number variable.now) }
{
    if keeps_name(numbers, variable) {
        copied_name(alloc, variable.name.as_bytes())
    } else {
        Ok(made_name(b'Y', number))
    }
}

// A variable of a procedure's outer block, or an undeclared one, keeps its name where no procedure has it.
fn keeps_name(numbers: &Numbers, variable: &Variable) -> bool
    ensures { result ≡ keeps_name_in (numbers_of numbers.now) variable.now }
{
    let name = variable.name.as_bytes();
    variable.home == 0 && (is_kept(name) && numbers.number(name).is_none())
}

/// The names of procedures, by their numbers.
pub fn callees(alloc: Global, procedures: &[EflProcedure]) -> Result<List<Name>, AllocError>
    ensures { IfOk result (λ names. names.items ≡ map (λ x. procedure_name x.0 (procedure_of x.1)) (enumerate_from 0 procedures.now)) }
{
    let mut names = Vec::new(alloc);
    for (number, procedure) in procedures.iter().enumerate() {
        let name = callee(alloc, number, &procedure.name)?;
        names.push(name)?;
    }
    Ok(names)
}

fn callee(alloc: Global, number: usize, name: &Option<EflName>) -> Result<Name, AllocError>
    ensures { IfOk result (λ given. given ≡ name_or_made number name.now) }
{
    match name {
        None => Ok(made_name(b'X', number)),
        Some(name) => kept_or_made(alloc, number, name),
    }
}

fn kept_or_made(alloc: Global, number: usize, name: &EflName) -> Result<Name, AllocError>
    ensures { IfOk result (λ given. given ≡ name_or_made number (Some name.now)) }
{
    if is_kept(name.as_bytes()) {
        copied_name(alloc, name.as_bytes())
    } else {
        Ok(made_name(b'X', number))
    }
}
