// The names that a unit has of a type.
ghost use Rattle.std.specs.Prelude.{◌≡◌, ◌+◌, ◌++◌, map, IfOk, OnOk};
ghost use Rattle.std.specs.List.{range_with_len};
ghost use Rattle.efl_emit.specs.Names.{callee_of, home_of, temp_of};
ghost use Rattle.efl_units.specs.Once.{each_once, is_that};

use efl_emit::{Naming, temporary};
use efl_room::plus;
use f66_tree::Name;
use ground::{Kind, List};
use std::alloc::{AllocError, Global};

/// Its variables, its temporaries and one more, and the functions that it calls, where these may stand several times in a row.
pub fn typed_names(
    alloc: Global,
    naming: &Naming,
    kind: Kind,
    variables: &[usize],
    room: usize,
    functions: &[usize],
) -> Result<List<Name>, AllocError>
    ensures { IfOk result (λ names. names.items ≡ map (home_of naming.now) variables.now ++ map (temp_of kind) (range_with_len 0 (room + 1)) ++ map (callee_of naming.now) (each_once functions.now)) }
{
    let mut names = Vec::new(alloc);
    add_homes(naming, variables, &mut names)?;
    add_temporaries(kind, plus(room, 1)?, &mut names)?;
    add_callees(naming, functions, &mut names)?;
    Ok(names)
}

fn add_homes(naming: &Naming, variables: &[usize], names: &mut List<Name>) -> Result<(), AllocError>
    ensures { OnOk result (names.new.items ≡ names.old.items ++ map (home_of naming.now) variables.now) }
{
    for variable in variables {
        let name = naming.home(*variable)?;
        names.push(name)?;
    }
    Ok(())
}

fn add_temporaries(kind: Kind, count: usize, names: &mut List<Name>) -> Result<(), AllocError>
    ensures { OnOk result (names.new.items ≡ names.old.items ++ map (temp_of kind) (range_with_len 0 count)) }
{
    for number in 0..count {
        let name = temporary(kind, number);
        names.push(name)?;
    }
    Ok(())
}

// Each function once.
fn add_callees(
    naming: &Naming,
    functions: &[usize],
    names: &mut List<Name>,
) -> Result<(), AllocError>
    ensures { OnOk result (names.new.items ≡ names.old.items ++ map (callee_of naming.now) (each_once functions.now)) }
{
    let mut last = None;
    for function in functions {
        if !is_that(last, *function) {
            let name = naming.callee(*function)?;
            names.push(name)?;
        }
        last = Some(*function);
    }
    Ok(())
}

fn is_that(last: Option<usize>, number: usize) -> bool
    ensures { result ≡ is_that last number }
{
    match last {
        None => false,
        Some(last) => last == number,
    }
}
