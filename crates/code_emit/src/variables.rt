// The code of variables and parameters.
ghost use Rattle.std.specs.Prelude.{◌≡◌, ◌++◌, ◌∷◌, [], OnOk, map};
ghost use Rattle.f66_tree.specs.Views.{par_of};
ghost use Rattle.stack_code.specs.Views.{code_of, instruction_of};
ghost use Rattle.code_gen.specs.Expressions.{base_code, par_code, pars_code, variable_code};
ghost use Rattle.code_emit.specs.Names.{base_of};

use crate::coded_unit::{Base, NamedUnit};
use crate::operators::{load_op, put};
use f66_tree::{Name, Par};
use stack_code::Op;
use std::alloc::AllocError;

fn base_op(base: Base) -> Op
    ensures { instruction_of result ≡ base_of base }
{
    match base {
        Base::Own(first, size) => Op::Spot(first, size),
        Base::Dummy(number) => Op::Dummy(number),
    }
}

/// Puts the instruction that pushes the places of a name.
pub(crate) fn put_base<U: NamedUnit>(
    unit: &U,
    ops: &mut Vec<Op>,
    name: &Name,
) -> Result<(), AllocError>
    ensures { OnOk result (code_of ops.new.items ≡ code_of ops.old.items ++ base_code (U.layout unit.now) (U.number unit.now) name.now ∷ []) }
{
    put(ops, base_op(unit.base(name)))
}

/// Puts the code of a variable's value.
pub(crate) fn put_variable<U: NamedUnit>(
    unit: &U,
    ops: &mut Vec<Op>,
    name: &Name,
) -> Result<(), AllocError>
    ensures { OnOk result (code_of ops.new.items ≡ code_of ops.old.items ++ variable_code (U.layout unit.now) (U.number unit.now) name.now) }
{
    put_base(unit, ops, name)?;
    put(ops, load_op(unit.kind(name)))
}

/// Puts the code of a parameter's value.
pub(crate) fn put_par<U: NamedUnit>(
    unit: &U,
    ops: &mut Vec<Op>,
    par: &Par,
) -> Result<(), AllocError>
    ensures { OnOk result (code_of ops.new.items ≡ code_of ops.old.items ++ par_code (U.layout unit.now) (U.number unit.now) (par_of par.now)) }
{
    match par {
        Par::Number(value) => put(ops, Op::PushInt(*value)),
        Par::Variable(name) => put_variable(unit, ops, name),
    }
}

/// Puts the code of the values of parameters, from left to right.
pub(crate) fn put_pars<U: NamedUnit>(
    unit: &U,
    ops: &mut Vec<Op>,
    pars: &[Par],
) -> Result<(), AllocError>
    ensures { OnOk result (code_of ops.new.items ≡ code_of ops.old.items ++ pars_code (U.layout unit.now) (U.number unit.now) (map par_of pars.now)) }
{
    for par in pars {
        put_par(unit, ops, par)?;
    }
    Ok(())
}
