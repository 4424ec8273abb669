// The code of the beginning of a DO.
ghost use Rattle.std.specs.Prelude.{◌≡◌, ◌++◌, IfOk, OnOk, length};
ghost use Rattle.f66_tree.specs.Views.{par_of};
ghost use Rattle.stack_code.specs.Views.{code_of};
ghost use Rattle.code_gen.specs.Statements.{start_code};

use crate::coded_unit::NamedUnit;
use crate::operators::put;
use crate::variables::{put_base, put_par};
use f66_tree::{Name, Par};
use stack_code::Op;
use std::alloc::AllocError;

/// The variable of a DO and its parameters.
#[derive(Clone, Copy)]
pub struct Counting<'a> {
    pub variable: &'a Name,
    pub first: &'a Par,
    pub last: &'a Par,
    pub step: &'a Par,
}

/// The number of the next instruction.
pub(crate) fn place_of(ops: &[Op]) -> Result<u32, AllocError>
    ensures { IfOk result (λ n. n ≡ length ops.now) }
{
    match u32::try_from(ops.len()) {
        Ok(place) => Ok(place),
        Err(_) => Err(AllocError),
    }
}

/// Puts the beginning of a DO, of which these storage units keep the limit and the step.
pub(crate) fn put_start<U: NamedUnit>(
    unit: &U,
    ops: &mut Vec<Op>,
    counting: Counting<'_>,
    limit: u32,
    step: u32,
) -> Result<(), AllocError>
    ensures { OnOk result (code_of ops.new.items ≡ code_of ops.old.items ++ start_code (U.layout unit.now) (U.number unit.now) counting.entry.variable.now (par_of counting.entry.first.now) (par_of counting.entry.last.now) (par_of counting.entry.step.now) limit step) }
{
    put_base(unit, ops, counting.variable)?;
    put_par(unit, ops, counting.first)?;
    put_par(unit, ops, counting.last)?;
    put_par(unit, ops, counting.step)?;
    put(ops, Op::LoopStart(limit, step))
}
