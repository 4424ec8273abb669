// The code of READ and WRITE.
ghost use Rattle.std.specs.Prelude.{◌≡◌, ◌++◌, OnOk, length};
ghost use Rattle.f66_tree.specs.Views.{par_of, entries_of};
ghost use Rattle.stack_code.specs.Instructions.{Start};
ghost use Rattle.stack_code.specs.Views.{code_of, instruction_of};
ghost use Rattle.code_gen.specs.Statements.{record_code};

use crate::coded_unit::NamedUnit;
use crate::lists::put_entries;
use crate::operators::put;
use crate::variables::put_par;
use f66_tree::{Entry, Par, Way};
use stack_code::Op;
use std::alloc::AllocError;

fn start_op(way: Way, plan: u32) -> Op
    ensures { instruction_of result ≡ Start way plan }
{
    match way {
        Way::Reading => Op::ReadStart(plan),
        Way::Writing => Op::WriteStart(plan),
    }
}

/// Puts the code of a READ or WRITE by a plan.
pub(crate) fn put_record<U: NamedUnit>(
    unit: &U,
    ops: &mut Vec<Op>,
    way: Way,
    par: &Par,
    plan: u32,
    list: &[Entry],
) -> Result<(), AllocError>
    ensures { OnOk result (code_of ops.new.items ≡ code_of ops.old.items ++ record_code (U.layout unit.now) (U.number unit.now) way (length ops.old.items) (par_of par.now) plan (entries_of list.now)) }
{
    put_par(unit, ops, par)?;
    put(ops, start_op(way, plan))?;
    put_entries(unit, ops, way, list)?;
    put(ops, Op::Finish)
}
