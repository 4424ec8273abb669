// The code of statements but READ and WRITE.
ghost use Rattle.std.specs.Prelude.{◌≡◌, ◌++◌, ◌∷◌, [], IfOk, OnOk};
ghost use Rattle.f66_tree.specs.Views.{formula_of, formulas_of, par_of};
ghost use Rattle.stack_code.specs.Instructions.{Store, JumpTable, JumpSign, Halt};
ghost use Rattle.stack_code.specs.Views.{code_of};
ghost use Rattle.code_gen.specs.Expressions.{count, actuals_code, place_code, value_code, variable_code};
ghost use Rattle.code_gen.specs.Statements.{invoked_code, leave_code, limit_unit, start_code, step_unit, target, targets};

use crate::coded_unit::{CodedUnit, NamedUnit};
use crate::counting::{Counting, put_start};
use crate::operators::put;
use crate::rooms::{count_of, plus};
use crate::values::{put_actuals, put_place, put_value};
use crate::variables::put_variable;
use f66_tree::{Expr, Name};
use ground::List;
use stack_code::Op;
use std::alloc::{AllocError, Global};

/// Puts the code of an assignment.
pub(crate) fn put_assign<U: NamedUnit>(
    unit: &U,
    ops: &mut Vec<Op>,
    place: &Expr,
    value: &Expr,
) -> Result<(), AllocError>
    ensures { OnOk result (code_of ops.new.items ≡ code_of ops.old.items ++ (place_code (U.layout unit.now) (U.number unit.now) (formula_of place.now) ++ (value_code (U.layout unit.now) (U.number unit.now) (formula_of value.now) ++ Store ∷ []))) }
{
    put_place(unit, ops, place)?;
    put_value(unit, ops, value)?;
    put(ops, Op::Store)
}

fn targets_of<U: CodedUnit>(
    alloc: Global,
    unit: &U,
    labels: &[u32],
) -> Result<List<u32>, AllocError>
    ensures { IfOk result (λ r. r.items ≡ targets (U.layout unit.now) (U.number unit.now) labels.now) }
{
    let mut list = Vec::new(alloc);
    for label in labels {
        list.push(unit.target(*label))?;
    }
    Ok(list)
}

/// Puts the code of a computed GO TO.
pub(crate) fn put_computed<U: CodedUnit>(
    alloc: Global,
    unit: &U,
    ops: &mut Vec<Op>,
    labels: &[u32],
    index: &Name,
) -> Result<(), AllocError>
    ensures { OnOk result (code_of ops.new.items ≡ code_of ops.old.items ++ (variable_code (U.layout unit.now) (U.number unit.now) index.now ++ JumpTable (targets (U.layout unit.now) (U.number unit.now) labels.now) ∷ [])) }
{
    put_variable(unit, ops, index)?;
    let list = targets_of(alloc, unit, labels)?;
    put(ops, Op::JumpTable(list))
}

/// Puts the code of an arithmetic IF.
pub(crate) fn put_sign<U: CodedUnit>(
    unit: &U,
    ops: &mut Vec<Op>,
    e: &Expr,
    below: u32,
    zero: u32,
    above: u32,
) -> Result<(), AllocError>
    ensures { OnOk result (code_of ops.new.items ≡ code_of ops.old.items ++ (value_code (U.layout unit.now) (U.number unit.now) (formula_of e.now) ++ JumpSign (target (U.layout unit.now) (U.number unit.now) below) (target (U.layout unit.now) (U.number unit.now) zero) (target (U.layout unit.now) (U.number unit.now) above) ∷ [])) }
{
    put_value(unit, ops, e)?;
    put(
        ops,
        Op::JumpSign(unit.target(below), unit.target(zero), unit.target(above)),
    )
}

/// The first of the two storage units of a DO with so many statements behind it.
pub(crate) fn limit_of<U: NamedUnit>(unit: &U, key: u32) -> Result<u32, AllocError>
    ensures { IfOk result (λ n. n ≡ limit_unit (U.layout unit.now) (U.number unit.now) key) }
{
    let twice = plus(key, key)?;
    plus(unit.loops(), twice)
}

/// Puts the code of a DO with so many statements behind it.
pub(crate) fn put_loop<U: NamedUnit>(
    unit: &U,
    ops: &mut Vec<Op>,
    key: u32,
    counting: Counting<'_>,
) -> Result<(), AllocError>
    ensures { OnOk result (code_of ops.new.items ≡ code_of ops.old.items ++ start_code (U.layout unit.now) (U.number unit.now) counting.entry.variable.now (par_of counting.entry.first.now) (par_of counting.entry.last.now) (par_of counting.entry.step.now) (limit_unit (U.layout unit.now) (U.number unit.now) key) (step_unit (U.layout unit.now) (U.number unit.now) key)) }
{
    let limit = limit_of(unit, key)?;
    let step = plus(limit, 1)?;
    put_start(unit, ops, counting, limit, step)
}

/// Puts the code of a CALL.
pub(crate) fn put_invoke<U: NamedUnit>(
    unit: &U,
    ops: &mut Vec<Op>,
    name: &Name,
    list: &[Expr],
) -> Result<(), AllocError>
    ensures { OnOk result (code_of ops.new.items ≡ code_of ops.old.items ++ invoked_code (U.layout unit.now) (U.number unit.now) ((U.layout unit.now).linked.find name.now) (count (formulas_of list.now)) (actuals_code (U.layout unit.now) (U.number unit.now) (formulas_of list.now))) }
{
    match unit.callee(name) {
        None => Ok(()),
        Some(callee) => {
            let count = count_of(list)?;
            put_actuals(unit, ops, list)?;
            put(ops, Op::Call(callee.entry, count))
        }
    }
}

/// Puts the code of a STOP.
pub(crate) fn put_stop(ops: &mut Vec<Op>, number: Option<u16>) -> Result<(), AllocError>
    ensures { OnOk result (code_of ops.new.items ≡ code_of ops.old.items ++ Halt number ∷ []) }
{
    match number {
        None => put(ops, Op::Halt),
        Some(number) => put(ops, Op::HaltWith(number)),
    }
}

/// Puts the code that leaves a unit.
pub(crate) fn put_leave<U: NamedUnit>(unit: &U, ops: &mut Vec<Op>) -> Result<(), AllocError>
    ensures { OnOk result (code_of ops.new.items ≡ code_of ops.old.items ++ leave_code (U.layout unit.now) (U.number unit.now) ∷ []) }
{
    if unit.is_main() {
        put(ops, Op::Halt)
    } else {
        put(ops, Op::Return)
    }
}
