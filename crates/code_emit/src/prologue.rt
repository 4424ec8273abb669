// The code that stands before the statements of a unit: initial values, and loops that are not in progress.
ghost use Rattle.std.specs.Prelude.{◌≡◌, ◌++◌, ℕ, [], IfOk, OnOk, drop, length, map};
ghost use Rattle.f66_tree.specs.Execution.{runnable};
ghost use Rattle.f66_tree.specs.Views.{act_of, lines_of};
ghost use Rattle.stack_code.specs.Instructions.{Push};
ghost use Rattle.stack_code.specs.Views.{code_of, instruction_of};
ghost use Rattle.code_gen.specs.Layout.{Layout};
ghost use Rattle.code_gen.specs.Statements.{first_code, preset_code, prologue_code, prologue_size, reset_by, reset_code};
ghost use Rattle.code_emit.specs.Names.{content_in, preset_in};

use crate::acts::limit_of;
use crate::body::is_note;
use crate::coded_unit::{CodedUnit, NamedUnit};
use crate::operators::put;
use crate::rooms::plus;
use crate::turns::count_from;
use f66_tree::{Stmt, StmtKind};
use ground::Value;
use stack_code::Op;
use std::alloc::AllocError;

fn push_op(value: Value) -> Op
    ensures { instruction_of result ≡ Push (content_in value) }
{
    match value {
        Value::Int(value) => Op::PushInt(value),
        Value::Log(value) => Op::PushLog(value),
    }
}

/// Puts the code that stores initial values.
fn put_presets(ops: &mut Vec<Op>, presets: &[(u32, Value)]) -> Result<(), AllocError>
    ensures { OnOk result (code_of ops.new.items ≡ code_of ops.old.items ++ preset_code (map preset_in presets.now)) }
{
    for preset in presets {
        put(ops, Op::Spot(preset.0, 1))?;
        put(ops, push_op(preset.1))?;
        put(ops, Op::Store)?;
    }
    Ok(())
}

/// Puts the code after which a statement, if it is a DO, is not in progress.
fn put_reset<U: NamedUnit>(
    unit: &U,
    ops: &mut Vec<Op>,
    kind: &StmtKind,
    behind: usize,
) -> Result<(), AllocError>
    ensures { OnOk result (code_of ops.new.items ≡ code_of ops.old.items ++ reset_by (U.layout unit.now) (U.number unit.now) (act_of kind.now) (length (drop behind ((U.layout unit.now).lines (U.number unit.now)))) []) }
{
    match kind {
        StmtKind::Loop(_, _) => {
            let key = count_from(unit, behind)?;
            let limit = limit_of(unit, key)?;
            let step = plus(limit, 1)?;
            put(ops, Op::Spot(limit, 1))?;
            put(ops, Op::Forget)?;
            put(ops, Op::Spot(step, 1))?;
            put(ops, Op::Forget)
        }
        _ => Ok(()),
    }
}

/// Puts the code after which no DO is in progress.
fn put_resets<U: NamedUnit>(unit: &U, ops: &mut Vec<Op>) -> Result<(), AllocError>
    ensures { OnOk result (code_of ops.new.items ≡ code_of ops.old.items ++ reset_code (U.layout unit.now) (U.number unit.now) ((U.layout unit.now).lines (U.number unit.now))) }
{
    let statements = unit.statements();
    let mut behind = 0;
    for statement in statements {
        behind += 1;
        put_reset(unit, ops, &statement.kind, behind)?;
    }
    Ok(())
}

fn presets_size(presets: &[(u32, Value)]) -> Result<u32, AllocError>
    ensures { IfOk result (λ n. n ≡ length (preset_code (map preset_in presets.now))) }
{
    let mut sum = 0;
    for _preset in presets {
        sum = plus(sum, 3)?;
    }
    Ok(sum)
}

fn reset_size(kind: &StmtKind) -> u32
    ensures { (y : Layout) (u key : ℕ) → result ≡ length (reset_by y u (act_of kind.now) key []) }
{
    match kind {
        StmtKind::Loop(_, _) => 4,
        _ => 0,
    }
}

fn resets_size<U: NamedUnit>(unit: &U) -> Result<u32, AllocError>
    ensures { IfOk result (λ n. n ≡ length (reset_code (U.layout unit.now) (U.number unit.now) ((U.layout unit.now).lines (U.number unit.now)))) }
{
    let statements = unit.statements();
    let mut sum = 0;
    for statement in statements {
        let size = reset_size(&statement.kind);
        sum = plus(sum, size)?;
    }
    Ok(sum)
}

/// How long the code is of what is done before the statements.
fn opening_size<U: NamedUnit>(unit: &U) -> Result<u32, AllocError>
    ensures { IfOk result (λ n. n ≡ length (first_code (U.layout unit.now) (U.number unit.now))) }
{
    if unit.is_main() {
        presets_size(unit.presets())
    } else {
        resets_size(unit)
    }
}

/// Puts the code of what is done before the statements.
fn put_opening<U: NamedUnit>(unit: &U, ops: &mut Vec<Op>) -> Result<(), AllocError>
    ensures { OnOk result (code_of ops.new.items ≡ code_of ops.old.items ++ first_code (U.layout unit.now) (U.number unit.now)) }
{
    if unit.is_main() {
        put_presets(ops, unit.presets())
    } else {
        put_resets(unit, ops)
    }
}

/// The number of the first statement that is executed.
fn first_executed(statements: &[Stmt]) -> usize
    ensures { runnable (lines_of statements.now) ≡ lines_of (drop result statements.now) }
{
    let mut number = 0;
    for statement in statements {
        if !is_note(&statement.kind) {
            return number;
        }
        number += 1;
    }
    number
}

/// Puts what stands before the statements of a unit.
pub(crate) fn put_prologue<U: CodedUnit>(unit: &U, ops: &mut Vec<Op>) -> Result<(), AllocError>
    ensures { OnOk result (code_of ops.new.items ≡ code_of ops.old.items ++ prologue_code (U.layout unit.now) (U.number unit.now) (first_code (U.layout unit.now) (U.number unit.now)) (runnable ((U.layout unit.now).lines (U.number unit.now)))) }
{
    let statements = unit.statements();
    let number = first_executed(statements);
    let size = opening_size(unit)?;
    if size == 0 {
        return Ok(());
    }
    if number >= statements.len() {
        return Ok(());
    }
    let first = &statements[number];
    let start = unit.place(number);
    let entry = plus(start, 1)?;
    put(ops, Op::Begin(first.place))?;
    put_opening(unit, ops)?;
    put(ops, Op::Jump(entry))
}

/// How long the code is that stands before the statements of a unit.
pub(crate) fn prologue_size<U: NamedUnit>(unit: &U) -> Result<u32, AllocError>
    ensures { IfOk result (λ n. n ≡ prologue_size (first_code (U.layout unit.now) (U.number unit.now)) (runnable ((U.layout unit.now).lines (U.number unit.now)))) }
{
    let statements = unit.statements();
    let number = first_executed(statements);
    let size = opening_size(unit)?;
    if size == 0 {
        return Ok(0);
    }
    if number >= statements.len() {
        return Ok(0);
    }
    plus(size, 2)
}
