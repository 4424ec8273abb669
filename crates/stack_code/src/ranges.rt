// Whether the operands of each instruction are in their ranges.
ghost use Rattle.std.specs.Prelude.{◌≡◌, ◌↔◌, ◌<◌, ℕ, IsTrue, length, slice_get, Some, true, []};
ghost use Rattle.stack_code.specs.Instructions.{Instruction, PushSpot};
ghost use Rattle.stack_code.specs.Views.{instruction_of, code_of};
ghost use Rattle.stack_code.specs.ValidCode as valid;

use crate::Op;
use f66_tree::Operator;

const GREATEST: i64 = 2_147_483_647;

#[tactic(auto, using(crate::proofs::FactsLemmas::code_at, crate::proofs::FactsLemmas::code_past))]
fn is_counted(ops: &[Op], at: usize) -> bool
    ensures { result ≡ valid.is_counted (slice_get (code_of ops.now) at) }
{
    if at >= ops.len() {
        return false;
    }
    match &ops[at] {
        Op::Begin(_) => true,
        Op::Step => true,
        _ => false,
    }
}

#[tactic(auto, using(crate::proofs::FactsLemmas::code_at, crate::proofs::FactsLemmas::code_past))]
pub(crate) fn is_begin(ops: &[Op], at: usize) -> bool
    ensures { result ≡ valid.is_begin (slice_get (code_of ops.now) at) }
{
    if at >= ops.len() {
        return false;
    }
    match &ops[at] {
        Op::Begin(_) => true,
        _ => false,
    }
}

/// A target is there, and a Begin or a Step where it is not later.
#[tactic(auto, using(crate::proofs::FactsLemmas::code_long))]
fn is_target(ops: &[Op], pc: usize, to: u32) -> bool
    ensures { result ≡ valid.is_target (code_of ops.now) pc to }
{
    let to = to as usize;
    to < ops.len() && (pc < to || is_counted(ops, to))
}

fn takes(function: u8, count: u32) -> bool
    ensures { result ≡ valid.takes function count }
{
    match function {
        0 => count == 1,
        1 => count == 2,
        2 => count == 2,
        3 => count == 2,
        4 => count >= 2,
        5 => count >= 2,
        _ => false,
    }
}

fn is_relation(operator: Operator) -> bool
    ensures { result ≡ valid.is_relation operator }
{
    match operator {
        Operator::Lt => true,
        Operator::Le => true,
        Operator::Eq => true,
        Operator::Ne => true,
        Operator::Ge => true,
        Operator::Gt => true,
        _ => false,
    }
}

fn is_spot(first: u32, size: u32, units: u32) -> bool
    ensures { result ≡ valid.is_in_range [] 0 units 0 (PushSpot first size) }
{
    size >= 1 && u64::from(first) + u64::from(size) <= u64::from(units)
}

fn are_targets(ops: &[Op], pc: usize, targets: &[u32]) -> bool
    ensures { result ≡ valid.are_targets (code_of ops.now) pc targets.now }
{
    for to in targets {
        if !is_target(ops, pc, *to) {
            return false;
        }
    }
    true
}

/// Whether the operands of an instruction that stands at `pc` are in their ranges.
fn in_range_at(ops: &[Op], plans: usize, units: u32, pc: usize, op: &Op) -> bool
    ensures { result ≡ valid.is_in_range (code_of ops.now) plans units pc (instruction_of op.now) }
{
    match op {
        Op::PushInt(value) => -GREATEST <= *value && *value <= GREATEST,
        Op::Spot(first, size) => is_spot(*first, *size, units),
        Op::Lend(unit) => *unit < units,
        Op::Compare(operator) => is_relation(*operator),
        Op::Known(function, count) => takes(*function, *count),
        Op::Jump(to) => is_target(ops, pc, *to),
        Op::JumpFalse(to) => is_target(ops, pc, *to),
        Op::JumpSign(below, zero, above) => {
            is_target(ops, pc, *below) && is_target(ops, pc, *zero) && is_target(ops, pc, *above)
        }
        Op::JumpTable(targets) => are_targets(ops, pc, targets),
        Op::LoopStart(limit, step) => *limit < units && *step < units,
        Op::LoopTurn(limit, step, to) => {
            *limit < units && *step < units && is_target(ops, pc, *to)
        }
        Op::Call(to, _) => is_begin(ops, *to as usize),
        Op::WriteStart(plan) => (*plan as usize) < plans,
        Op::ReadStart(plan) => (*plan as usize) < plans,
        _ => true,
    }
}

/// Whether the operands of all instructions are in their ranges.
pub(crate) fn all_in_range(ops: &[Op], plans: usize, units: u32) -> bool
    ensures { IsTrue result ↔ ((pc : ℕ) (i : Instruction) → slice_get (code_of ops.now) pc ≡ Some i → valid.is_in_range (code_of ops.now) plans units pc i ≡ true) }
{
    for (pc, op) in ops.iter().enumerate() {
        if !in_range_at(ops, plans, units, pc, op) {
            return false;
        }
    }
    true
}
