// The instructions that may go on elsewhere than at the next one.
ghost use Rattle.std.specs.Prelude.{◌≡◌, ◌≤◌, ◌<◌, ◌^◌, ℕ, suc, pos, length, slice_get, MatchOption, Some, Ok, true};
ghost use Rattle.stack_code.specs.Instructions.{JumpFalse, JumpSign, JumpTable};
ghost use Rattle.stack_code.specs.ValidCode.{IsIn, ways};
ghost use Rattle.stack_code.specs.Views.{instruction_of};
ghost use Rattle.runner.specs.Work.{MayWork, Leaps, IsRoomBehind, IsWayOf, IsLow, is_leap};

use crate::words::{Word, is_true, word_at};
use ground::Trap;
use stack_code::Op;

/// A truth value is popped; the next instruction comes where it is true.
#[inline(always)]
fn jump_false(to: u32, pc: usize, stack: &[Word], top: usize) -> (usize, usize)
    requires few { pc < 2 ^ 63 }
    requires work { MayWork (JumpFalse to) stack.now top }
    ensures leaps { Leaps (JumpFalse to) pc stack.now top (Ok result) }
    ensures room { result.1 ≤ length stack.now }
    ensures way { IsIn result.0 (ways (JumpFalse to) pc) }
{
    if is_true(word_at(stack, top)) {
        (pc + 1, top - 1)
    } else {
        (to as usize, top - 1)
    }
}

/// An integer is popped, and its sign tells where to go on.
#[inline(always)]
fn jump_sign(below: u32, zero: u32, above: u32, stack: &[Word], top: usize) -> (usize, usize)
    requires work { MayWork (JumpSign below zero above) stack.now top }
    ensures leaps { (pc : ℕ) → Leaps (JumpSign below zero above) pc stack.now top (Ok result) }
    ensures room { result.1 ≤ length stack.now }
    ensures way { (pc : ℕ) → IsIn result.0 (ways (JumpSign below zero above) pc) }
{
    let value = word_at(stack, top).value;
    if value < 0 {
        (below as usize, top - 1)
    } else if value == 0 {
        (zero as usize, top - 1)
    } else {
        (above as usize, top - 1)
    }
}

/// The index of the target of this number, from 1 on.
#[inline(always)]
fn index_in(word: Word) -> Option<usize>
    ensures { MatchOption result (IsLow word.value) (λ n. word.value ≡ pos (suc n)) }
{
    if word.value < 1 {
        None
    } else {
        Some(word.value as usize - 1)
    }
}

/// The target at an index, where there is one.
#[inline(always)]
fn target_at(targets: &[u32], index: usize) -> Option<usize>
    ensures { MatchOption result (length targets.now ≤ index) (λ to. slice_get targets.now index ≡ Some to) }
{
    if index < targets.len() {
        Some(targets[index] as usize)
    } else {
        None
    }
}

/// An integer is popped, and the target of that number is gone to. It stands apart from the loop that runs code, since it comes seldom.
#[inline(never)]
fn jump_table(targets: &[u32], stack: &[Word], top: usize) -> Result<(usize, usize), Trap>
    requires work { MayWork (JumpTable targets.now) stack.now top }
    ensures leaps { (pc : ℕ) → Leaps (JumpTable targets.now) pc stack.now top result }
    ensures room { IsRoomBehind stack.now result }
    ensures way { (pc : ℕ) → IsWayOf (JumpTable targets.now) pc result }
{
    match index_in(word_at(stack, top)) {
        None => Err(Trap::BadBranch),
        Some(index) => match target_at(targets, index) {
            None => Err(Trap::BadBranch),
            Some(to) => Ok((to, top - 1)),
        },
    }
}

/// An instruction that may go on elsewhere: where it goes on, and how many words the stack has then.
#[inline(always)]
pub(crate) fn leap(op: &Op, pc: usize, stack: &[Word], top: usize) -> Result<(usize, usize), Trap>
    requires leaps { is_leap (instruction_of op.now) ≡ true }
    requires few { pc < 2 ^ 63 }
    requires work { MayWork (instruction_of op.now) stack.now top }
    ensures leaps { Leaps (instruction_of op.now) pc stack.now top result }
    ensures room { IsRoomBehind stack.now result }
    ensures way { IsWayOf (instruction_of op.now) pc result }
{
    match op {
        Op::Jump(to) => Ok((*to as usize, top)),
        Op::JumpFalse(to) => Ok(jump_false(*to, pc, stack, top)),
        Op::JumpSign(below, zero, above) => Ok(jump_sign(*below, *zero, *above, stack, top)),
        Op::JumpTable(targets) => jump_table(targets, stack, top),
        _ => unreachable!(),
    }
}
