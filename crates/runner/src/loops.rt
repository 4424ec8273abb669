// The instructions of a DO.
ghost use Rattle.std.specs.Prelude.{◌≡◌, ◌+◌, ◌<◌, ◌≤◌, ◌^◌, ℕ, pos, ◌≤ℤ◌, List, length, slice_set, IfSome, IfOk, MatchOption};
ghost use Rattle.ground.specs.declared.trap.Trap.TheVariants.{Undefined};
ghost use Rattle.ground.specs.declared.value.Kind.TheVariants.{Integer};
ghost use Rattle.ground.specs.Arithmetic.{IsInRange};
ghost use Rattle.ground.specs.Content.{Whole};
ghost use Rattle.f66_tree.specs.World.{Traps, Store};
ghost use Rattle.f66_tree.specs.Evaluation.{asked};
ghost use Rattle.stack_code.specs.Instructions.{LoopStart, LoopTurn};
ghost use Rattle.stack_code.specs.StackMachine.{limit_in, step_in};
ghost use Rattle.runner.specs.Words.{IsSmall, Agrees, content_of, spot_word};
ghost use Rattle.runner.specs.declared.words.Word.{Word as TheWord};
ghost use Rattle.runner.specs.Work.{MayHold, Holds, LeapsOver, IsRoomFor, IsRoomBehind, IsWayOf, fits, next_in};

use crate::places::{cell_at, keep, unit_of};
use crate::slots::Slot;
use crate::words::{Cell, Word, two_at, word_at};
use ground::Trap;

/// All parameters are at least one, and the first is at most the last.
#[inline(always)]
fn fit(first: i32, last: i32, step: i32) -> bool
    ensures { result ≡ fits first last step }
{
    1 <= first && first <= last && 1 <= step
}

/// A DO begins: its parameters and its variable's spot are popped, and its limit and its step are kept.
#[inline(always)]
pub(crate) fn loop_start(
    limit: u32,
    step: u32,
    stack: &[Word],
    top: usize,
    cells: &mut [Slot],
) -> Result<usize, Trap>
    requires limit { limit < length cells.old }
    requires step { step < length cells.old }
    requires hold { MayHold (LoopStart limit step) stack.now top cells.old }
    ensures works { Holds (LoopStart limit step) stack.now top cells.old stack.now cells.new result }
    ensures room { IsRoomFor stack.now result }
{
    let (last, by) = two_at(stack, top);
    let under = top - 2;
    let (spot, first) = two_at(stack, under);
    if !fit(first.value, last.value, by.value) {
        return Err(Trap::BadDo);
    }
    if spot.behind == 0 {
        return Err(Trap::ValueArgument);
    }
    keep(cells, unit_of(spot), Cell::Whole(first.value));
    keep(cells, limit as usize, Cell::Whole(last.value));
    keep(cells, step as usize, Cell::Whole(by.value));
    Ok(under - 2)
}

/// The integer that a unit holds.
#[inline(always)]
fn whole_in(cell: Cell) -> Option<i32>
    ensures { MatchOption result (asked Integer (content_of cell) ≡ Traps Undefined) (λ z. content_of cell ≡ Whole z) }
{
    match cell {
        Cell::Whole(value) => Some(value),
        Cell::Nothing => None,
        Cell::Truth(_) => None,
    }
}

#[inline(always)]
fn limit_of(cell: Cell) -> i64
    requires { IsSmall (content_of cell) }
    ensures is { result ≡ limit_in (content_of cell) }
    ensures range { IsInRange result }
{
    match cell {
        Cell::Whole(value) => i64::from(value),
        Cell::Nothing => 0,
        Cell::Truth(_) => 0,
    }
}

#[inline(always)]
fn step_of(cell: Cell) -> i64
    requires { IsSmall (content_of cell) }
    ensures is { result ≡ step_in (content_of cell) }
    ensures some { pos 1 ≤ℤ result }
    ensures range { IsInRange result }
{
    match cell {
        Cell::Whole(value) => { if value < 1 { 1 } else { i64::from(value) } }
        Cell::Nothing => 1,
        Cell::Truth(_) => 1,
    }
}

/// The next value of a DO's variable, where it is not past the limit.
#[inline(always)]
fn next_value(value: i32, limit: Cell, step: Cell) -> Option<i32>
    requires value { IsInRange value }
    requires limit { IsSmall (content_of limit) }
    requires step { IsSmall (content_of step) }
    ensures is { result ≡ next_in value limit step }
    ensures range { IfSome result IsInRange }
{
    let next = i64::from(value) + step_of(step);
    if next <= limit_of(limit) {
        Some(next as i32)
    } else {
        None
    }
}

/// After a turn of a DO: its variable's spot is popped, and the variable goes on, or holds nothing from now on.
#[inline(always)]
pub(crate) fn loop_turn(
    limit: u32,
    step: u32,
    to: u32,
    pc: usize,
    stack: &[Word],
    top: usize,
    cells: &mut [Slot],
) -> Result<(usize, usize), Trap>
    requires limit { limit < length cells.old }
    requires step { step < length cells.old }
    requires few { pc < 2 ^ 63 }
    requires hold { MayHold (LoopTurn limit step to) stack.now top cells.old }
    ensures leaps { LeapsOver (LoopTurn limit step to) pc stack.now top cells.old cells.new result }
    ensures room { IsRoomBehind stack.now result }
    ensures way { IsWayOf (LoopTurn limit step to) pc result }
{
    let spot = word_at(stack, top);
    let unit = unit_of(spot);
    match whole_in(cell_at(cells, unit)) {
        None => Err(Trap::Undefined),
        Some(value) => {
            if spot.behind == 0 {
                return Err(Trap::ValueArgument);
            }
            match next_value(
                value,
                cell_at(cells, limit as usize),
                cell_at(cells, step as usize),
            ) {
                Some(next) => {
                    keep(cells, unit, Cell::Whole(next));
                    Ok((to as usize, top - 1))
                }
                None => {
                    keep(cells, unit, Cell::Nothing);
                    Ok((pc + 1, top - 1))
                }
            }
        }
    }
}

/// The same where the variable's spot lies on the stack, which need not be written there. So many words are below it.
#[inline(always)]
pub(crate) fn variable_turn(
    first: u32,
    limit: u32,
    step: u32,
    to: u32,
    pc: usize,
    top: usize,
    cells: &mut [Slot],
) -> Result<(usize, usize), Trap>
    requires unit { first < length cells.old }
    requires limit { limit < length cells.old }
    requires step { step < length cells.old }
    requires few { pc < 2 ^ 63 }
    requires agrees { (st : Store) × Agrees cells.old st }
    ensures leaps { (buffer : List TheWord) (size : ℕ) → top < length buffer → 1 ≤ size → LeapsOver (LoopTurn limit step to) pc (slice_set buffer top (spot_word first size)) (top + 1) cells.old cells.new result }
    ensures top { IfOk result (λ r. r.1 ≡ top) }
    ensures way { IsWayOf (LoopTurn limit step to) pc result }
{
    let unit = first as usize;
    match whole_in(cell_at(cells, unit)) {
        None => Err(Trap::Undefined),
        Some(value) => match next_value(
            value,
            cell_at(cells, limit as usize),
            cell_at(cells, step as usize),
        ) {
            Some(next) => {
                keep(cells, unit, Cell::Whole(next));
                Ok((to as usize, top))
            }
            None => {
                keep(cells, unit, Cell::Nothing);
                Ok((pc + 1, top))
            }
        },
    }
}
