// The instructions on storage units: what they hold is read, stored and lent.
ghost use Rattle.std.specs.Prelude.{◌≡◌, ◌+◌, ◌≤◌, ◌<◌, ◌^◌, ℕ, length, slice_get, slice_set, pos, Some, Ok};
ghost use Rattle.ground.specs.declared.value.Kind.TheVariants.{Integer};
ghost use Rattle.ground.specs.Content.{Content};
ghost use Rattle.f66_tree.specs.Evaluation.{asked};
ghost use Rattle.f66_tree.specs.World.{Store as TheStore, put_in};
ghost use Rattle.stack_code.specs.Instructions.{Load, Store, Forget, Lend};
ghost use Rattle.stack_code.specs.StackMachine.{Spot, Val, At, unit_of as unit_in};
ghost use Rattle.runner.specs.Words.{Shows, IsMade, IsSmall, Agrees, content_of, spot_word};
ghost use Rattle.runner.specs.Work.{MayHold, Holds, IsRoomFor};

use crate::slots::Slot;
use crate::words::{Cell, Word, is_true, push, truth, two_at, word_at};
use ground::{Kind, Trap};

/// What a unit holds.
#[inline(always)]
pub(crate) fn cell_at(cells: &[Slot], unit: usize) -> Cell
    requires { unit < length cells.now }
    ensures { slice_get cells.now unit ≡ Some result }
{
    cells[unit].cell()
}

/// The word of what a unit holds, where a content of a type is asked for.
#[inline(always)]
pub(crate) fn shown(kind: Kind, cell: Cell) -> Result<Word, Trap>
    ensures { IsSmall (content_of cell) → IsMade (asked kind (content_of cell)) result }
{
    match kind {
        Kind::Integer => match cell {
            Cell::Whole(value) => Ok(Word { value, behind: 0 }),
            Cell::Nothing => Err(Trap::Undefined),
            Cell::Truth(_) => Err(Trap::Undefined),
        },
        Kind::Logical => match cell {
            Cell::Truth(value) => Ok(truth(value)),
            Cell::Nothing => Err(Trap::Undefined),
            Cell::Whole(_) => Err(Trap::Undefined),
        },
    }
}

/// The unit of a spot.
#[inline(always)]
pub(crate) fn unit_of(word: Word) -> usize
    requires { (p : Spot) × Shows (At p) word }
    ensures { pos result ≡ word.value }
{
    word.value as usize
}

/// What a unit holds where this integer is stored.
#[inline(always)]
fn whole_cell(word: Word) -> Cell
    requires { word.behind ≡ 0 }
    ensures { (v : Content) → Shows (Val v) word → content_of result ≡ v }
{
    Cell::Whole(word.value)
}

/// What a unit holds where this truth value is stored.
#[inline(always)]
fn truth_cell(word: Word) -> Cell
    requires { word.behind ≡ 0 → ⊥ }
    ensures { (v : Content) → Shows (Val v) word → content_of result ≡ v }
{
    Cell::Truth(is_true(word))
}

/// A unit holds something else from now on.
#[inline(always)]
pub(crate) fn keep(cells: &mut [Slot], unit: usize, cell: Cell)
    requires { unit < length cells.old }
    ensures { (st : TheStore) → Agrees cells.old st → IsSmall (content_of cell) → Agrees cells.new (put_in unit (content_of cell) st) }
{
    cells[unit] = Slot::new(cell);
}

/// A unit holds what a word stands for from now on. Each kind is written apart, which takes fewer instructions.
#[inline(always)]
fn keep_word(cells: &mut [Slot], unit: usize, word: Word)
    requires { unit < length cells.old }
    ensures { (v : Content) → Shows (Val v) word → (st : TheStore) → Agrees cells.old st → Agrees cells.new (put_in unit v st) }
{
    if word.behind == 0 {
        keep(cells, unit, whole_cell(word));
    } else {
        keep(cells, unit, truth_cell(word));
    }
}

/// A spot is popped, and what its unit holds is pushed.
#[inline(always)]
pub(crate) fn load(
    kind: Kind,
    stack: &mut [Word],
    top: usize,
    cells: &[Slot],
) -> Result<usize, Trap>
    requires { MayHold (Load kind) stack.old top cells.now }
    ensures works { Holds (Load kind) stack.old top cells.now stack.new cells.now result }
    ensures room { IsRoomFor stack.new result }
{
    let spot = word_at(stack, top);
    match shown(kind, cell_at(cells, unit_of(spot))) {
        Ok(word) => {
            let under = top - 1;
            push(stack, under, word);
            Ok(under + 1)
        }
        Err(trap) => Err(trap),
    }
}

/// The integer of a variable's first unit is pushed: what a load does where the variable's spot lies on the stack, which need
/// not be written there.
#[inline(always)]
pub(crate) fn variable(
    first: u32,
    stack: &mut [Word],
    top: usize,
    cells: &[Slot],
) -> Result<usize, Trap>
    requires unit { first < length cells.now }
    requires room { top < length stack.old }
    ensures works { (size : ℕ) → Holds (Load Integer) (slice_set stack.old top (spot_word first size)) (top + 1) cells.now stack.new cells.now result }
    ensures room { IsRoomFor stack.new result }
{
    match shown(Kind::Integer, cell_at(cells, first as usize)) {
        Ok(word) => {
            push(stack, top, word);
            Ok(top + 1)
        }
        Err(trap) => Err(trap),
    }
}

/// A value and a spot are popped, and the value is stored there.
#[inline(always)]
pub(crate) fn store(stack: &[Word], top: usize, cells: &mut [Slot]) -> Result<usize, Trap>
    requires { MayHold Store stack.now top cells.old }
    ensures works { Holds Store stack.now top cells.old stack.now cells.new result }
    ensures room { IsRoomFor stack.now result }
{
    let (spot, word) = two_at(stack, top);
    if spot.behind == 0 {
        return Err(Trap::ValueArgument);
    }
    keep_word(cells, unit_of(spot), word);
    Ok(top - 2)
}

/// A spot is popped, and its unit holds nothing from now on.
#[inline(always)]
pub(crate) fn forget(stack: &[Word], top: usize, cells: &mut [Slot]) -> Result<usize, Trap>
    requires { MayHold Forget stack.now top cells.old }
    ensures works { Holds Forget stack.now top cells.old stack.now cells.new result }
    ensures room { IsRoomFor stack.now result }
{
    let spot = word_at(stack, top);
    if spot.behind == 0 {
        return Err(Trap::ValueArgument);
    }
    keep(cells, unit_of(spot), Cell::Nothing);
    Ok(top - 1)
}

/// A value is popped into a unit, and the unit's spot, which is fixed, is pushed.
#[inline(always)]
pub(crate) fn lend(unit: u32, stack: &mut [Word], top: usize, cells: &mut [Slot]) -> usize
    requires unit { unit < length cells.old }
    requires few { length cells.old < 2 ^ 31 }
    requires hold { MayHold (Lend unit) stack.old top cells.old }
    ensures works { Holds (Lend unit) stack.old top cells.old stack.new cells.new (Ok result) }
    ensures room { result ≤ length stack.new }
{
    let word = word_at(stack, top);
    keep_word(cells, unit as usize, word);
    let under = top - 1;
    push(
        stack,
        under,
        Word {
            value: unit as i32,
            behind: 0,
        },
    );
    under + 1
}
