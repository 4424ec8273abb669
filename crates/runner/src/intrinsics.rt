// Intrinsic functions of integers.
ghost use Rattle.std.specs.Prelude.{◌≡◌, ◌+◌, ◌<◌, ◌≤◌, List, length, get_or, pos, unsigned_abs, true};
ghost use Rattle.ground.specs.Arithmetic.{IsInRange, remainder as rest_of};
ghost use Rattle.ground.specs.Content.{Content};
ghost use Rattle.f66_tree.specs.Evaluation.{whole as tried, with_sign, excess as excess_of};
ghost use Rattle.stack_code.specs.Instructions.{Known};
ghost use Rattle.stack_code.specs.StackMachine.{Val, known as known_as, intrinsic_by};
ghost use Rattle.stack_code.specs.ValidCode.{takes};
ghost use Rattle.runner.specs.Words.{Lies, IsMade, IsWholeWord, blank};
ghost use Rattle.runner.specs.Work.{IsGiven, MayWork, Works, IsRoomFor};
ghost use Rattle.runner.specs.Arguments.{AreArguments, few_of, better as better_of, extreme as extreme_of};

use crate::values::{in_range, made};
use crate::words::{Word, push};
use ground::{Trap, modulo};

/// The word that lies there.
#[inline(always)]
fn word_of(stack: &[Word], at: usize) -> Word
    requires { at < length stack.now }
    ensures { result ≡ get_or stack.now at blank }
{
    stack[at]
}

#[inline(always)]
fn integer(x: Word) -> Word
    requires { IsInRange x.value }
    ensures { IsWholeWord x.value result }
{
    Word {
        value: x.value,
        behind: 0,
    }
}

/// The magnitude.
#[inline(always)]
fn magnitude(x: Word) -> Word
    requires { IsInRange x.value }
    ensures { IsWholeWord (pos (unsigned_abs x.value)) result }
{
    Word {
        value: x.value.abs(),
        behind: 0,
    }
}

/// The magnitude of the first with the sign of the second.
#[inline(always)]
fn signed(x: Word, y: Word) -> Word
    requires { IsInRange x.value }
    ensures { IsWholeWord (with_sign x.value y.value) result }
{
    Word {
        value: if y.value < 0 {
            -x.value.abs()
        } else {
            x.value.abs()
        },
        behind: 0,
    }
}

/// The first less the second, or zero where that is less.
#[inline(always)]
fn excess(x: Word, y: Word) -> Result<Word, Trap>
    requires first { IsInRange x.value }
    requires second { IsInRange y.value }
    ensures { IsMade (excess_of x.value y.value) result }
{
    if y.value < x.value {
        made(in_range(i64::from(x.value) - i64::from(y.value)))
    } else {
        Ok(Word {
            value: 0,
            behind: 0,
        })
    }
}

/// What division leaves.
#[inline(always)]
fn remainder(x: Word, y: Word) -> Result<Word, Trap>
    requires first { IsInRange x.value }
    requires second { IsInRange y.value }
    ensures { IsMade (tried (rest_of x.value y.value)) result }
{
    made(modulo(i64::from(x.value), i64::from(y.value)))
}

/// The greater or the smaller of two.
#[inline(always)]
fn better(greatest: bool, best: Word, next: Word) -> Word
    ensures { result.value ≡ better_of greatest best.value next.value }
{
    let beats = if greatest {
        best.value < next.value
    } else {
        next.value < best.value
    };
    if beats { next } else { best }
}

/// The greatest or the smallest of this one and so many more.
#[inline(always)]
fn extreme(greatest: bool, first: Word, stack: &[Word], at: usize, count: usize) -> Word
    requires { at + count ≤ length stack.now }
    ensures { result.value ≡ extreme_of greatest first.value stack.now at count }
{
    let mut best = first;
    for index in 0..count {
        best = better(greatest, best, word_of(stack, at + index));
    }
    best
}

/// A function of one integer or two.
#[inline(always)]
fn few(function: u8, x: Word, y: Word) -> Result<Word, Trap>
    requires few { function ≤ 3 }
    requires first { IsInRange x.value }
    requires second { IsInRange y.value }
    ensures { IsMade (few_of function x.value y.value) result }
{
    if function == 0 {
        Ok(magnitude(x))
    } else if function == 1 {
        remainder(x, y)
    } else if function == 2 {
        Ok(signed(x, y))
    } else {
        excess(x, y)
    }
}

/// An intrinsic function by its number, of so many values from `low` on.
#[inline(always)]
fn intrinsic(function: u8, stack: &[Word], low: usize, count: usize) -> Result<Word, Trap>
    requires takes { takes function count ≡ true }
    requires within { low + count ≤ length stack.now }
    requires arguments { AreArguments function stack.now low count }
    ensures { (vs : List Content) → Lies Val vs stack.now low → length vs ≡ count → IsGiven (intrinsic_by (known_as function) vs) → IsMade (intrinsic_by (known_as function) vs) result }
{
    let first = word_of(stack, low);
    if function <= 3 {
        let last = word_of(stack, low + count - 1);
        few(function, first, last)
    } else {
        let best = extreme(function == 4, first, stack, low + 1, count - 1);
        Ok(integer(best))
    }
}

/// Values are popped, and what the function makes of them is pushed.
#[inline(always)]
pub(crate) fn known(function: u8, count: u32, stack: &mut [Word], top: usize) -> Result<usize, Trap>
    requires takes { takes function count ≡ true }
    requires work { MayWork (Known function count) stack.old top }
    ensures works { Works (Known function count) stack.old top stack.new result }
    ensures room { IsRoomFor stack.new result }
{
    let under = top - count as usize;
    match intrinsic(function, stack, under, count as usize) {
        Ok(word) => {
            push(stack, under, word);
            Ok(under + 1)
        }
        Err(trap) => Err(trap),
    }
}
