// Elements whose subscripts are variables: of what they are made nothing but the element's spot is written on the stack.
ghost use Rattle.std.specs.Prelude.{◌≡◌, ◌+◌, ◌*◌, ◌<◌, ◌≤◌, ◌^◌, pos, ◌-ℤ◌, unsigned_abs, int_le, List, length, slice_get, IfSome, Some, true, false};
ghost use Rattle.ground.specs.Arithmetic.{IsInRange};
ghost use Rattle.ground.specs.Content.{Whole};
ghost use Rattle.stack_code.specs.Instructions.{Push, Element};
ghost use Rattle.stack_code.specs.Views.{code_of};
ghost use Rattle.runner.specs.declared.words.Word.{Word as TheWord};
ghost use Rattle.runner.specs.Work.{Works, IsRoomFor};
ghost use Rattle.runner.specs.Reaching.{before as before_in, two_reach};
ghost use Rattle.runner.specs.Subscripted.{IsVariable, AreSubscripts, IsRead, IsLaidOne, AreLaidTwo, IsPlacedBy};

use crate::elements::spot_on;
use crate::places::{cell_at, shown};
use crate::run::is_load;
use crate::slots::Slot;
use crate::words::{Word, push, whole};
use ground::{Kind, Trap};
use stack_code::Op;

/// What stands behind the spot of an array.
#[derive(Clone, Copy)]
pub(crate) enum Subscripts {
    /// Anything else.
    Other,
    /// An element by one variable's unit, and the dimension.
    One(u32, i64),
    /// An element by two variables' units, and the two dimensions.
    Two(u32, u32, i64, i64),
}

/// The first unit of a spot whose integer is loaded.
#[inline(always)]
fn variable_at(ops: &[Op], at: usize) -> Option<u32>
    requires { at + 1 < length ops.now }
    ensures { IfSome result (λ unit. IsVariable (code_of ops.now) at unit) }
{
    match &ops[at] {
        Op::Spot(unit, _) => {
            if is_load(&ops[at + 1]) {
                Some(*unit)
            } else {
                None
            }
        }
        _ => None,
    }
}

/// The integer that is pushed.
#[inline(always)]
fn integer_at(ops: &[Op], at: usize) -> Option<i64>
    requires { at < length ops.now }
    ensures { IfSome result (λ d. slice_get (code_of ops.now) at ≡ Some (Push (Whole d))) }
{
    match &ops[at] {
        Op::PushInt(number) => Some(*number),
        _ => None,
    }
}

/// Whether the element by so many subscripts is found.
#[inline(always)]
fn is_element(ops: &[Op], at: usize, count: u8) -> bool
    requires { at < length ops.now }
    ensures { result ≡ true → slice_get (code_of ops.now) at ≡ Some (Element count) }
{
    match &ops[at] {
        Op::Element(dimensions) => *dimensions == count,
        _ => false,
    }
}

/// The subscripts from here on, where the first is this variable.
#[inline(always)]
fn two_at(ops: &[Op], at: usize, one: u32) -> Subscripts
    requires within { at + 6 < length ops.now }
    requires one { IsVariable (code_of ops.now) at one }
    ensures { AreSubscripts (code_of ops.now) at result }
{
    match variable_at(ops, at + 2) {
        None => Subscripts::Other,
        Some(two) => match integer_at(ops, at + 4) {
            None => Subscripts::Other,
            Some(rows) => match integer_at(ops, at + 5) {
                None => Subscripts::Other,
                Some(columns) => {
                    if is_element(ops, at + 6, 2) {
                        Subscripts::Two(one, two, rows, columns)
                    } else {
                        Subscripts::Other
                    }
                }
            },
        },
    }
}

/// The subscripts from here on.
#[inline(always)]
fn subscripts_at(ops: &[Op], at: usize) -> Subscripts
    requires { at + 6 < length ops.now }
    ensures { AreSubscripts (code_of ops.now) at result }
{
    match variable_at(ops, at) {
        None => Subscripts::Other,
        Some(one) => match integer_at(ops, at + 2) {
            None => two_at(ops, at, one),
            Some(extent) => {
                if is_element(ops, at + 3, 1) {
                    Subscripts::One(one, extent)
                } else {
                    Subscripts::Other
                }
            }
        },
    }
}

/// The same behind a spot of so many units. Where that is one unit it is hardly an array's, and nothing is looked at, and neither is
/// where the spot's number is not below a bound: one test, for two subscripts, of a number that the loop that runs code keeps anyway,
/// as it need not keep how many instructions there are from here on. Of the last few instructions none is found.
#[inline(always)]
pub(crate) fn subscripts_behind(
    size: u32,
    ops: &[Op],
    at: usize,
    number: usize,
    bound: usize,
) -> Subscripts
    requires { number < bound → at + 6 < length ops.now }
    ensures { AreSubscripts (code_of ops.now) at result }
{
    if size == 1 {
        Subscripts::Other
    } else if number < bound {
        subscripts_at(ops, at)
    } else {
        Subscripts::Other
    }
}

/// The integer of a variable's first unit: what a load does where the variable's spot lies on the stack, and neither is written there.
#[inline(always)]
pub(crate) fn subscript(unit: u32, cells: &[Slot]) -> Result<Word, Trap>
    requires { unit < length cells.now }
    ensures { IsRead unit cells.now result }
{
    shown(Kind::Integer, cell_at(cells, unit as usize))
}

/// How many lie before the one that a subscript names. Where the subscript is below one it is more than any array has, so that how
/// many units the array has is the only lower bound that is looked at.
#[inline(always)]
fn before(subscript: i32) -> u64
    ensures named { int_le (pos 1) subscript ≡ true → result ≡ unsigned_abs (subscript -ℤ pos 1) }
    ensures unnamed { int_le (pos 1) subscript ≡ false → 2 ^ 31 ≤ result + 1 }
    ensures small { result < 2 ^ 32 }
{
    u64::from(subscript.cast_unsigned().wrapping_sub(1))
}

/// Whether a subscript is at most its dimension.
#[inline(always)]
fn is_within(subscript: i32, extent: i32) -> bool
    ensures { result ≡ int_le subscript extent }
{
    subscript <= extent
}

/// The spot of the element by one subscript and its dimension.
#[inline(always)]
fn spot_by_one(first: u32, size: u32, subscript: i32, extent: i32) -> Option<Word>
    requires some { 1 ≤ size }
    requires few { first + size < 2 ^ 31 }
    ensures { IsPlacedBy first size (before_in subscript extent) result }
{
    if is_within(subscript, extent) {
        spot_on(first, size, before(subscript))
    } else {
        None
    }
}

/// How many lie before the one that two subscripts name, where each is at most its dimension.
#[inline(always)]
fn before_both(one: i32, two: i32, rows: i32) -> u64
    ensures named { int_le (pos 1) one ≡ true → int_le (pos 1) two ≡ true → int_le one rows ≡ true → result ≡ unsigned_abs (one -ℤ pos 1) + unsigned_abs (two -ℤ pos 1) * unsigned_abs rows }
    ensures first { int_le (pos 1) one ≡ false → 2 ^ 31 ≤ result + 1 }
    ensures second { int_le (pos 1) one ≡ true → int_le one rows ≡ true → int_le (pos 1) two ≡ false → 2 ^ 31 ≤ result + 1 }
{
    before(one) + before(two) * u64::from(rows.cast_unsigned())
}

/// The same by two.
#[inline(always)]
fn spot_by_two(first: u32, size: u32, one: i32, two: i32, rows: i32, columns: i32) -> Option<Word>
    requires some { 1 ≤ size }
    requires few { first + size < 2 ^ 31 }
    ensures { IsPlacedBy first size (two_reach one two rows columns) result }
{
    if is_within(one, rows) && is_within(two, columns) {
        spot_on(first, size, before_both(one, two, rows))
    } else {
        None
    }
}

/// The spot of an element by one subscript is pushed: what Element does where the array's spot, the subscript and the dimension lie on
/// the stack, which need not be written there.
#[inline(always)]
pub(crate) fn element_by_one(
    first: u32,
    size: u32,
    subscript: Word,
    extent: i64,
    stack: &mut [Word],
    top: usize,
) -> Result<usize, Trap>
    requires some { 1 ≤ size }
    requires few { first + size < 2 ^ 31 }
    requires extent { IsInRange extent }
    requires room { top < length stack.old }
    ensures works { (buffer : List TheWord) → IsLaidOne first size subscript extent stack.old top buffer → Works (Element 1) buffer (top + 3) stack.new result }
    ensures room { IsRoomFor stack.new result }
{
    match spot_by_one(first, size, subscript.value, whole(extent).value) {
        None => Err(Trap::Subscript),
        Some(word) => {
            push(stack, top, word);
            Ok(top + 1)
        }
    }
}

/// The same by two.
#[inline(always)]
pub(crate) fn element_by_two(
    first: u32,
    size: u32,
    one: Word,
    two: Word,
    rows: i64,
    columns: i64,
    stack: &mut [Word],
    top: usize,
) -> Result<usize, Trap>
    requires some { 1 ≤ size }
    requires few { first + size < 2 ^ 31 }
    requires rows { IsInRange rows }
    requires columns { IsInRange columns }
    requires room { top < length stack.old }
    ensures works { (buffer : List TheWord) → AreLaidTwo first size one two rows columns stack.old top buffer → Works (Element 2) buffer (top + 5) stack.new result }
    ensures room { IsRoomFor stack.new result }
{
    match spot_by_two(
        first,
        size,
        one.value,
        two.value,
        whole(rows).value,
        whole(columns).value,
    ) {
        None => Err(Trap::Subscript),
        Some(word) => {
            push(stack, top, word);
            Ok(top + 1)
        }
    }
}
