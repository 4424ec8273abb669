// Elements of arrays.
ghost use Rattle.std.specs.Prelude.{◌≡◌, ◌+◌, ◌<◌, ◌≤◌, ◌^◌, ℕ, pos, length, None, IfSome};
ghost use Rattle.stack_code.specs.Instructions.{Element};
ghost use Rattle.stack_code.specs.StackMachine.{Spot, At, shift};
ghost use Rattle.runner.specs.Words.{Shows, spot_word};
ghost use Rattle.runner.specs.Work.{MayWork, Works, IsRoomFor};
ghost use Rattle.runner.specs.Reaching.{IsCapped, Alike, IsShifted, advanced, reaches, at_first, value_at, product, widened as widened_by, capped as capped_at};

use crate::places::unit_of;
use crate::words::{Word, push, word_at};
use ground::Trap;

/// More than the units of any store.
const MANY: u64 = 2_147_483_648;

/// How far the subscripts so far reach, and how far one of the next subscript reaches, each at most `MANY`.
#[derive(Clone, Copy)]
struct Reach {
    far: u64,
    step: u64,
}

#[inline(always)]
fn capped(number: u64) -> u64
    ensures is { result ≡ capped_at number }
    ensures small { result ≤ 2 ^ 31 }
{
    if number < MANY { number } else { MANY }
}

/// With one more subscript and its dimension.
#[inline(always)]
fn advance(reach: Reach, subscript: i32, size: i32) -> Option<Reach>
    requires { IsCapped reach }
    ensures is { result ≡ advanced reach subscript size }
    ensures capped { IfSome result IsCapped }
{
    if 1 <= subscript && subscript <= size {
        let far = capped(reach.far + u64::from((subscript - 1).unsigned_abs()) * reach.step);
        let step = capped(reach.step * u64::from(size.unsigned_abs()));
        Some(Reach { far, step })
    } else {
        None
    }
}

#[inline(always)]
fn value_of(stack: &[Word], at: usize) -> i32
    requires { at < length stack.now }
    ensures { result ≡ value_at stack.now at }
{
    stack[at].value
}

/// With the subscript and the dimension that lie there.
#[inline(always)]
fn advance_at(reach: Reach, stack: &[Word], subscript: usize, size: usize) -> Option<Reach>
    requires capped { IsCapped reach }
    requires subscript { subscript < length stack.now }
    requires size { size < length stack.now }
    ensures is { result ≡ advanced reach (value_at stack.now subscript) (value_at stack.now size) }
    ensures capped { IfSome result IsCapped }
{
    advance(reach, value_of(stack, subscript), value_of(stack, size))
}

/// How far an element is from its array's first one, by so many subscripts and dimensions. It stands apart from the loop that runs
/// code, whose registers its own loop would take.
#[inline(never)]
fn far_of(stack: &[Word], subscripts: usize, sizes: usize, count: usize) -> Option<u64>
    requires subscripts { subscripts + count ≤ length stack.now }
    requires sizes { sizes + count ≤ length stack.now }
    ensures is { result ≡ reaches at_first stack.now subscripts sizes count }
    ensures small { IfSome result (λ far. far ≤ 2 ^ 31) }
{
    let mut reach = Reach { far: 0, step: 1 };
    for index in 0..count {
        match advance_at(reach, stack, subscripts + index, sizes + index) {
            Some(next) => reach = next,
            None => return None,
        }
    }
    Some(reach.far)
}

/// The same by one subscript and its dimension.
#[inline(always)]
fn far_of_one(stack: &[Word], subscript: usize, size: usize) -> Option<u64>
    requires subscript { subscript < length stack.now }
    requires size { size < length stack.now }
    ensures is { result ≡ reaches at_first stack.now subscript size 1 }
    ensures small { IfSome result (λ far. far ≤ 2 ^ 31) }
{
    match advance_at(Reach { far: 0, step: 1 }, stack, subscript, size) {
        Some(reach) => Some(reach.far),
        None => None,
    }
}

/// The same by two.
#[inline(always)]
fn far_of_two(stack: &[Word], subscripts: usize, sizes: usize) -> Option<u64>
    requires subscripts { subscripts + 2 ≤ length stack.now }
    requires sizes { sizes + 2 ≤ length stack.now }
    ensures is { result ≡ reaches at_first stack.now subscripts sizes 2 }
    ensures small { IfSome result (λ far. far ≤ 2 ^ 31) }
{
    match advance_at(Reach { far: 0, step: 1 }, stack, subscripts, sizes) {
        Some(first) => match advance_at(first, stack, subscripts + 1, sizes + 1) {
            Some(reach) => Some(reach.far),
            None => None,
        },
        None => None,
    }
}

/// The same, with no loop for one subscript or two.
#[inline(always)]
fn far_by(stack: &[Word], subscripts: usize, sizes: usize, count: usize) -> Option<u64>
    requires subscripts { subscripts + count ≤ length stack.now }
    requires sizes { sizes + count ≤ length stack.now }
    ensures is { result ≡ reaches at_first stack.now subscripts sizes count }
    ensures small { IfSome result (λ far. far ≤ 2 ^ 31) }
{
    if count == 1 {
        far_of_one(stack, subscripts, sizes)
    } else if count == 2 {
        far_of_two(stack, subscripts, sizes)
    } else {
        far_of(stack, subscripts, sizes, count)
    }
}

/// The product so far with one more dimension, or None where that is below one.
fn widened(far: u64, size: i32) -> Option<u64>
    requires { far ≤ 2 ^ 31 }
    ensures is { result ≡ widened_by far size }
    ensures small { IfSome result (λ n. n ≤ 2 ^ 31) }
{
    if 1 <= size {
        Some(capped(far * u64::from(size.unsigned_abs())))
    } else {
        None
    }
}

/// With the dimension that lies there.
fn widened_at(far: u64, stack: &[Word], at: usize) -> Option<u64>
    requires small { far ≤ 2 ^ 31 }
    requires within { at < length stack.now }
    ensures is { result ≡ widened_by far (value_at stack.now at) }
    ensures small { IfSome result (λ n. n ≤ 2 ^ 31) }
{
    widened(far, value_of(stack, at))
}

/// The product of so many dimensions.
pub(crate) fn extent_of(stack: &[Word], from: usize, count: usize) -> Option<u64>
    requires { from + count ≤ length stack.now }
    ensures is { result ≡ product 1 stack.now from count }
    ensures small { IfSome result (λ n. n ≤ 2 ^ 31) }
{
    let mut far = 1;
    for index in 0..count {
        match widened_at(far, stack, from + index) {
            Some(next) => far = next,
            None => return None,
        }
    }
    Some(far)
}

/// A unit of a variable with this unit behind it.
#[inline(always)]
fn placed(unit: u64, behind: u32) -> Word
    requires { unit < 2 ^ 31 }
    ensures value { result.value ≡ pos unit }
    ensures behind { result.behind ≡ behind }
{
    Word {
        value: unit as i32,
        behind,
    }
}

/// The spot so many places on.
#[inline(always)]
pub(crate) fn shifted(word: Word, far: u64) -> Option<Word>
    requires spot { (p : Spot) × Shows (At p) word }
    requires few { far ≤ 2 ^ 31 }
    ensures { (p : Spot) (n : ℕ) → Shows (At p) word → Alike far n → IsShifted (shift p n) result }
{
    if word.behind == 0 {
        return if far == 0 { Some(word) } else { None };
    }
    let unit = unit_of(word) as u64 + far;
    if unit < word.behind as u64 {
        Some(placed(unit, word.behind))
    } else {
        None
    }
}

/// The spot so many places behind the first unit of a variable.
#[inline(always)]
pub(crate) fn spot_on(first: u32, size: u32, far: u64) -> Option<Word>
    requires some { 1 ≤ size }
    requires few { first + size < 2 ^ 31 }
    ensures on { (p : Spot) (n : ℕ) → Shows (At p) (spot_word first size) → Alike far n → IsShifted (shift p n) result }
    ensures past { size ≤ far → None ≡ result }
{
    if far < size as u64 {
        Some(placed(first as u64 + far, first + size))
    } else {
        None
    }
}

/// Dimensions, subscripts and a spot are popped, and the spot of the element is pushed.
#[inline(always)]
pub(crate) fn element(count: u8, stack: &mut [Word], top: usize) -> Result<usize, Trap>
    requires { MayWork (Element count) stack.old top }
    ensures works { Works (Element count) stack.old top stack.new result }
    ensures room { IsRoomFor stack.new result }
{
    let sizes = top - count as usize;
    let subscripts = sizes - count as usize;
    match far_by(stack, subscripts, sizes, count as usize) {
        None => Err(Trap::Subscript),
        Some(far) => match shifted(word_at(stack, subscripts), far) {
            None => Err(Trap::Subscript),
            Some(word) => {
                let under = subscripts - 1;
                push(stack, under, word);
                Ok(under + 1)
            }
        },
    }
}
