// The instructions on values: operators, signs and intrinsic functions.
ghost use Rattle.std.specs.Prelude.{◌≡◌, ◌∷◌, ◌+◌, ◌≤◌, ◌<◌, ◌^◌, length, get_or, IfOk, Ok, neg_ℤ, true};
ghost use Rattle.ground.specs.Arithmetic.{IsInRange, in_range as ranged};
ghost use Rattle.ground.specs.Content.{Content, Whole, Truth};
ghost use Rattle.f66_tree.specs.Evaluation.{on_whole, whole as tried, operate as operated, opposite as opposed, denied as refused};
ghost use Rattle.stack_code.specs.Instructions.{Both, Push, PushSpot, Minus, Not};
ghost use Rattle.stack_code.specs.StackMachine.{Val};
ghost use Rattle.runner.specs.Words.{Shows, IsMade, IsWholeWord, blank, pile_of};
ghost use Rattle.runner.specs.Subscripted.{integer_word};
ghost use Rattle.runner.specs.Work.{is_arithmetic, AreOperands, IsOperand, IsGiven, MayWork, Works, IsRoomFor};

use crate::words::{Word, first_of, is_true, push, truth, two_at, whole, word_at};
use f66_tree::Operator;
use ground::{Trap, div, power};

/// The exact number, where it is in range.
#[inline(always)]
pub(crate) fn in_range(exact: i64) -> Result<i64, Trap>
    ensures { result ≡ ranged exact }
{
    if exact < -2_147_483_647 || 2_147_483_647 < exact {
        return Err(Trap::Overflow);
    }
    Ok(exact)
}

/// The word of a number, where there is one.
#[inline(always)]
pub(crate) fn made(number: Result<i64, Trap>) -> Result<Word, Trap>
    requires { IfOk number IsInRange }
    ensures { IsMade (tried number) result }
{
    match number {
        Ok(exact) => Ok(whole(exact)),
        Err(trap) => Err(trap),
    }
}

/// What an arithmetic operator makes of two integers.
#[inline(always)]
fn number(op: Operator, a: i64, b: i64) -> Result<i64, Trap>
    requires kind { is_arithmetic op ≡ true }
    requires first { IsInRange a }
    requires second { IsInRange b }
    ensures is { tried result ≡ on_whole op a b }
    ensures small { IfOk result IsInRange }
{
    match op {
        Operator::Add => in_range(a + b),
        Operator::Sub => in_range(a - b),
        Operator::Mul => in_range(a * b),
        Operator::Div => div(a, b),
        Operator::Power => power(a, b),
        _ => unreachable!(),
    }
}

/// An operator with two integers.
#[inline(always)]
fn on_integers(op: Operator, a: i64, b: i64) -> Result<Word, Trap>
    requires first { IsInRange a }
    requires second { IsInRange b }
    requires given { IsGiven (on_whole op a b) }
    ensures { IsMade (on_whole op a b) result }
{
    match op {
        Operator::Add | Operator::Sub | Operator::Mul | Operator::Div | Operator::Power => {
            made(number(op, a, b))
        }
        Operator::Lt => Ok(truth(a < b)),
        Operator::Le => Ok(truth(a <= b)),
        Operator::Eq => Ok(truth(a <= b && b <= a)),
        Operator::Ne => Ok(truth(a < b || b < a)),
        Operator::Ge => Ok(truth(b <= a)),
        Operator::Gt => Ok(truth(b < a)),
        Operator::And => unreachable!(),
        Operator::Or => unreachable!(),
    }
}

/// An operator with two values.
#[inline(always)]
fn operate(op: Operator, x: Word, y: Word) -> Result<Word, Trap>
    requires { AreOperands op x y }
    ensures { (a b : Content) → Shows (Val a) x → Shows (Val b) y → IsGiven (operated op a b) → IsMade (operated op a b) result }
{
    match op {
        Operator::And => Ok(truth(is_true(x) && is_true(y))),
        Operator::Or => Ok(truth(is_true(x) || is_true(y))),
        _ => on_integers(op, i64::from(x.value), i64::from(y.value)),
    }
}

/// Two values are popped, and what the operator makes of them is pushed.
#[inline(always)]
pub(crate) fn both(op: Operator, stack: &mut [Word], top: usize) -> Result<usize, Trap>
    requires { MayWork (Both op) stack.old top }
    ensures works { Works (Both op) stack.old top stack.new result }
    ensures room { IsRoomFor stack.new result }
{
    let (x, y) = two_at(stack, top);
    match operate(op, x, y) {
        Ok(word) => {
            let under = top - 2;
            push(stack, under, word);
            Ok(under + 1)
        }
        Err(trap) => Err(trap),
    }
}

/// Writes an integer in the place of a word behind which nothing is, of which only the number changes.
#[inline(always)]
fn put_number(stack: &mut [Word], at: usize, number: i64)
    requires within { at < length stack.old }
    requires small { IsInRange number }
    requires same { (get_or stack.old at blank).behind ≡ 0 }
    ensures { pile_of stack.new (at + 1) ≡ integer_word number ∷ pile_of stack.old at }
{
    stack[at].value = number as i32;
}

/// Two integers are popped, and what an arithmetic operator makes of them is pushed: it is written in the place of the first.
#[inline(always)]
pub(crate) fn arithmetic(op: Operator, stack: &mut [Word], top: usize) -> Result<usize, Trap>
    requires kind { is_arithmetic op ≡ true }
    requires work { MayWork (Both op) stack.old top }
    ensures works { Works (Both op) stack.old top stack.new result }
    ensures room { IsRoomFor stack.new result }
{
    let (x, y) = two_at(stack, top);
    match number(op, i64::from(x.value), i64::from(y.value)) {
        Ok(exact) => {
            let under = top - 2;
            put_number(stack, under, exact);
            Ok(under + 1)
        }
        Err(trap) => Err(trap),
    }
}

/// An integer is pushed.
#[inline(always)]
pub(crate) fn push_integer(number: i64, stack: &mut [Word], top: usize) -> usize
    requires small { IsInRange number }
    requires work { MayWork (Push (Whole number)) stack.old top }
    ensures works { Works (Push (Whole number)) stack.old top stack.new (Ok result) }
    ensures room { result ≤ length stack.new }
{
    push(stack, top, whole(number));
    top + 1
}

/// A truth value is pushed.
#[inline(always)]
pub(crate) fn push_truth(value: bool, stack: &mut [Word], top: usize) -> usize
    requires work { MayWork (Push (Truth value)) stack.old top }
    ensures works { Works (Push (Truth value)) stack.old top stack.new (Ok result) }
    ensures room { result ≤ length stack.new }
{
    push(stack, top, truth(value));
    top + 1
}

/// A spot is pushed: the first of some units.
#[inline(always)]
pub(crate) fn push_spot(first: u32, size: u32, stack: &mut [Word], top: usize) -> usize
    requires some { 1 ≤ size }
    requires few { first + size < 2 ^ 31 }
    requires work { MayWork (PushSpot first size) stack.old top }
    ensures works { Works (PushSpot first size) stack.old top stack.new (Ok result) }
    ensures room { result ≤ length stack.new }
{
    push(stack, top, first_of(first, size));
    top + 1
}

/// The word of the number with the other sign.
#[inline(always)]
fn negative(x: Word) -> Word
    requires { IsInRange x.value }
    ensures { IsWholeWord (neg_ℤ x.value) result }
{
    Word {
        value: -x.value,
        behind: 0,
    }
}

/// The integer with the other sign.
#[inline(always)]
fn opposite(x: Word) -> Word
    requires { IsOperand opposed x }
    ensures { (a : Content) → Shows (Val a) x → IsGiven (opposed a) → IsMade (opposed a) (Ok result) }
{
    negative(x)
}

/// The other truth value.
#[inline(always)]
fn denied(x: Word) -> Word
    requires { IsOperand refused x }
    ensures { (a : Content) → Shows (Val a) x → IsGiven (refused a) → IsMade (refused a) (Ok result) }
{
    truth(!is_true(x))
}

/// An integer's sign is changed.
#[inline(always)]
pub(crate) fn minus(stack: &mut [Word], top: usize) -> usize
    requires { MayWork Minus stack.old top }
    ensures works { Works Minus stack.old top stack.new (Ok result) }
    ensures room { result ≤ length stack.new }
{
    let x = word_at(stack, top);
    let under = top - 1;
    push(stack, under, opposite(x));
    under + 1
}

/// A truth value is denied.
#[inline(always)]
pub(crate) fn not(stack: &mut [Word], top: usize) -> usize
    requires { MayWork Not stack.old top }
    ensures works { Works Not stack.old top stack.new (Ok result) }
    ensures room { result ≤ length stack.new }
{
    let x = word_at(stack, top);
    let under = top - 1;
    push(stack, under, denied(x));
    under + 1
}
