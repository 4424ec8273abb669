// What a stack and a store hold, and how words are written and read.
ghost use Rattle.std.specs.Prelude.{◌≡◌, ◌+◌, ◌-◌, ◌<◌, ◌≤◌, ◌∷◌, ◌^◌, Bool, false, length};
ghost use Rattle.ground.specs.Arithmetic.{IsInRange};
ghost use Rattle.ground.specs.Content.{Whole, Truth};
ghost use Rattle.stack_code.specs.StackMachine.{Val, At, spot};
ghost use Rattle.runner.specs.Words.{pile_of, bit, IsWholeWord, IsTruthWord, Shows};

/// An entry of the stack, whose kind the code tells: an integer, a truth value as zero or one, or a storage unit. `behind` is
/// the unit behind the last one of a spot's variable, and zero where its value is lent; of a value it is 0, of a truth value 1.
#[derive(Clone, Copy)]
pub struct Word {
    pub value: i32,
    pub behind: u32,
}

/// What a storage unit holds.
#[derive(Clone, Copy)]
pub enum Cell {
    Nothing,
    Whole(i32),
    Truth(bool),
}

/// Writes one more word on a stack of so many.
#[inline(always)]
pub(crate) fn push(stack: &mut [Word], top: usize, word: Word)
    requires { top < length stack.old }
    ensures { pile_of stack.new (top + 1) ≡ word ∷ pile_of stack.old top }
{
    stack[top] = word;
}

/// The topmost of so many words.
#[inline(always)]
pub(crate) fn word_at(stack: &[Word], top: usize) -> Word
    requires some { 1 ≤ top }
    requires within { top ≤ length stack.now }
    ensures { pile_of stack.now top ≡ result ∷ pile_of stack.now (top - 1) }
{
    stack[top - 1]
}

/// An integer.
#[inline(always)]
pub(crate) fn whole(number: i64) -> Word
    requires { IsInRange number }
    ensures { IsWholeWord number result }
{
    Word {
        value: number as i32,
        behind: 0,
    }
}

/// A truth value.
#[inline(always)]
pub(crate) fn truth(value: bool) -> Word
    ensures { IsTruthWord value result }
{
    Word {
        value: if value { 1 } else { 0 },
        behind: 1,
    }
}

/// The first of so many units of a variable.
#[inline(always)]
pub(crate) fn first_of(first: u32, size: u32) -> Word
    requires some { 1 ≤ size }
    requires few { first + size < 2 ^ 31 }
    ensures { Shows (At (spot first size false)) result }
{
    Word {
        value: first as i32,
        behind: first + size,
    }
}

#[inline(always)]
pub(crate) fn is_true(word: Word) -> bool
    ensures { (b : Bool) → word.value ≡ bit b → result ≡ b }
{
    word.value != 0
}

/// The two topmost words, the deeper one first.
#[inline(always)]
pub(crate) fn two_at(stack: &[Word], top: usize) -> (Word, Word)
    requires some { 2 ≤ top }
    requires within { top ≤ length stack.now }
    ensures { pile_of stack.now top ≡ result.1 ∷ result.0 ∷ pile_of stack.now (top - 2) }
{
    (word_at(stack, top - 1), word_at(stack, top))
}
