// Calls: the spots of dummies, and where callers go on.
ghost use Rattle.std.specs.Prelude.{◌≡◌, ◌+◌, ◌-◌, ◌<◌, ◌≤◌, length, slice_get, slice_set, Some};
ghost use Rattle.runner.specs.Frames.{MayFind, Finds, AreHanded};

use crate::words::{Word, push};

/// Where a caller goes on: at an instruction, within the statement that another one begins.
#[derive(Clone, Copy)]
pub struct Resume {
    pub at: usize,
    pub begun: usize,
}

#[inline(always)]
fn word_in(words: &[Word], at: usize) -> Word
    requires { at < length words.now }
    ensures { slice_get words.now at ≡ Some result }
{
    words[at]
}

/// The spot of a dummy is pushed.
#[inline(always)]
pub(crate) fn dummy(
    number: u32,
    spots: &[Word],
    base: usize,
    stack: &mut [Word],
    top: usize,
) -> usize
    requires { MayFind number stack.old top spots.now base }
    ensures finds { Finds number stack.old top spots.now base stack.new result }
    ensures room { result ≤ length stack.new }
{
    let at = base + number as usize;
    push(stack, top, word_in(spots, at));
    top + 1
}

/// So many spots become the dummies of a frame that begins at `base`. It stands apart from the loop that runs code, whose registers
/// its own loop would take.
#[inline(never)]
fn hand_on(stack: &[Word], from: usize, count: usize, spots: &mut [Word], base: usize)
    requires stack { from + count ≤ length stack.now }
    requires spots { base + count ≤ length spots.old }
    ensures { AreHanded stack.now from count spots.old spots.new base }
{
    for index in 0..count {
        put(spots, base + index, word_in(stack, from + index));
    }
}

#[inline(always)]
fn put(words: &mut [Word], at: usize, word: Word)
    requires { at < length words.old }
    ensures { words.new ≡ slice_set words.old at word }
{
    words[at] = word;
}

/// Keeps where a caller goes on.
#[inline(always)]
pub(crate) fn keep_caller(resumes: &mut [Resume], level: usize, resume: Resume)
    requires { level < length resumes.old }
    ensures { resumes.new ≡ slice_set resumes.old level resume }
{
    resumes[level] = resume;
}

/// Where the caller goes on that waits below this level.
#[inline(always)]
pub(crate) fn caller_below(resumes: &[Resume], level: usize) -> Resume
    requires some { 1 ≤ level }
    requires within { level ≤ length resumes.now }
    ensures { slice_get resumes.now (level - 1) ≡ Some result }
{
    resumes[level - 1]
}

/// Spots are popped, and are the dummies of the frame that begins at `base`.
#[inline(always)]
pub(crate) fn call(count: u32, stack: &[Word], top: usize, spots: &mut [Word], base: usize) -> usize
    requires tall { count ≤ top }
    requires within { top ≤ length stack.now }
    requires spots { base + count ≤ length spots.old }
    ensures top { result ≡ top - count }
    ensures handed { AreHanded stack.now (top - count) count spots.old spots.new base }
{
    let from = top - count as usize;
    hand_on(stack, from, count as usize, spots, base);
    from
}
