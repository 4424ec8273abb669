// Units of a row that come or go as characters, several at once.
ghost use Rattle.std.specs.Prelude.{◌≡◌, ◌+◌, ◌<◌, ◌≤◌, ◌++◌, ◌^◌, ℕ, List, All, pos, length, map, take as first, drop, true, false};
ghost use Rattle.ground.specs.declared.value.Kind.TheVariants.{Integer};
ghost use Rattle.f66_tree.specs.declared.editing.Way.TheVariants.{Reading, Writing};
ghost use Rattle.f66_tree.specs.Turns.{is_over};
ghost use Rattle.f66_tree.specs.World.{Record};
ghost use Rattle.format_io.specs.Letters.{IsLetter};
ghost use Rattle.record_flow.specs.Flows.{tape};
ghost use Rattle.record_flow.specs.Letters.{SendsLetters, GetsLetters};
ghost use Rattle.stack_code.specs.StackMachine.{Spot, At};
ghost use Rattle.runner.specs.Words.{Shows};
ghost use Rattle.runner.specs.Blocks.{coded, MovesUnits};
ghost use Rattle.runner.specs.Exchanges.{IsSpot};

use crate::places::unit_of;
use crate::slots::Slot;
use crate::words::{Cell, Word};
use f66_tree::Way;
use format_io::Plan;
use ground::Kind;
use record_flow::Flow;

/// The unit that holds a code.
#[inline(always)]
fn slot_with(code: u8) -> Slot
    ensures { result ≡ coded code }
{
    Slot::new(Cell::Whole(i32::from(code)))
}

/// The codes that units hold come to the first places of a block, or false: not all of them hold an integer of one byte. Their bits
/// are looked at together, so that there is no branch for each.
#[inline(always)]
fn show(units: &[Slot], block: &mut [u8]) -> bool
    requires { length units.now ≤ length block.old }
    ensures room { length block.new ≡ length block.old }
    ensures shown { result ≡ true → units.now ≡ map coded (first (length units.now) block.new) }
{
    let mut all = 0;
    let mut kinds = 0;
    for index in 0..units.len() {
        let (bits, kind) = units[index].bits();
        all |= bits;
        kinds |= kind;
        block[index] = (bits % 256) as u8;
    }
    kinds == 0 && all < 256
}

/// The first units hold from now on so many codes of a block.
#[inline(always)]
fn keep_all(block: &[u8], count: usize, units: &mut [Slot])
    requires block { count ≤ length block.now }
    requires units { count ≤ length units.old }
    ensures { units.new ≡ map coded (first count block.now) ++ drop count units.old }
{
    for index in 0..count {
        units[index] = slot_with(block[index]);
    }
}

/// The characters of the first of these units go out by edits with nothing between them, as many as have room, where all of them
/// are characters; else none. How many. The block is what they go through.
fn put_units(units: &[Slot], plan: &Plan, flow: &mut Flow, block: &mut [u8]) -> usize
    requires few { length units.now ≤ length block.old }
    requires way { flow.old.stand.way ≡ Writing }
    ensures way { flow.new.stand.way ≡ Writing }
    ensures going { is_over flow.old.stand.mark ≡ false → is_over flow.new.stand.mark ≡ false }
    ensures intake { flow.new.intake ≡ flow.old.intake }
    ensures room { length block.new ≡ length block.old }
    ensures within { result ≤ length units.now }
    ensures letters { (cs : List ℕ) × All IsLetter cs × (first result units.now ≡ map coded cs) × ((unread written : List Record) → SendsLetters cs (tape plan.now flow.old.stand unread written) (tape plan.now flow.new.stand unread written)) }
{
    if !show(units, block) {
        return 0;
    }
    flow.put_letters(plan, &block[..units.len()])
}

/// The next characters of the record come into the first of these units by edits with nothing between them, where all of them
/// are characters; else none. How many.
fn take_units(units: &mut [Slot], plan: &Plan, flow: &mut Flow, block: &mut [u8]) -> usize
    requires few { length units.old ≤ length block.old }
    requires way { flow.old.stand.way ≡ Reading }
    ensures way { flow.new.stand.way ≡ Reading }
    ensures going { is_over flow.old.stand.mark ≡ false → is_over flow.new.stand.mark ≡ false }
    ensures intake { flow.new.intake ≡ flow.old.intake }
    ensures room { length block.new ≡ length block.old }
    ensures within { result ≤ length units.old }
    ensures letters { (cs : List ℕ) × All IsLetter cs × (length cs ≡ result) × (units.new ≡ map coded cs ++ drop result units.old) × ((unread written : List Record) → GetsLetters cs (tape plan.now flow.old.stand unread written) (tape plan.now flow.new.stand unread written)) }
{
    let count = flow.take_letters(plan, &mut block[..units.len()]);
    keep_all(block, count, units);
    count
}

/// How many units of its variable lie from an index behind a spot on, of a row of so many; none of a lent value.
fn stretch(word: Word, index: u64, count: u64) -> u64
    requires spot { (p : Spot) × Shows (At p) word }
    requires few { count ≤ 2 ^ 31 }
    requires within { index ≤ count }
    ensures within { index + result ≤ count }
    ensures units { (unit : ℕ) → pos unit ≡ word.value → 0 < result → unit + index + result ≤ word.behind }
{
    let unit = unit_of(word) as u64 + index;
    u64::from(word.behind)
        .saturating_sub(unit)
        .min(count - index)
}

/// How many characters may come or go at once from an index behind a spot on.
fn block_size(word: Word, index: u64, count: u64, plan: &Plan, flow: &Flow, block: &[u8]) -> usize
    requires spot { (p : Spot) × Shows (At p) word }
    requires few { count ≤ 2 ^ 31 }
    requires within { index ≤ count }
    ensures most { result ≤ length block.now }
    ensures within { index + result ≤ count }
    ensures units { (unit : ℕ) → pos unit ≡ word.value → 0 < result → unit + index + result ≤ word.behind }
{
    let size = flow.letters_ahead(plan).min(block.len());
    stretch(word, index, count).min(size as u64) as usize
}

/// Integers from an index behind a spot on come or go as characters, as many as do so at once. How many.
fn letters(
    way: Way,
    word: Word,
    index: u64,
    count: u64,
    plan: &Plan,
    cells: &mut [Slot],
    flow: &mut Flow,
    block: &mut [u8],
) -> u64
    requires few { count ≤ 2 ^ 31 }
    requires within { index ≤ count }
    requires spot { IsSpot cells.old word }
    requires way { flow.old.stand.way ≡ way }
    ensures way { flow.new.stand.way ≡ way }
    ensures going { is_over flow.old.stand.mark ≡ false → is_over flow.new.stand.mark ≡ false }
    ensures intake { flow.new.intake ≡ flow.old.intake }
    ensures room { length block.new ≡ length block.old }
    ensures units { length cells.new ≡ length cells.old }
    ensures within { index + result ≤ count }
    ensures few { index < 2 ^ 31 → index + result < 2 ^ 31 }
    ensures moves { MovesUnits way Integer word index result plan.now flow.old.stand flow.new.stand cells.old cells.new }
{
    let size = block_size(word, index, count, plan, flow, block);
    if size == 0 {
        return 0;
    }
    let from = unit_of(word) + index as usize;
    let moved = match way {
        Way::Reading => take_units(&mut cells[from..from + size], plan, flow, block),
        Way::Writing => put_units(&cells[from..from + size], plan, flow, block),
    };
    moved as u64
}

/// Units from an index behind a spot on come or go at once: integers as characters. How many.
pub(crate) fn units_at_once(
    way: Way,
    kind: Kind,
    word: Word,
    index: u64,
    count: u64,
    plan: &Plan,
    cells: &mut [Slot],
    flow: &mut Flow,
    block: &mut [u8],
) -> u64
    requires few { count ≤ 2 ^ 31 }
    requires within { index ≤ count }
    requires spot { IsSpot cells.old word }
    requires way { flow.old.stand.way ≡ way }
    ensures way { flow.new.stand.way ≡ way }
    ensures going { is_over flow.old.stand.mark ≡ false → is_over flow.new.stand.mark ≡ false }
    ensures intake { flow.new.intake ≡ flow.old.intake }
    ensures room { length block.new ≡ length block.old }
    ensures units { length cells.new ≡ length cells.old }
    ensures within { index + result ≤ count }
    ensures few { index < 2 ^ 31 → index + result < 2 ^ 31 }
    ensures moves { MovesUnits way kind word index result plan.now flow.old.stand flow.new.stand cells.old cells.new }
{
    match kind {
        Kind::Integer => letters(way, word, index, count, plan, cells, flow, block),
        Kind::Logical => 0,
    }
}
