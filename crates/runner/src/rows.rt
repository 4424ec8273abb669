// All units of an array are items of a READ or WRITE, one after the other, characters several at once.
ghost use Rattle.std.specs.Prelude.{◌≡◌, ◌≤◌, ◌^◌, ℕ, length, OnOk, false};
ghost use Rattle.f66_tree.specs.Turns.{is_over};
ghost use Rattle.stack_code.specs.StackMachine.{row as row_of};
ghost use Rattle.runner.specs.Reaching.{Alike};
ghost use Rattle.runner.specs.Exchanges.{IsSpot, IsExchange};

use crate::elements::shifted;
use crate::items::item;
use crate::letters::units_at_once;
use crate::slots::Slot;
use crate::words::Word;
use f66_tree::Way;
use format_io::Plan;
use ground::{Kind, Trap};
use ports::{Sink, Source};
use record_flow::{Flow, Stop};

/// How many characters come or go at once: as many as the longest record has that is written.
const BLOCK: usize = 132;

/// So many units are items, from a spot on.
pub(crate) fn row<S: Source, K: Sink>(
    way: Way,
    kind: Kind,
    word: Word,
    count: u64,
    plan: &Plan,
    cells: &mut [Slot],
    flow: &mut Flow,
    input: &mut S,
    out: &mut K,
) -> Result<(), Stop>
    requires few { count ≤ 2 ^ 31 }
    requires spot { IsSpot cells.old word }
    requires way { flow.old.stand.way ≡ way }
    requires going { is_over flow.old.stand.mark ≡ false }
    ensures way { OnOk result (flow.new.stand.way ≡ way) }
    ensures going { OnOk result (is_over flow.new.stand.mark ≡ false) }
    ensures units { length cells.new ≡ length cells.old }
    ensures step { (m : ℕ) → Alike count m → IsExchange S.left K.puts S.faults K.faults input.old input.new out.old out.new (λ p place. row_of place way kind p m 0) word plan.now flow.old flow.new cells.old cells.new result }
{
    let mut block = [0u8; BLOCK];
    let mut index = 0;
    'units: while index < count {
        let moved = units_at_once(way, kind, word, index, count, plan, cells, flow, &mut block);
        if moved > 0 {
            index += moved;
            continue;
        }
        match shifted(word, index) {
            None => return Err(Stop::Trapped(Trap::Subscript)),
            Some(spot) => match item(way, kind, spot, plan, cells, flow, input, out) {
                Ok(()) => index += 1,
                Err(stop) => return Err(stop),
            },
        }
    }
    Ok(())
}
