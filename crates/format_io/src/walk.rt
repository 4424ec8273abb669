// The walk over a plan, by counters.
ghost use Rattle.std.specs.Prelude.{◌≡◌, ℕ, slice_get};
ghost use Rattle.std.specs.Option.{option_map};
ghost use Rattle.format_io.specs.Places.{moves_at, visible, NextIs, step_now, format, IsPlan};

use crate::code::{Laid, Op, Piece};

/// A place in a plan: at an instruction, past so many of its edits, with so many turns left of the groups.
#[derive(Clone, Copy, Drop)]
pub struct Walk {
    pub pc: usize,
    pub past: u16,
    pub counts: [u16; 2],
}

/// The instruction at a place.
pub fn op_at(plan: &Laid, pc: usize) -> Option<&Op>
    ensures { option_map (λ r. r.now) result ≡ slice_get plan.now.ops.items pc }
{
    plan.ops.get(pc)
}

/// The next edit, and the walk goes behind it.
pub fn advance<'p>(walk: &mut Walk, plan: &'p Laid) -> Option<&'p Piece>
    requires { IsPlan plan.now }
    ensures { NextIs (visible (moves_at 0 (format plan.now) walk.old.pc walk.old.past walk.old.counts)) (step_now result) (visible (moves_at 0 (format plan.now) walk.new.pc walk.new.past walk.new.counts)) }
{
    'walk: loop {
        match op_at(plan, walk.pc) {
            None => return None,
            Some(Op::Once(count, piece)) => {
                if walk.past < *count {
                    walk.past += 1;
                    return Some(piece);
                }
                walk.pc += 1;
                walk.past = 0;
                continue;
            }
            Some(Op::Enter(level, count, size)) => {
                walk.counts[*level as usize] = *count;
                walk.pc = walk.pc + 1 + *size;
                walk.past = 0;
                continue;
            }
            Some(Op::Leave(level, size)) => {
                let left = walk.counts[*level as usize];
                walk.past = 0;
                if left == 0 {
                    walk.pc += 1;
                    continue;
                }
                walk.counts[*level as usize] = left - 1;
                walk.pc -= *size;
                continue;
            }
        }
    }
}
