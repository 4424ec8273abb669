// Which code is valid.
ghost use Rattle.std.specs.Prelude.{◌≡◌, ◌<◌, ◌^◌, ℕ, length, IfOk, MatchOption};
ghost use Rattle.stack_code.specs.Views.{code_of};
ghost use Rattle.stack_code.specs.Bounds.{IsInvalidFor, AreWithin, IsChecked, IsVerified};

use crate::ahead::depth_of;
use crate::facts::facts_of;
use crate::ranges::{all_in_range, is_begin};
use crate::{Fact, Op};
use format_io::Plan;
use ground::{List, Memory};
use std::alloc::{AllocError, Global};

/// Valid code, with what its runs need.
#[derive(Drop)]
pub struct Code {
    /// The instructions; a place in them is their number from 0.
    pub ops: List<Op>,
    /// The formats.
    pub plans: List<Plan>,
    /// So many storage units.
    pub units: u32,
    /// The greatest stack that an entry has of its own.
    pub stack: usize,
    /// The most dummies of a frame.
    pub dummies: u32,
    /// How deep calls go.
    pub depth: usize,
}

/// The code, where it is valid for these plans and so many units; None exactly where it is not.
pub fn verify(
    alloc: Global,
    ops: List<Op>,
    plans: List<Plan>,
    units: u32,
) -> Result<Option<Code>, Memory>
    requires few { length ops.items < 2 ^ 63 }
    ensures { IfOk result (λ o. MatchOption o (IsInvalidFor (code_of ops.items) (length plans.items) units) (λ code. IsVerified ops.items plans.items units code.ops.items code.plans.items code.units code.stack code.dummies code.depth)) }
{
    match check(alloc, &ops, plans.len(), units)? {
        None => Ok(None),
        Some((stack, dummies, depth)) => Ok(Some(Code {
            ops,
            plans,
            units,
            stack,
            dummies,
            depth,
        })),
    }
}

/// The bounds of the code, where it is valid.
fn check(
    alloc: Global,
    ops: &[Op],
    plans: usize,
    units: u32,
) -> Result<Option<(usize, u32, usize)>, AllocError>
    requires few { length ops.now < 2 ^ 63 }
    ensures { IfOk result (λ o. MatchOption o (IsInvalidFor (code_of ops.now) plans units) (λ b. IsChecked (code_of ops.now) plans units b.0 b.1 b.2)) }
{
    if !is_begin(ops, 0) {
        return Ok(None);
    }
    if !all_in_range(ops, plans, units) {
        return Ok(None);
    }
    match facts_of(alloc, ops)? {
        None => Ok(None),
        Some(facts) => match depth_of(alloc, ops, &facts)? {
            None => Ok(None),
            Some(depth) => {
                let (stack, dummies) = bounds_of(&facts);
                Ok(Some((stack, dummies, depth)))
            }
        },
    }
}

/// The greatest stack and the most dummies of all that is known.
fn bounds_of(facts: &[Option<Fact>]) -> (usize, u32)
    ensures { AreWithin facts.now (length facts.now) result.0 result.1 }
{
    let mut stack = 0;
    let mut dummies = 0;
    for known in facts {
        if let Some(fact) = known {
            if stack < fact.shape.len() {
                stack = fact.shape.len();
            }
            if dummies < fact.count {
                dummies = fact.count;
            }
        }
    }
    (stack, dummies)
}
