//! The public call of `stack_code` once more, under the same contract: on it wrong bodies are tried.
#![tactic(auto)]

ghost use Rattle.std.specs.Prelude.{◌≡◌, ◌<◌, ◌^◌, length, IfOk, MatchOption};
ghost use Rattle.stack_code.specs.Views.{code_of};
ghost use Rattle.stack_code.specs.Bounds.{IsInvalidFor, IsVerified};

use format_io::Plan;
use ground::{List, Memory};
use stack_code::{Code, Op, verify};
use std::alloc::Global;

/// The code, where it is valid for these plans and so many units; None exactly where it is not.
pub fn verified(
    alloc: Global,
    ops: List<Op>,
    plans: List<Plan>,
    units: u32,
) -> Result<Option<Code>, Memory>
    requires few { length ops.items < 2 ^ 63 }
    ensures { IfOk result (λ o. MatchOption o (IsInvalidFor (code_of ops.items) (length plans.items) units) (λ code. IsVerified ops.items plans.items units code.ops.items code.plans.items code.units code.stack code.dummies code.depth)) }
{
    verify(alloc, ops, plans, units)
}
