// Code with its plans that is known to be valid, with what its runs need.
ghost use Rattle.std.specs.Prelude.{IfOk, length};
ghost use Rattle.stack_code.specs.Bounds.{IsVerified};
ghost use Rattle.stack_code.specs.ValidCode.{IsValid};
ghost use Rattle.stack_code.specs.Views.{code_of};

use code_emit::PlannedCode;
use ground::Memory;
use stack_code::{Code, verify};
use std::alloc::Global;

/// What the check of valid code gives.
pub(crate) fn checked(alloc: Global, made: PlannedCode, units: u32) -> Result<Code, Memory>
    requires { IsValid (code_of made.ops.items) (length made.plans.items) units }
    ensures { IfOk result (λ code. IsVerified made.ops.items made.plans.items units code.ops.items code.plans.items code.units code.stack code.dummies code.depth) }
{
    match verify(alloc, made.ops, made.plans, units)? {
        Some(code) => Ok(code),
        None => unreachable!(),
    }
}
