// The instructions to which one leads within its entry.
ghost use Rattle.std.specs.Prelude.{◌≡◌, ◌<◌, ◌^◌, IfOk};
ghost use Rattle.stack_code.specs.Views.{instruction_of};
ghost use Rattle.stack_code.specs.ValidCode.{ways};

use crate::Op;
use std::alloc::{AllocError, Global};

/// The targets of the instruction, and the next one where it may go on there.
pub(crate) fn ways_of(alloc: Global, op: &Op, pc: usize) -> Result<Vec<usize>, AllocError>
    requires { pc < 2 ^ 63 }
    ensures { IfOk result (λ v. v.items ≡ ways (instruction_of op.now) pc) }
{
    let next = pc + 1;
    match op {
        Op::Jump(to) => Ok(vec![in alloc; *to as usize]?),
        Op::JumpFalse(to) => Ok(vec![in alloc; next, *to as usize]?),
        Op::JumpSign(below, zero, above) => Ok(vec![in alloc;
            *below as usize,
            *zero as usize,
            *above as usize,
        ]?),
        Op::JumpTable(targets) => widened(alloc, targets),
        Op::LoopTurn(_, _, to) => Ok(vec![in alloc; next, *to as usize]?),
        Op::Return => Ok(Vec::new(alloc)),
        Op::Halt => Ok(Vec::new(alloc)),
        Op::HaltWith(_) => Ok(Vec::new(alloc)),
        _ => Ok(vec![in alloc; next]?),
    }
}

fn widened(alloc: Global, targets: &[u32]) -> Result<Vec<usize>, AllocError>
    ensures { IfOk result (λ v. v.items ≡ targets.now) }
{
    let mut wide = Vec::new(alloc);
    for target in targets {
        wide.push(*target as usize)?;
    }
    Ok(wide)
}
