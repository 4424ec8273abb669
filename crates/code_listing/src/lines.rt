// The lines of a listing.
ghost use Rattle.std.specs.Prelude.{◌≡◌, ◌++◌, replicate, IfOk, OnOk};
ghost use Rattle.code_listing.specs.Listing.{instruction_line, instruction_lines, line_number, listing, plan_line, plan_lines};

use crate::fields::push_format;
use crate::operands::push_operands;
use crate::words::name_of;
use crate::writer::push_word;
use format_io::Plan;
use ground::Memory;
use itoa::Buffer;
use stack_code::{Code, Op};
use std::alloc::{AllocError, Global};

/// The listing of code.
pub fn list_code(alloc: Global, code: &Code) -> Result<Vec<u8>, Memory>
    ensures { IfOk result (λ text. text.items ≡ listing code.now.ops.items code.now.plans.items) }
{
    let mut out = Vec::new(alloc);
    push_instructions(&mut out, &code.ops)?;
    push_plans(&mut out, &code.plans)?;
    Ok(out)
}

fn push_instructions(out: &mut Vec<u8>, ops: &[Op]) -> Result<(), AllocError>
    ensures { OnOk result (out.new.items ≡ out.old.items ++ instruction_lines ops.now) }
{
    for (number, op) in ops.iter().enumerate() {
        push_line(out, number, op)?;
    }
    Ok(())
}

fn push_line(out: &mut Vec<u8>, number: usize, op: &Op) -> Result<(), AllocError>
    ensures { OnOk result (out.new.items ≡ out.old.items ++ instruction_line (number, op.now)) }
{
    push_line_number(out, number)?;
    push_word(out, name_of(op))?;
    push_operands(out, op)?;
    out.push(b'\n')?;
    Ok(())
}

fn push_plans(out: &mut Vec<u8>, plans: &[Plan]) -> Result<(), AllocError>
    ensures { OnOk result (out.new.items ≡ out.old.items ++ plan_lines plans.now) }
{
    for (number, plan) in plans.iter().enumerate() {
        push_plan(out, number, plan)?;
    }
    Ok(())
}

fn push_plan(out: &mut Vec<u8>, number: usize, plan: &Plan) -> Result<(), AllocError>
    ensures { OnOk result (out.new.items ≡ out.old.items ++ plan_line (number, plan.now)) }
{
    push_line_number(out, number)?;
    out.push(b' ')?;
    push_format(out, plan)?;
    out.push(b'\n')?;
    Ok(())
}

fn push_line_number(out: &mut Vec<u8>, number: usize) -> Result<(), AllocError>
    ensures { OnOk result (out.new.items ≡ out.old.items ++ line_number number) }
{
    let mut buffer = Buffer::new();
    let text = buffer.format(number).as_bytes();
    push_zeros(out, 6usize.saturating_sub(text.len()))?;
    out.extend_from_slice(text)
}

fn push_zeros(out: &mut Vec<u8>, count: usize) -> Result<(), AllocError>
    ensures { OnOk result (out.new.items ≡ out.old.items ++ replicate count 48) }
{
    for _ in 0..count {
        out.push(b'0')?;
    }
    Ok(())
}
