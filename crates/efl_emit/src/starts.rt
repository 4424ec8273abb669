// The limit, the step and the first value of a `do`.
ghost use Rattle.std.specs.Prelude.{IfOk, option_map};
ghost use Rattle.efl_typed_tree.specs.Views.{expr_of};
ghost use Rattle.efl_emit.specs.Names.{emission_of};
ghost use Rattle.efl_emit.specs.Starts.{IsStarted};

use crate::{Emitter, Naming, Operand, emit_expression, emit_if_any, store};
use efl_typed_tree::TypedRange;
use ground::Place;
use std::alloc::AllocError;

/// The limit and the step of a `do`, and the number of the next temporary.
#[derive(Clone, Copy)]
pub struct Start {
    pub limit: Operand,
    pub by: Operand,
    pub next: usize,
}

/// The limit, the step and the first value of a `do`, which its variable gets.
pub fn emit_start(
    out: &mut Emitter,
    naming: &Naming,
    place: Place,
    variable: usize,
    range: &TypedRange,
    number: usize,
) -> Result<Start, AllocError>
    ensures { IfOk result (λ r. IsStarted naming.now place variable (expr_of range.now.first) (expr_of range.now.last) (option_map expr_of range.now.step) number r (emission_of out.old) (emission_of out.new)) }
{
    let limit = emit_expression(out, naming, place, &range.last, number)?;
    let by = emit_if_any(out, naming, place, &range.step, Operand::Int(1), limit.next)?;
    let first = emit_expression(out, naming, place, &range.first, by.next)?;
    store(out, naming, place, variable, first.operand)?;
    Ok(Start {
        limit: limit.operand,
        by: by.operand,
        next: by.next,
    })
}
