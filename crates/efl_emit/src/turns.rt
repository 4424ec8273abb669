// What is done before each turn of a loop, and behind it.
ghost use Rattle.std.specs.Prelude.{OnOk, option_map};
ghost use Rattle.efl_typed_tree.specs.Views.{expr_of};
ghost use Rattle.efl_emit.specs.Emitted.{Emitted};
ghost use Rattle.efl_emit.specs.Names.{emission_of, made_of, operand_of};
ghost use Rattle.efl_emit.specs.Words.{LeavesOne};
ghost use Rattle.efl_emit.specs.Turns.{bottom_of, limit_of, step_of, top_of, unless_any_of};

use crate::{
    Emitter, Naming, Operand, emit_action_if_any, emit_unless, emit_where, operand_not,
    operand_pair, put_choice, set_temporary, store,
};
use efl_typed_tree::{TypedAction, TypedExpr};
use f66_tree::{Expr, Operator};
use ground::{Kind, Place};
use std::alloc::AllocError;

/// What is done before each turn of a loop, and behind it.
#[derive(Clone, Copy, Drop)]
pub enum Turn<'a> {
    Always,
    While(&'a TypedExpr),
    For(&'a Option<TypedExpr>, &'a Option<TypedAction>),
    /// The condition of `until`, and its place.
    Until(&'a TypedExpr, Place),
    /// The number of the variable of a `do`, its limit, and its step.
    Do(usize, Operand, Operand),
}

/// What is done before each turn, where the label is behind the loop.
pub fn emit_top(
    out: &mut Emitter,
    naming: &Naming,
    place: Place,
    turn: Turn,
    label: u32,
    number: usize,
) -> Result<(), AllocError>
    ensures { OnOk result (LeavesOne (made_of naming.now) (top_of naming.now place turn.entry number) label (emission_of out.old) (emission_of out.new)) }
{
    match turn {
        Turn::Always | Turn::Until(_, _) => Ok(()),
        Turn::While(e) => emit_unless(out, naming, place, e, label, number),
        Turn::For(e, _) => emit_unless_any(out, naming, place, e, label, number),
        Turn::Do(variable, limit, _) => {
            emit_limit(out, naming, place, variable, limit, label, number)
        }
    }
}

/// What is done behind each turn.
pub fn emit_bottom(
    out: &mut Emitter,
    naming: &Naming,
    place: Place,
    turn: Turn,
    label: u32,
    number: usize,
) -> Result<(), AllocError>
    ensures { OnOk result (LeavesOne (made_of naming.now) (bottom_of naming.now place turn.entry number) label (emission_of out.old) (emission_of out.new)) }
{
    match turn {
        Turn::Always | Turn::While(_) => Ok(()),
        Turn::For(_, step) => emit_action_if_any(out, naming, place, step, number),
        Turn::Until(e, at) => emit_where(out, naming, at, e, label, number),
        Turn::Do(variable, _, by) => emit_step(out, naming, place, variable, by, number),
    }
}

// The condition of a `for`; a missing one is true.
fn emit_unless_any(
    out: &mut Emitter,
    naming: &Naming,
    place: Place,
    e: &Option<TypedExpr>,
    label: u32,
    number: usize,
) -> Result<(), AllocError>
    ensures { OnOk result (LeavesOne (made_of naming.now) (unless_any_of naming.now place (option_map expr_of e.now) number) label (emission_of out.old) (emission_of out.new)) }
{
    match e {
        None => Ok(()),
        Some(e) => emit_unless(out, naming, place, e, label, number),
    }
}

// A `do` is left where its variable is above its limit.
fn emit_limit(
    out: &mut Emitter,
    naming: &Naming,
    place: Place,
    variable: usize,
    limit: Operand,
    label: u32,
    number: usize,
) -> Result<(), AllocError>
    ensures { OnOk result (LeavesOne (made_of naming.now) (limit_of naming.now place variable (operand_of limit) number) label (emission_of out.old) (emission_of out.new)) }
{
    let name = naming.home(variable)?;
    let value = set_temporary(out, place, Kind::Integer, number, Expr::Ref(name))?;
    let test = operand_pair(out.alloc(), Operator::Le, value.operand, limit)?;
    let within = set_temporary(out, place, Kind::Logical, value.next, test)?;
    let outside = operand_not(out.alloc(), within.operand)?;
    put_choice(out, place, outside, label)
}

// The variable of a `do` gets its next value.
fn emit_step(
    out: &mut Emitter,
    naming: &Naming,
    place: Place,
    variable: usize,
    by: Operand,
    number: usize,
) -> Result<(), AllocError>
    ensures { OnOk result (Emitted (made_of naming.now) (step_of naming.now place variable (operand_of by) number) (emission_of out.old) (emission_of out.new)) }
{
    let name = naming.home(variable)?;
    let value = set_temporary(out, place, Kind::Integer, number, Expr::Ref(name))?;
    let sum = operand_pair(out.alloc(), Operator::Add, value.operand, by)?;
    let next = set_temporary(out, place, Kind::Integer, value.next, sum)?;
    store(out, naming, place, variable, next.operand)
}
