// Actions, and conditions as jumps.
ghost use Rattle.std.specs.Prelude.{IfOk, OnOk, Some, option_map};
ghost use Rattle.efl_typed_tree.specs.Views.{action_of, expr_of, exprs_of};
ghost use Rattle.efl_program.specs.Typed.{Evaluate, Invoke as InvokeOf};
ghost use Rattle.efl_emit.specs.Emitted.{Emitted};
ghost use Rattle.efl_emit.specs.Names.{emission_of, made_of, operand_of};
ghost use Rattle.efl_emit.specs.Words.{IsEvaluatedIfAny, LeavesOne, act_if_any, act_of, return_of, unless_routes, where_routes};

use crate::{
    Emitter, Evaluated, Naming, Operand, emit_actuals, emit_expression, operand_expr, operand_not,
    put_choice,
};
use efl_typed_tree::{TypedAction, TypedExpr};
use f66_tree::{Expr, StmtKind};
use ground::Place;
use std::alloc::AllocError;

/// An action.
pub fn emit_action(
    out: &mut Emitter,
    naming: &Naming,
    place: Place,
    action: &TypedAction,
    number: usize,
) -> Result<(), AllocError>
    ensures { OnOk result (Emitted (made_of naming.now) (act_of naming.now place (action_of action.now) number) (emission_of out.old) (emission_of out.new)) }
{
    match action {
        TypedAction::Evaluate(e) => emit_unused(out, naming, place, e, number),
        TypedAction::Invoke(procedure, list) => {
            emit_invoke(out, naming, place, *procedure, list, number)
        }
    }
}

// An expression whose value is not used.
fn emit_unused(
    out: &mut Emitter,
    naming: &Naming,
    place: Place,
    e: &TypedExpr,
    number: usize,
) -> Result<(), AllocError>
    ensures { OnOk result (Emitted (made_of naming.now) (act_of naming.now place (Evaluate (expr_of e.now)) number) (emission_of out.old) (emission_of out.new)) }
{
    emit_expression(out, naming, place, e, number)?;
    Ok(())
}

// CALL of a procedure.
fn emit_invoke(
    out: &mut Emitter,
    naming: &Naming,
    place: Place,
    procedure: usize,
    list: &[TypedExpr],
    number: usize,
) -> Result<(), AllocError>
    ensures { OnOk result (Emitted (made_of naming.now) (act_of naming.now place (InvokeOf procedure (exprs_of list.now)) number) (emission_of out.old) (emission_of out.new)) }
{
    let actuals = emit_actuals(out, naming, place, list, number)?;
    let name = naming.callee(procedure)?;
    out.put(place, StmtKind::Invoke(name, actuals.list))
}

/// An action, where there is one.
pub fn emit_action_if_any(
    out: &mut Emitter,
    naming: &Naming,
    place: Place,
    action: &Option<TypedAction>,
    number: usize,
) -> Result<(), AllocError>
    ensures { OnOk result (Emitted (made_of naming.now) (act_if_any naming.now place (option_map action_of action.now) number) (emission_of out.old) (emission_of out.new)) }
{
    match action {
        None => Ok(()),
        Some(action) => emit_action(out, naming, place, action, number),
    }
}

/// An expression, where there is one, and else another operand.
pub fn emit_if_any(
    out: &mut Emitter,
    naming: &Naming,
    place: Place,
    e: &Option<TypedExpr>,
    other: Operand,
    number: usize,
) -> Result<Evaluated, AllocError>
    ensures { IfOk result (λ r. IsEvaluatedIfAny naming.now place (option_map expr_of e.now) (operand_of other) number r (emission_of out.old) (emission_of out.new)) }
{
    match e {
        None => Ok(Evaluated {
            operand: other,
            next: number,
        }),
        Some(e) => emit_some(out, naming, place, e, other, number),
    }
}

// An expression that is there.
fn emit_some(
    out: &mut Emitter,
    naming: &Naming,
    place: Place,
    e: &TypedExpr,
    other: Operand,
    number: usize,
) -> Result<Evaluated, AllocError>
    ensures { IfOk result (λ r. IsEvaluatedIfAny naming.now place (Some (expr_of e.now)) (operand_of other) number r (emission_of out.old) (emission_of out.new)) }
{
    emit_expression(out, naming, place, e, number)
}

/// A jump to a label where a condition does not hold.
pub fn emit_unless(
    out: &mut Emitter,
    naming: &Naming,
    place: Place,
    e: &TypedExpr,
    label: u32,
    number: usize,
) -> Result<(), AllocError>
    ensures { OnOk result (LeavesOne (made_of naming.now) (unless_routes naming.now place (expr_of e.now) number) label (emission_of out.old) (emission_of out.new)) }
{
    let value = emit_expression(out, naming, place, e, number)?;
    let test = operand_not(out.alloc(), value.operand)?;
    put_choice(out, place, test, label)
}

/// A jump to a label where a condition holds.
pub fn emit_where(
    out: &mut Emitter,
    naming: &Naming,
    place: Place,
    e: &TypedExpr,
    label: u32,
    number: usize,
) -> Result<(), AllocError>
    ensures { OnOk result (LeavesOne (made_of naming.now) (where_routes naming.now place (expr_of e.now) number) label (emission_of out.old) (emission_of out.new)) }
{
    let value = emit_expression(out, naming, place, e, number)?;
    let test = operand_expr(value.operand)?;
    put_choice(out, place, test, label)
}

/// RETURN, behind the store of a function's value where there is one.
pub fn emit_return(
    out: &mut Emitter,
    naming: &Naming,
    place: Place,
    e: &Option<TypedExpr>,
    number: usize,
) -> Result<(), AllocError>
    ensures { OnOk result (Emitted (made_of naming.now) (return_of naming.now place (option_map expr_of e.now) number) (emission_of out.old) (emission_of out.new)) }
{
    match e {
        None => out.put(place, StmtKind::Return),
        Some(e) => emit_given(out, naming, place, e, number),
    }
}

// RETURN behind the store of a function's value.
fn emit_given(
    out: &mut Emitter,
    naming: &Naming,
    place: Place,
    e: &TypedExpr,
    number: usize,
) -> Result<(), AllocError>
    ensures { OnOk result (Emitted (made_of naming.now) (return_of naming.now place (Some (expr_of e.now)) number) (emission_of out.old) (emission_of out.new)) }
{
    let value = emit_expression(out, naming, place, e, number)?;
    let name = naming.own()?;
    let given = operand_expr(value.operand)?;
    out.put(place, StmtKind::Assign(Expr::Ref(name), given))?;
    out.put(place, StmtKind::Return)
}
