// The statements of FORTRAN that an expression of EFL becomes.
ghost use Rattle.std.specs.Prelude.{◌≡◌, IfOk, None, Some};
ghost use Rattle.efl_program.specs.Typed as typed;
ghost use Rattle.efl_routes.specs.Expressions.{decided, given_by};
ghost use Rattle.f66_tree.specs.Views.{formula_of};
ghost use Rattle.efl_typed_tree.specs.Views.{expr_of, exprs_of, intrinsic_of, op_of, site_of};
ghost use Rattle.efl_emit.specs.Names.{emission_of, operand_of};
ghost use Rattle.efl_emit.specs.Parts.{AreActuals, AreEvaluated, IsActual, IsCombined, IsEvaluated, IsLast, IsSequential, IsStepped};

use crate::{
    Arguments, Emitter, Evaluated, Naming, Operand, boxed_operand, load, made, operand_expr,
    operand_not, operand_pair, or_one, place_in, plus, put_choice, set_gathered, set_temporary,
    store,
};
use efl_typed_tree::{Intrinsic, Scalar, TypedExpr, TypedOp};
use f66_tree::{Expr, Operator, applied};
use ground::{Kind, Place};
use std::alloc::{AllocError, Global};

/// An expression where the temporaries before a number are in use.
#[cycle(emit)]
pub fn emit_expression(
    out: &mut Emitter,
    naming: &Naming,
    place: Place,
    e: &TypedExpr,
    number: usize,
) -> Result<Evaluated, AllocError>
    ensures { IfOk result (λ r. IsEvaluated naming.now place (expr_of e.now) number r (emission_of out.old) (emission_of out.new)) }
{
    match e {
        TypedExpr::Int(value) => Ok(Evaluated {
            operand: Operand::Int(*value),
            next: number,
        }),
        TypedExpr::Truth(value) => Ok(Evaluated {
            operand: Operand::Truth(*value),
            next: number,
        }),
        TypedExpr::At(x) => emit_place(out, naming, place, *x, number),
        TypedExpr::Call(procedure, kind, list) => {
            emit_call(out, naming, place, *procedure, *kind, list, number)
        }
        TypedExpr::Known(intrinsic, list) => {
            emit_known(out, naming, place, *intrinsic, list, number)
        }
        TypedExpr::Group(a) => emit_group(out, naming, place, a, number),
        TypedExpr::Plus(a) => emit_plus(out, naming, place, a, number),
        TypedExpr::Minus(a) => emit_minus(out, naming, place, a, number),
        TypedExpr::Not(a) => emit_not(out, naming, place, a, number),
        TypedExpr::Up(x) => emit_up(out, naming, place, *x, number),
        TypedExpr::Down(x) => emit_down(out, naming, place, *x, number),
        TypedExpr::Pair(op, a, b) => emit_pair(out, naming, place, *op, a, b, number),
        TypedExpr::Assign(None, x, a) => emit_store(out, naming, place, *x, a, number),
        TypedExpr::Assign(Some(op), x, a) => { emit_change(out, naming, place, *op, *x, a, number) }
    }
}

// The value of a variable.
fn emit_place(
    out: &mut Emitter,
    naming: &Naming,
    place: Place,
    x: Scalar,
    number: usize,
) -> Result<Evaluated, AllocError>
    ensures { IfOk result (λ r. IsEvaluated naming.now place (typed.At (site_of x)) number r (emission_of out.old) (emission_of out.new)) }
{
    load(out, naming, place, x, number)
}

#[cycle(emit)]
fn emit_group(
    out: &mut Emitter,
    naming: &Naming,
    place: Place,
    a: &TypedExpr,
    number: usize,
) -> Result<Evaluated, AllocError>
    ensures { IfOk result (λ r. IsEvaluated naming.now place (typed.Group (expr_of a.now)) number r (emission_of out.old) (emission_of out.new)) }
{
    emit_expression(out, naming, place, a, number)
}

#[cycle(emit)]
fn emit_plus(
    out: &mut Emitter,
    naming: &Naming,
    place: Place,
    a: &TypedExpr,
    number: usize,
) -> Result<Evaluated, AllocError>
    ensures { IfOk result (λ r. IsEvaluated naming.now place (typed.Plus (expr_of a.now)) number r (emission_of out.old) (emission_of out.new)) }
{
    let a = emit_expression(out, naming, place, a, number)?;
    let value = Expr::Plus(boxed_operand(out.alloc(), a.operand)?);
    set_temporary(out, place, Kind::Integer, a.next, value)
}

#[cycle(emit)]
fn emit_minus(
    out: &mut Emitter,
    naming: &Naming,
    place: Place,
    a: &TypedExpr,
    number: usize,
) -> Result<Evaluated, AllocError>
    ensures { IfOk result (λ r. IsEvaluated naming.now place (typed.Minus (expr_of a.now)) number r (emission_of out.old) (emission_of out.new)) }
{
    let a = emit_expression(out, naming, place, a, number)?;
    let value = Expr::Minus(boxed_operand(out.alloc(), a.operand)?);
    set_temporary(out, place, Kind::Integer, a.next, value)
}

#[cycle(emit)]
fn emit_not(
    out: &mut Emitter,
    naming: &Naming,
    place: Place,
    a: &TypedExpr,
    number: usize,
) -> Result<Evaluated, AllocError>
    ensures { IfOk result (λ r. IsEvaluated naming.now place (typed.Not (expr_of a.now)) number r (emission_of out.old) (emission_of out.new)) }
{
    let a = emit_expression(out, naming, place, a, number)?;
    let value = operand_not(out.alloc(), a.operand)?;
    set_temporary(out, place, Kind::Logical, a.next, value)
}

// An integer variable, one more.
fn emit_up(
    out: &mut Emitter,
    naming: &Naming,
    place: Place,
    x: Scalar,
    number: usize,
) -> Result<Evaluated, AllocError>
    ensures { IfOk result (λ r. IsEvaluated naming.now place (typed.Up (site_of x)) number r (emission_of out.old) (emission_of out.new)) }
{
    emit_step(out, naming, place, x, Operator::Add, number)
}

// An integer variable, one less.
fn emit_down(
    out: &mut Emitter,
    naming: &Naming,
    place: Place,
    x: Scalar,
    number: usize,
) -> Result<Evaluated, AllocError>
    ensures { IfOk result (λ r. IsEvaluated naming.now place (typed.Down (site_of x)) number r (emission_of out.old) (emission_of out.new)) }
{
    emit_step(out, naming, place, x, Operator::Sub, number)
}

// An integer variable with one by an operator.
fn emit_step(
    out: &mut Emitter,
    naming: &Naming,
    place: Place,
    x: Scalar,
    operator: Operator,
    number: usize,
) -> Result<Evaluated, AllocError>
    ensures { IfOk result (λ r. IsStepped naming.now place operator (site_of x) number r (emission_of out.old) (emission_of out.new)) }
{
    let name = naming.home(x.variable)?;
    let old = set_temporary(out, place, Kind::Integer, number, Expr::Ref(name))?;
    let value = operand_pair(out.alloc(), operator, old.operand, Operand::Int(1))?;
    let new = set_temporary(out, place, Kind::Integer, old.next, value)?;
    store(out, naming, place, x.variable, new.operand)?;
    Ok(new)
}

#[cycle(emit)]
fn emit_pair(
    out: &mut Emitter,
    naming: &Naming,
    place: Place,
    op: TypedOp,
    a: &TypedExpr,
    b: &TypedExpr,
    number: usize,
) -> Result<Evaluated, AllocError>
    ensures { IfOk result (λ r. IsEvaluated naming.now place (typed.Pair (op_of op) (expr_of a.now) (expr_of b.now)) number r (emission_of out.old) (emission_of out.new)) }
{
    let left = emit_expression(out, naming, place, a, number)?;
    emit_combined(out, naming, place, op, left.operand, b, left.next)
}

#[cycle(emit)]
fn emit_store(
    out: &mut Emitter,
    naming: &Naming,
    place: Place,
    x: Scalar,
    a: &TypedExpr,
    number: usize,
) -> Result<Evaluated, AllocError>
    ensures { IfOk result (λ r. IsEvaluated naming.now place (typed.Assign None (site_of x) (expr_of a.now)) number r (emission_of out.old) (emission_of out.new)) }
{
    let value = emit_expression(out, naming, place, a, number)?;
    store(out, naming, place, x.variable, value.operand)?;
    Ok(value)
}

// An assignment by an operator.
#[cycle(emit)]
fn emit_change(
    out: &mut Emitter,
    naming: &Naming,
    place: Place,
    op: TypedOp,
    x: Scalar,
    a: &TypedExpr,
    number: usize,
) -> Result<Evaluated, AllocError>
    ensures { IfOk result (λ r. IsEvaluated naming.now place (typed.Assign (Some (op_of op)) (site_of x) (expr_of a.now)) number r (emission_of out.old) (emission_of out.new)) }
{
    let old = load(out, naming, place, x, number)?;
    let value = emit_combined(out, naming, place, op, old.operand, a, old.next)?;
    store(out, naming, place, x.variable, value.operand)?;
    Ok(value)
}

// A right side, and what an operator makes of it and of a left side.
#[cycle(emit)]
fn emit_combined(
    out: &mut Emitter,
    naming: &Naming,
    place: Place,
    op: TypedOp,
    left: Operand,
    right: &TypedExpr,
    number: usize,
) -> Result<Evaluated, AllocError>
    ensures { IfOk result (λ r. IsCombined naming.now place (op_of op) (operand_of left) (expr_of right.now) number r (emission_of out.old) (emission_of out.new)) }
{
    match op {
        TypedOp::Plain(operator) => {
            emit_plain(out, naming, place, operator, left, right, number)
        }
        TypedOp::AndThen | TypedOp::OrElse => {
            emit_sequential(out, naming, place, op, left, right, number)
        }
    }
}

#[cycle(emit)]
fn emit_plain(
    out: &mut Emitter,
    naming: &Naming,
    place: Place,
    operator: Operator,
    left: Operand,
    right: &TypedExpr,
    number: usize,
) -> Result<Evaluated, AllocError>
    ensures { IfOk result (λ r. IsCombined naming.now place (typed.Plain operator) (operand_of left) (expr_of right.now) number r (emission_of out.old) (emission_of out.new)) }
{
    let right = emit_expression(out, naming, place, right, number)?;
    let value = operand_pair(out.alloc(), operator, left, right.operand)?;
    set_temporary(out, place, given_by(operator), right.next, value)
}

// The type of what an operator gives.
fn given_by(operator: Operator) -> Kind
    ensures { result ≡ given_by operator }
{
    match operator {
        Operator::Add | Operator::Sub | Operator::Mul | Operator::Div | Operator::Power => {
            Kind::Integer
        }
        _ => Kind::Logical,
    }
}

// A sequential operator: its value is that of the left side, unless that of the right side is asked.
#[cycle(emit)]
fn emit_sequential(
    out: &mut Emitter,
    naming: &Naming,
    place: Place,
    op: TypedOp,
    left: Operand,
    right: &TypedExpr,
    number: usize,
) -> Result<Evaluated, AllocError>
    requires { IsSequential (op_of op) }
    ensures { IfOk result (λ r. IsCombined naming.now place (op_of op) (operand_of left) (expr_of right.now) number r (emission_of out.old) (emission_of out.new)) }
{
    let target = plus(number, made(right)?)?;
    let value = operand_expr(left)?;
    let first = set_temporary(out, place, Kind::Logical, target, value)?;
    let label = out.fresh_label(naming)?;
    let test = decided(out.alloc(), op, first.operand)?;
    put_choice(out, place, test, label)?;
    let last = emit_last(out, naming, place, right, number)?;
    out.put_here(place, label)?;
    Ok(last)
}

// A right side that is the value of a sequential operator.
#[cycle(emit)]
fn emit_last(
    out: &mut Emitter,
    naming: &Naming,
    place: Place,
    right: &TypedExpr,
    number: usize,
) -> Result<Evaluated, AllocError>
    ensures { IfOk result (λ r. IsLast naming.now place (expr_of right.now) number r (emission_of out.old) (emission_of out.new)) }
{
    let right = emit_expression(out, naming, place, right, number)?;
    let value = operand_expr(right.operand)?;
    set_temporary(out, place, Kind::Logical, right.next, value)
}

// Where a sequential operator has its value.
fn decided(alloc: Global, op: TypedOp, value: Operand) -> Result<Expr, AllocError>
    ensures { IfOk result (λ e. formula_of e ≡ decided (op_of op) (operand_of value)) }
{
    match op {
        TypedOp::OrElse => operand_expr(value),
        TypedOp::AndThen | TypedOp::Plain(_) => operand_not(alloc, value),
    }
}

// A call of a procedure that has a type.
#[cycle(emit)]
fn emit_call(
    out: &mut Emitter,
    naming: &Naming,
    place: Place,
    procedure: usize,
    kind: Kind,
    list: &[TypedExpr],
    number: usize,
) -> Result<Evaluated, AllocError>
    ensures { IfOk result (λ r. IsEvaluated naming.now place (typed.Call procedure kind (exprs_of list.now)) number r (emission_of out.old) (emission_of out.new)) }
{
    let actuals = emit_actuals(out, naming, place, list, number)?;
    let next = actuals.next;
    let list = or_one(actuals.list)?;
    let name = naming.callee(procedure)?;
    set_temporary(out, place, kind, next, applied(name, list)?)
}

// A call of an intrinsic function.
#[cycle(emit)]
fn emit_known(
    out: &mut Emitter,
    naming: &Naming,
    place: Place,
    intrinsic: Intrinsic,
    list: &[TypedExpr],
    number: usize,
) -> Result<Evaluated, AllocError>
    ensures { IfOk result (λ r. IsEvaluated naming.now place (typed.Known (intrinsic_of intrinsic) (exprs_of list.now)) number r (emission_of out.old) (emission_of out.new)) }
{
    let all = emit_all(out, naming, place, list, number)?;
    set_gathered(out, place, intrinsic, all.next, all.list)
}

// Expressions, one after another.
#[cycle(emit)]
fn emit_all(
    out: &mut Emitter,
    naming: &Naming,
    place: Place,
    list: &[TypedExpr],
    number: usize,
) -> Result<Arguments, AllocError>
    ensures { IfOk result (λ r. AreEvaluated naming.now place (exprs_of list.now) number r (emission_of out.old) (emission_of out.new)) }
{
    let mut values = Vec::new(out.alloc());
    let mut next = number;
    for e in list {
        let value = emit_expression(out, naming, place, e, next)?;
        next = value.next;
        values.push(operand_expr(value.operand)?)?;
    }
    Ok(Arguments { list: values, next })
}

/// Actuals, one after another: places, and values in parentheses.
#[cycle(emit)]
pub fn emit_actuals(
    out: &mut Emitter,
    naming: &Naming,
    place: Place,
    list: &[TypedExpr],
    number: usize,
) -> Result<Arguments, AllocError>
    ensures { IfOk result (λ r. AreActuals naming.now place (exprs_of list.now) number r (emission_of out.old) (emission_of out.new)) }
{
    let mut actuals = Vec::new(out.alloc());
    let mut next = number;
    for e in list {
        let (actual, behind) = emit_actual(out, naming, place, e, next)?;
        next = behind;
        actuals.push(actual)?;
    }
    Ok(Arguments {
        list: actuals,
        next,
    })
}

// One actual, and the number of the next temporary.
#[cycle(emit)]
fn emit_actual(
    out: &mut Emitter,
    naming: &Naming,
    place: Place,
    e: &TypedExpr,
    number: usize,
) -> Result<(Expr, usize), AllocError>
    ensures { IfOk result (λ r. IsActual naming.now place (expr_of e.now) number r (emission_of out.old) (emission_of out.new)) }
{
    match place_in(e) {
        Some(x) => {
            let name = naming.home(x.variable)?;
            Ok((Expr::Ref(name), number))
        }
        None => {
            let value = emit_expression(out, naming, place, e, number)?;
            let operand = boxed_operand(out.alloc(), value.operand)?;
            Ok((Expr::Group(operand), value.next))
        }
    }
}
