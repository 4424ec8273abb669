// What has the value of an expression that was emitted.
ghost use Rattle.std.specs.Prelude.{◌≡◌, IfOk};
ghost use Rattle.f66_tree.specs.Syntax.{Not as NotOf, Pair as PairOf};
ghost use Rattle.f66_tree.specs.Views.{formula_of};
ghost use Rattle.efl_emit.specs.Names.{operand_of};

use crate::temporary;
use f66_tree::{Expr, Operator, paired};
use ground::Kind;
use std::alloc::{AllocError, Global};

/// A constant, or a temporary by its type and number.
#[derive(Clone, Copy)]
pub enum Operand {
    Int(i64),
    Truth(bool),
    Temp(Kind, usize),
}

/// The operand that has the value of an expression, and the number of the next temporary.
#[derive(Clone, Copy)]
pub struct Evaluated {
    pub operand: Operand,
    pub next: usize,
}

/// An operand as an expression of FORTRAN.
pub fn operand_expr(operand: Operand) -> Result<Expr, AllocError>
    ensures { IfOk result (λ e. formula_of e ≡ operand_of operand) }
{
    match operand {
        Operand::Int(value) => Ok(Expr::Int(value)),
        Operand::Truth(value) => Ok(Expr::Truth(value)),
        Operand::Temp(kind, number) => Ok(Expr::Ref(temporary(kind, number))),
    }
}

/// An operand as a part of an expression.
pub fn boxed_operand(alloc: Global, operand: Operand) -> Result<Box<Expr>, AllocError>
    ensures { IfOk result (λ e. formula_of e.value ≡ operand_of operand) }
{
    Ok(Box::new(alloc, operand_expr(operand)?)?)
}

/// Two operands with an operator between them.
pub fn operand_pair(
    alloc: Global,
    operator: Operator,
    left: Operand,
    right: Operand,
) -> Result<Expr, AllocError>
    ensures { IfOk result (λ e. formula_of e ≡ PairOf operator (operand_of left) (operand_of right)) }
{
    let left = operand_expr(left)?;
    let right = operand_expr(right)?;
    paired(alloc, operator, left, right)
}

/// Whether an operand is false.
pub fn operand_not(alloc: Global, operand: Operand) -> Result<Expr, AllocError>
    ensures { IfOk result (λ e. formula_of e ≡ NotOf (operand_of operand)) }
{
    Ok(Expr::Not(boxed_operand(alloc, operand)?))
}
