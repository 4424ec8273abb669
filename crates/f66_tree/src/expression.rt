// Expressions.
ghost use Rattle.std.specs.Prelude.{◌≡◌, IfOk, map};
ghost use Rattle.f66_tree.specs.Constants.{constant_value, unsigned_value};
ghost use Rattle.f66_tree.specs.Syntax.{Item, Pair};
ghost use Rattle.f66_tree.specs.Views.{formula_of, formulas_of};

use crate::Name;
use ground::List;
use std::alloc::{AllocError, Global};

/// An expression (X3.9-1966, section 6).
#[derive(Drop)]
pub enum Expr {
    /// A constant of at most 2147483647.
    Int(i64),
    Truth(bool),
    /// A Hollerith text of one character, by its code.
    Letter(u8),
    Ref(Name),
    /// An element of an array, or a function's value: its name, and its subscripts or arguments. They stand in a box, so that the
    /// many expressions without them are small.
    Item(Box<(Name, List<Expr>)>),
    Group(Box<Expr>),
    Plus(Box<Expr>),
    Minus(Box<Expr>),
    Not(Box<Expr>),
    /// An operator and its two operands, which stand in one box.
    Pair(Operator, Box<(Expr, Expr)>),
}

/// An operator between two operands.
#[derive(Clone, Copy, PartialEq, Eq)]
pub enum Operator {
    Add,
    Sub,
    Mul,
    Div,
    Power,
    Lt,
    Le,
    Eq,
    Ne,
    Ge,
    Gt,
    And,
    Or,
}

const GREATEST: i64 = 2_147_483_647;

/// The element of an array, or the function's value, with this name and these subscripts or arguments.
pub fn applied(name: Name, list: List<Expr>) -> Result<Expr, AllocError>
    ensures { IfOk result (λ e. formula_of e ≡ Item name (formulas_of list.items)) }
{
    let alloc = *list.allocator();
    Ok(Expr::Item(Box::new(alloc, (name, list))?))
}

/// Two operands with an operator between them.
pub fn paired(
    alloc: Global,
    operator: Operator,
    left: Expr,
    right: Expr,
) -> Result<Expr, AllocError>
    ensures { IfOk result (λ e. formula_of e ≡ Pair operator (formula_of left) (formula_of right)) }
{
    Ok(Expr::Pair(operator, Box::new(alloc, (left, right))?))
}

/// The value of an integer constant with one sign or none (X3.9-1966, section 5.1.1.1).
pub fn eval_const(e: &Expr) -> Option<i64>
    ensures { result ≡ constant_value (formula_of e.now) }
{
    match e {
        Expr::Minus(a) => match eval_unsigned(a) {
            Some(value) => Some(-value),
            None => None,
        },
        Expr::Plus(a) => eval_unsigned(a),
        e => eval_unsigned(e),
    }
}

fn eval_unsigned(e: &Expr) -> Option<i64>
    ensures { result ≡ unsigned_value (formula_of e.now) }
{
    match e {
        Expr::Int(value) if 0 <= *value && *value <= GREATEST => Some(*value),
        _ => None,
    }
}

/// The same expression once more.
#[cycle(copy)]
pub fn copy_expr(alloc: Global, e: &Expr) -> Result<Expr, AllocError>
    ensures { IfOk result (λ r. formula_of r ≡ formula_of e.now) }
{
    match e {
        Expr::Int(value) => Ok(Expr::Int(*value)),
        Expr::Truth(value) => Ok(Expr::Truth(*value)),
        Expr::Letter(code) => Ok(Expr::Letter(*code)),
        Expr::Ref(name) => Ok(Expr::Ref(name.copy()?)),
        Expr::Item(item) => {
            let (name, list) = &**item;
            let name = name.copy()?;
            let list = copy_exprs(alloc, list)?;
            Ok(Expr::Item(Box::new(alloc, (name, list))?))
        }
        Expr::Group(a) => Ok(Expr::Group(copy_boxed(alloc, a)?)),
        Expr::Plus(a) => Ok(Expr::Plus(copy_boxed(alloc, a)?)),
        Expr::Minus(a) => Ok(Expr::Minus(copy_boxed(alloc, a)?)),
        Expr::Not(a) => Ok(Expr::Not(copy_boxed(alloc, a)?)),
        Expr::Pair(operator, operands) => {
            let (a, b) = &**operands;
            let a = copy_expr(alloc, a)?;
            let b = copy_expr(alloc, b)?;
            paired(alloc, *operator, a, b)
        }
    }
}

#[cycle(copy)]
fn copy_boxed(alloc: Global, e: &Expr) -> Result<Box<Expr>, AllocError>
    ensures { IfOk result (λ r. formula_of r.value ≡ formula_of e.now) }
{
    let e = copy_expr(alloc, e)?;
    Ok(Box::new(alloc, e)?)
}

/// The same expressions once more.
#[cycle(copy)]
pub fn copy_exprs(alloc: Global, list: &[Expr]) -> Result<List<Expr>, AllocError>
    ensures { IfOk result (λ r. map formula_of r.items ≡ map formula_of list.now) }
{
    let mut copies = Vec::new(alloc);
    for e in list {
        let copy = copy_expr(alloc, e)?;
        copies.push(copy)?;
    }
    Ok(copies)
}
