// Typed expressions, and the scalar variables that they name.

use f66_tree::Operator;
use ground::{Kind, List};

/// A scalar variable, by its number, with its type.
#[derive(Clone, Copy)]
pub struct Scalar {
    pub variable: usize,
    pub kind: Kind,
}

/// An intrinsic function of FORTRAN.
#[derive(Clone, Copy, PartialEq, Eq)]
pub enum Intrinsic {
    Iabs,
    Mod,
    Isign,
    Idim,
    Max0,
    Min0,
}

/// An operator of FORTRAN, or one that may skip its right operand.
#[derive(Clone, Copy, PartialEq, Eq)]
pub enum TypedOp {
    Plain(Operator),
    AndThen,
    OrElse,
}

/// A typed expression.
#[derive(Drop)]
pub enum TypedExpr {
    /// A constant of at most 2147483647.
    Int(i64),
    Truth(bool),
    At(Scalar),
    /// A call of the procedure with this number, whose value has this type.
    Call(usize, Kind, List<TypedExpr>),
    Known(Intrinsic, List<TypedExpr>),
    Group(Box<TypedExpr>),
    Plus(Box<TypedExpr>),
    Minus(Box<TypedExpr>),
    Not(Box<TypedExpr>),
    /// `++`.
    Up(Scalar),
    /// `--`.
    Down(Scalar),
    Pair(TypedOp, Box<TypedExpr>, Box<TypedExpr>),
    /// An assignment: no operator for `=`.
    Assign(Option<TypedOp>, Scalar, Box<TypedExpr>),
}
