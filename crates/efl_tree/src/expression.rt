// Expressions, and the places of variables that they name.

use crate::EflName;
use ground::List;

/// An expression (Feldman, The Programming Language EFL, 1979). An act is an Assign, Up, Down or Call.
#[cycle(expression)]
#[derive(Drop)]
pub enum EflExpr {
    /// A constant of at most 2147483647.
    Int(i64),
    Truth(bool),
    /// A variable's place; with parentheses that are not empty it may be a call of a function.
    At(EflPlace),
    /// A call as an act, or with no arguments.
    Call(EflName, List<EflExpr>),
    Group(Box<EflExpr>),
    Plus(Box<EflExpr>),
    Minus(Box<EflExpr>),
    Not(Box<EflExpr>),
    /// `++`.
    Up(EflPlace),
    /// `--`.
    Down(EflPlace),
    Pair(EflOperator, Box<EflExpr>, Box<EflExpr>),
    /// An assignment: no operator for `=`, and no relation.
    Assign(Option<EflOperator>, EflPlace, Box<EflExpr>),
}

/// An operator between two operands.
#[derive(Clone, Copy, PartialEq, Eq)]
pub enum EflOperator {
    Add,
    Sub,
    Mul,
    Div,
    Power,
    Lt,
    Le,
    Eq,
    Ne,
    Ge,
    Gt,
    And,
    Or,
    /// `&&`, which skips its right operand where the left one is false.
    AndThen,
    /// `||`, which skips its right operand where the left one is true.
    OrElse,
}

/// A place of a variable as a text names it: a name, its subscripts, and steps from there.
#[cycle(expression)]
#[derive(Drop)]
pub struct EflPlace {
    pub first: EflName,
    pub subscripts: List<EflExpr>,
    pub steps: List<EflStep>,
}

/// A step to a member with its subscripts, `.`, or to a structure that begins there, `->`.
#[cycle(expression)]
#[derive(Drop)]
pub enum EflStep {
    Member(EflName, List<EflExpr>),
    Overlay(EflName),
}
