// Typed statements.

use crate::{Scalar, TypedExpr};
use efl_tree::LoopKind;
use ground::{List, Place, Text};

/// A statement with its labels, the first the outermost, and the place behind them.
#[cycle(statement)]
#[derive(Drop)]
pub struct TypedStmt {
    pub labels: List<Text>,
    pub place: Place,
    pub kind: TypedKind,
}

/// What a statement is.
#[cycle(statement)]
#[derive(Drop)]
pub enum TypedKind {
    Empty,
    Block(List<TypedStmt>),
    Act(TypedAction),
    If(TypedExpr, Box<TypedStmt>, Option<Box<TypedStmt>>),
    While(TypedExpr, Box<TypedStmt>),
    /// The first act, the condition, the step, and the body.
    For(Option<TypedAction>, Option<TypedExpr>, Option<TypedAction>, Box<TypedStmt>),
    /// The body, and the condition of `until` with the place of that word.
    Repeat(Box<TypedStmt>, Option<(TypedExpr, Place)>),
    /// The variable's number, its values, and the body.
    Do(usize, TypedRange, Box<TypedStmt>),
    Switch(TypedExpr, List<TypedClause>),
    /// How many loops and switches are left, of one kind where it is named.
    Break(u32, Option<LoopKind>),
    /// Which loop goes on, counted from the inside, of one kind where it is named.
    Next(u32, Option<LoopKind>),
    Return(Option<TypedExpr>),
    Goto(Text),
    /// The unit, and the items.
    Write(Option<TypedExpr>, List<TypedWriteItem>),
    /// The unit, and the items.
    Read(Option<TypedExpr>, List<TypedReadItem>),
}

/// A clause of a switch: its constants, whether it is the default, and its statements.
#[cycle(statement)]
#[derive(Drop)]
pub struct TypedClause {
    pub tests: List<i64>,
    pub fallback: bool,
    pub body: List<TypedStmt>,
    pub place: Place,
}

/// The values of the variable of a `do`: its first, its last, and the step.
#[derive(Drop)]
pub struct TypedRange {
    pub first: TypedExpr,
    pub last: TypedExpr,
    pub step: Option<TypedExpr>,
}

/// A statement without control that may also stand in a `for`.
#[derive(Drop)]
pub enum TypedAction {
    Evaluate(TypedExpr),
    /// A call of the procedure with this number.
    Invoke(usize, List<TypedExpr>),
}

/// How an item is edited, with its width.
#[derive(Clone, Copy)]
pub enum TypedEdit {
    Whole(u16),
    Truth(u16),
    Letter,
}

/// What `write` edits.
#[derive(Drop)]
pub enum TypedWriteItem {
    Value(TypedExpr, TypedEdit),
    Skip(u16),
    Chars(Text),
}

/// What `read` edits.
#[derive(Clone, Copy)]
pub enum TypedReadItem {
    Take(Scalar, TypedEdit),
    Skip(u16),
}
