// Statements.

use crate::{EflDecl, EflExpr, EflName, EflPlace};
use ground::{List, Place, Text};

/// A statement with its labels, and the place behind them.
#[cycle(statement)]
#[derive(Drop)]
pub struct EflStmt {
    pub labels: List<Text>,
    pub place: Place,
    pub kind: EflKind,
}

/// What a statement is.
#[cycle(statement)]
#[derive(Drop)]
pub enum EflKind {
    Empty,
    Block(List<EflDecl>, List<EflStmt>),
    Act(EflExpr),
    If(EflExpr, Box<EflStmt>, Option<Box<EflStmt>>),
    While(EflExpr, Box<EflStmt>),
    /// The first act, the condition, the step, and the body.
    For(Option<EflExpr>, Option<EflExpr>, Option<EflExpr>, Box<EflStmt>),
    /// The body, and the condition of `until` with the place of that word.
    Repeat(Box<EflStmt>, Option<(EflExpr, Place)>),
    /// The variable, its first value, its last, the step, and the body.
    Do(EflName, EflExpr, EflExpr, Option<EflExpr>, Box<EflStmt>),
    Switch(EflExpr, List<EflCase>),
    /// How many loops and switches are left, of one kind where it is named.
    Break(u32, Option<LoopKind>),
    /// Which loop goes on, counted from the inside, of one kind where it is named.
    Next(u32, Option<LoopKind>),
    Return(Option<EflExpr>),
    Goto(Text),
    /// The unit, and the items.
    Write(Option<EflExpr>, List<WriteItem>),
    /// The unit, and the items.
    Read(Option<EflExpr>, List<ReadItem>),
}

/// A clause of a switch: its constants, whether it is the default, and its statements.
#[cycle(statement)]
#[derive(Drop)]
pub struct EflCase {
    pub tests: List<i64>,
    pub fallback: bool,
    pub body: List<EflStmt>,
    pub place: Place,
}

/// A kind of loop, or a switch.
#[derive(Clone, Copy, PartialEq, Eq)]
pub enum LoopKind {
    While,
    For,
    Repeat,
    Do,
    Switch,
}

/// What `write` edits.
#[derive(Drop)]
pub enum WriteItem {
    Value(EflExpr, EflEdit),
    Skip(i64),
    Chars(Text),
}

/// What `read` edits.
#[derive(Drop)]
pub enum ReadItem {
    Take(EflPlace, EflEdit),
    Skip(i64),
}

/// How an item is edited: `i` and `l` with their width, or `c`.
#[derive(Clone, Copy)]
pub enum EflEdit {
    Whole(i64),
    Truth(i64),
    Letter,
}
