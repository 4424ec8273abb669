// Programs of Ratfor.

use f66_tree::{Counting, Expr, Header, StmtKind};
use ground::{List, Place};

/// A program (Kernighan, Ratfor: A Preprocessor for a Rational Fortran, 1975).
#[derive(Drop)]
pub struct RatProgram {
    pub units: List<RatUnit>,
    /// Where the text ends.
    pub finish: Place,
}

/// A unit: its header, and its statements, declarations among them.
#[derive(Drop)]
pub struct RatUnit {
    pub header: Header,
    pub body: List<RatStmt>,
    pub place: Place,
}

/// A statement with its label.
#[cycle(tree)]
#[derive(Drop)]
pub struct RatStmt {
    pub label: Option<u32>,
    pub place: Place,
    pub kind: RatKind,
}

/// What a statement is.
#[cycle(tree)]
#[derive(Drop)]
pub enum RatKind {
    Empty,
    Block(List<RatStmt>),
    If(Expr, Box<RatStmt>, Option<Box<RatStmt>>),
    While(Expr, Box<RatStmt>),
    For(Box<ForHead>, Box<RatStmt>),
    /// The body, and the condition of `until` with the place of that word.
    Repeat(Box<RatStmt>, Option<(Expr, Place)>),
    /// What it counts, which lies apart, so that other statements are small, and the body.
    Do(Box<Counting>, Box<RatStmt>),
    Switch(Expr, List<RatCase>),
    /// How many loops are left.
    Break(u32),
    /// Which loop goes on, counted from the inside.
    Next(u32),
    Return(Option<Expr>),
    /// A statement of FORTRAN that is none of the above.
    Plain(StmtKind),
}

/// What a `for` says before its body. It lies apart, since it is three times as large as any other statement.
#[derive(Drop)]
pub struct ForHead {
    pub first: Option<StmtKind>,
    pub test: Option<Expr>,
    pub step: Option<StmtKind>,
}

/// A clause of a switch: its case expressions, whether it is the default, and its statements.
#[cycle(tree)]
#[derive(Drop)]
pub struct RatCase {
    pub tests: List<Expr>,
    pub fallback: bool,
    pub body: List<RatStmt>,
    pub place: Place,
}
