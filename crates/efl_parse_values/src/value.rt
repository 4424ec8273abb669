// What the parts of a text give.

use efl_tree::{
    EflBound, EflCase, EflConst, EflDecl, EflDeclKind, EflEdit, EflExpr, EflGroup, EflName,
    EflOperator, EflPlace, EflPreset, EflProcedure, EflProgram, EflStep, EflStmt, EflType, EflVar,
    LoopKind, ReadItem, WriteItem,
};
use ground::{List, Place, Token};

/// What a symbol gave. Lists stand in it with their last item first, and large parts in boxes, so that a value is moved
/// at little cost.
#[derive(Drop)]
pub enum Value {
    Nothing,
    Token(Token),
    Expression(ExpressionValue),
    Count(CountValue),
    Type(TypeValue),
    Declaration(DeclarationValue),
    Record(RecordValue),
    Statement(StatementValue),
    Procedure(ProcedureValue),
}

/// An expression or place, or a part of one.
#[derive(Drop)]
pub enum ExpressionValue {
    Expr(EflExpr),
    /// An expression with its place: the act of `++` or `--`, and the condition of `until`.
    Located(Place, EflExpr),
    Exprs(Vec<EflExpr>),
    /// Operators, each with the operand behind it.
    Joins(Vec<(EflOperator, EflExpr)>),
    Rest(Rest),
    Path(EflPlace),
    Steps(Vec<EflStep>),
}

/// Names, numbers and letters.
#[derive(Drop)]
pub enum CountValue {
    Names(Vec<EflName>),
    Integer(i64),
    Integers(Vec<i64>),
    Upper(Option<i64>),
    Range((u8, u8)),
    Ranges(Vec<(u8, u8)>),
    /// What `break` and `next` count.
    Leaving(u32, Option<LoopKind>),
}

/// A type, and what is declared with it.
#[derive(Drop)]
pub enum TypeValue {
    /// A type with the place of its first token.
    Typed(Place, EflType),
    Bound(EflBound),
    Bounds(Vec<EflBound>),
    Var(EflVar),
    Vars(Vec<EflVar>),
    Group(EflGroup),
    Groups(Vec<EflGroup>),
    /// What stands behind a structure's name: its groups in order, if any, and variables.
    Outline(Option<List<EflGroup>>, Vec<EflVar>),
}

/// A declaration, and the values of `initial`.
#[derive(Drop)]
pub enum DeclarationValue {
    Constant(EflConst),
    Datum(u32, EflConst),
    Data(Vec<(u32, EflConst)>),
    /// The values of a preset, and whether they stand in parentheses.
    Values(bool, Vec<(u32, EflConst)>),
    Preset(Box<EflPreset>),
    Presets(Vec<EflPreset>),
    Declared(Box<EflDeclKind>),
    Declaration(Box<EflDecl>),
}

/// What `read` and `write` list.
#[derive(Drop)]
pub enum RecordValue {
    Edit(EflEdit),
    WriteItem(Box<WriteItem>),
    WriteItems(Vec<WriteItem>),
    ReadItem(ReadItem),
    ReadItems(Vec<ReadItem>),
}

/// A statement, statements, or clauses of a `switch`.
#[derive(Drop)]
pub enum StatementValue {
    Statement(Box<EflStmt>),
    Statements(Vec<EflStmt>),
    Clause(EflCase),
    Clauses(Vec<EflCase>),
    Lists(Lists),
    Opening(Box<Opening>),
}

/// A header, procedures, or a program.
#[derive(Drop)]
pub enum ProcedureValue {
    Heading(Option<EflName>, Vec<EflName>),
    Header(Box<Header>),
    Procedure(Box<EflProcedure>),
    Procedures(Vec<EflProcedure>),
    Program(EflProgram),
}

/// What a procedure begins with: its place, the type of its result, its name, and its formals, the last first.
#[derive(Drop)]
pub struct Header {
    pub place: Place,
    pub result: Option<EflType>,
    pub name: Option<EflName>,
    pub formals: Vec<EflName>,
}

/// What stands behind a first name: arguments and steps in order, and what comes of them.
#[derive(Drop)]
pub struct Rest {
    pub arguments: List<EflExpr>,
    pub steps: List<EflStep>,
    pub tail: Tail,
}

/// What an act or operand comes to behind its first name, subscripts and steps: a call, a place, or an assignment to it.
#[derive(Drop)]
pub enum Tail {
    Called(Vec<(EflOperator, EflExpr)>),
    Reached(Vec<(EflOperator, EflExpr)>),
    Stored(Option<EflOperator>, Box<EflExpr>),
}

/// Declarations and the statements behind them.
#[derive(Drop)]
pub struct Lists {
    pub declarations: Vec<EflDecl>,
    pub body: Vec<EflStmt>,
}

/// What follows the first name of a list, and the lists behind.
#[derive(Drop)]
pub enum Opening {
    /// Variables of that type.
    Declares(Vec<EflVar>, Lists),
    /// An act that begins with the name.
    Begins(Rest, Vec<EflStmt>),
    /// A statement that the name labels.
    Labels(EflStmt, Vec<EflStmt>),
}
