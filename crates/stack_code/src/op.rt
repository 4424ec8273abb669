// The instructions of stack code.

use f66_tree::Operator;
use ground::{Kind, List, Place};

/// An instruction. Entries of the stack are integers, truth values and spots; a spot is some of the storage units of a
/// variable, or a value that is lent and may not be stored into.
#[derive(Drop)]
pub enum Op {
    /// A statement begins.
    Begin(Place),
    /// A turn of an implied DO begins.
    Step,
    PushInt(i64),
    PushLog(bool),
    /// A spot of these units: the first, and how many.
    Spot(u32, u32),
    /// The dummy of this number.
    Dummy(u32),
    /// An element of an array of so many dimensions.
    Element(u8),
    LoadInt,
    LoadLog,
    Store,
    Forget,
    /// A value is lent in this unit.
    Lend(u32),
    Add,
    Sub,
    Mul,
    Div,
    Pow,
    Minus,
    Not,
    And,
    Or,
    Compare(Operator),
    /// An intrinsic function by its number, and how many arguments it has.
    Known(u8, u32),
    Jump(u32),
    JumpFalse(u32),
    /// By the sign of an integer: below zero, zero, above zero.
    JumpSign(u32, u32, u32),
    JumpTable(List<u32>),
    /// A DO begins, and keeps its limit and its step in these units.
    LoopStart(u32, u32),
    /// After a turn of a DO: its limit, its step, and where the next turn begins.
    LoopTurn(u32, u32, u32),
    /// A unit by its entry, and how many dummies it has.
    Call(u32, u32),
    Return,
    WriteStart(u32),
    ReadStart(u32),
    PutItem(Kind),
    TakeItem(Kind),
    /// An array of so many dimensions, whole.
    PutRow(Kind, u8),
    TakeRow(Kind, u8),
    Finish,
    Halt,
    HaltWith(u16),
}
