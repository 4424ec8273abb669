// What an instruction takes off the stack, and what it leaves there.
ghost use Rattle.std.specs.Prelude.{◌≡◌};
ghost use Rattle.stack_code.specs.Views.{instruction_of};
ghost use Rattle.stack_code.specs.ValidCode as valid;

use crate::{EntryKind, Op};

/// What is taken, in the order of these fields from the top down, and what is pushed then.
#[derive(Clone, Copy)]
pub struct Effect {
    /// Whether a value of either type comes first.
    pub value: bool,
    /// So many integers.
    pub ints: u32,
    /// So many truth values.
    pub logs: u32,
    /// So many spots.
    pub spots: u32,
    /// The kind of what is pushed.
    pub gives: Option<EntryKind>,
}

fn gives(ints: u32, gives: Option<EntryKind>) -> Effect
    ensures { result ≡ valid.gives ints gives }
{
    Effect {
        value: false,
        ints,
        logs: 0,
        spots: 0,
        gives,
    }
}

fn from_logs(logs: u32, gives: Option<EntryKind>) -> Effect
    ensures { result ≡ valid.from_logs logs gives }
{
    Effect {
        value: false,
        ints: 0,
        logs,
        spots: 0,
        gives,
    }
}

fn from_spots(ints: u32, spots: u32, gives: Option<EntryKind>) -> Effect
    ensures { result ≡ valid.from_spots ints spots gives }
{
    Effect {
        value: false,
        ints,
        logs: 0,
        spots,
        gives,
    }
}

fn from_value(spots: u32, gives: Option<EntryKind>) -> Effect
    ensures { result ≡ valid.from_value spots gives }
{
    Effect {
        value: true,
        ints: 0,
        logs: 0,
        spots,
        gives,
    }
}

/// What the instruction does to the stack.
pub(crate) fn effect_of(op: &Op) -> Effect
    ensures { result ≡ valid.effect (instruction_of op.now) }
{
    match op {
        Op::PushInt(_) => gives(0, Some(EntryKind::Int)),
        Op::PushLog(_) => gives(0, Some(EntryKind::Log)),
        Op::Spot(_, _) => gives(0, Some(EntryKind::Spot)),
        Op::Dummy(_) => gives(0, Some(EntryKind::Spot)),
        Op::Element(n) => from_spots(u32::from(*n) + u32::from(*n), 1, Some(EntryKind::Spot)),
        Op::LoadInt => from_spots(0, 1, Some(EntryKind::Int)),
        Op::LoadLog => from_spots(0, 1, Some(EntryKind::Log)),
        Op::Store => from_value(1, None),
        Op::Forget => from_spots(0, 1, None),
        Op::Lend(_) => from_value(0, Some(EntryKind::Spot)),
        Op::Add => gives(2, Some(EntryKind::Int)),
        Op::Sub => gives(2, Some(EntryKind::Int)),
        Op::Mul => gives(2, Some(EntryKind::Int)),
        Op::Div => gives(2, Some(EntryKind::Int)),
        Op::Pow => gives(2, Some(EntryKind::Int)),
        Op::Minus => gives(1, Some(EntryKind::Int)),
        Op::Not => from_logs(1, Some(EntryKind::Log)),
        Op::And => from_logs(2, Some(EntryKind::Log)),
        Op::Or => from_logs(2, Some(EntryKind::Log)),
        Op::Compare(_) => gives(2, Some(EntryKind::Log)),
        Op::Known(_, n) => gives(*n, Some(EntryKind::Int)),
        Op::JumpFalse(_) => from_logs(1, None),
        Op::JumpSign(_, _, _) => gives(1, None),
        Op::JumpTable(_) => gives(1, None),
        Op::LoopStart(_, _) => from_spots(3, 1, None),
        Op::LoopTurn(_, _, _) => from_spots(0, 1, None),
        Op::Call(_, n) => from_spots(0, *n, None),
        Op::WriteStart(_) => gives(1, None),
        Op::ReadStart(_) => gives(1, None),
        Op::PutItem(_) => from_spots(0, 1, None),
        Op::TakeItem(_) => from_spots(0, 1, None),
        Op::PutRow(_, n) => from_spots(u32::from(*n), 1, None),
        Op::TakeRow(_, n) => from_spots(u32::from(*n), 1, None),
        Op::Begin(_) => gives(0, None),
        Op::Step => gives(0, None),
        Op::Jump(_) => gives(0, None),
        Op::Return => gives(0, None),
        Op::Finish => gives(0, None),
        Op::Halt => gives(0, None),
        Op::HaltWith(_) => gives(0, None),
    }
}
