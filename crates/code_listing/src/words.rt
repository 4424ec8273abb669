// The words of a listing.
ghost use Rattle.std.specs.Prelude.{◌≡◌};
ghost use Rattle.code_listing.specs.Listing.{kind_word as word_of_kind, name, operator_word as word_of_operator, truth_word as word_of_truth};

use f66_tree::Operator;
use ground::Kind;
use stack_code::Op;

/// The name of an instruction.
pub fn name_of(op: &Op) -> &'static [u8]
    ensures { result.now ≡ name op.now }
{
    match op {
        Op::Begin(_) => b"Begin",
        Op::Step => b"Step",
        Op::PushInt(_) => b"PushInt",
        Op::PushLog(_) => b"PushLog",
        Op::Spot(_, _) => b"Spot",
        Op::Dummy(_) => b"Dummy",
        Op::Element(_) => b"Element",
        Op::LoadInt => b"LoadInt",
        Op::LoadLog => b"LoadLog",
        Op::Store => b"Store",
        Op::Forget => b"Forget",
        Op::Lend(_) => b"Lend",
        Op::Add => b"Add",
        Op::Sub => b"Sub",
        Op::Mul => b"Mul",
        Op::Div => b"Div",
        Op::Pow => b"Pow",
        Op::Minus => b"Minus",
        Op::Not => b"Not",
        Op::And => b"And",
        Op::Or => b"Or",
        Op::Compare(_) => b"Compare",
        Op::Known(_, _) => b"Known",
        Op::Jump(_) => b"Jump",
        Op::JumpFalse(_) => b"JumpFalse",
        Op::JumpSign(_, _, _) => b"JumpSign",
        Op::JumpTable(_) => b"JumpTable",
        Op::LoopStart(_, _) => b"LoopStart",
        Op::LoopTurn(_, _, _) => b"LoopTurn",
        Op::Call(_, _) => b"Call",
        Op::Return => b"Return",
        Op::WriteStart(_) => b"WriteStart",
        Op::ReadStart(_) => b"ReadStart",
        Op::PutItem(_) => b"PutItem",
        Op::TakeItem(_) => b"TakeItem",
        Op::PutRow(_, _) => b"PutRow",
        Op::TakeRow(_, _) => b"TakeRow",
        Op::Finish => b"Finish",
        Op::Halt => b"Halt",
        Op::HaltWith(_) => b"HaltWith",
    }
}

/// The name of an operator.
pub fn operator_word(operator: Operator) -> &'static [u8]
    ensures { result.now ≡ word_of_operator operator }
{
    match operator {
        Operator::Add => b"Add",
        Operator::Sub => b"Sub",
        Operator::Mul => b"Mul",
        Operator::Div => b"Div",
        Operator::Power => b"Power",
        Operator::Lt => b"Lt",
        Operator::Le => b"Le",
        Operator::Eq => b"Eq",
        Operator::Ne => b"Ne",
        Operator::Ge => b"Ge",
        Operator::Gt => b"Gt",
        Operator::And => b"And",
        Operator::Or => b"Or",
    }
}

/// The word of a kind.
pub fn kind_word(kind: Kind) -> &'static [u8]
    ensures { result.now ≡ word_of_kind kind }
{
    match kind {
        Kind::Integer => b"Integer",
        Kind::Logical => b"Logical",
    }
}

/// The word of a truth value.
pub fn truth_word(truth: bool) -> &'static [u8]
    ensures { result.now ≡ word_of_truth truth }
{
    if truth { b"true" } else { b"false" }
}
