// The instructions of operators, and how instructions are put behind others.
ghost use Rattle.std.specs.Prelude.{◌≡◌, ◌++◌, ◌∷◌, [], OnOk};
ghost use Rattle.stack_code.specs.Instructions.{Load};
ghost use Rattle.stack_code.specs.Views.{code_of, instruction_of};
ghost use Rattle.code_gen.specs.Expressions.{operator_code};

use f66_tree::Operator;
use ground::Kind;
use stack_code::Op;
use std::alloc::AllocError;

/// Puts an instruction behind others.
pub(crate) fn put(ops: &mut Vec<Op>, op: Op) -> Result<(), AllocError>
    ensures { OnOk result (code_of ops.new.items ≡ code_of ops.old.items ++ instruction_of op ∷ []) }
{
    ops.push(op)?;
    Ok(())
}

/// The instruction that loads a content of a type.
pub(crate) fn load_op(kind: Kind) -> Op
    ensures { instruction_of result ≡ Load kind }
{
    match kind {
        Kind::Integer => Op::LoadInt,
        Kind::Logical => Op::LoadLog,
    }
}

/// The instruction of an operator between two operands.
pub(crate) fn operator_op(operator: Operator) -> Op
    ensures { instruction_of result ≡ operator_code operator }
{
    match operator {
        Operator::Add => Op::Add,
        Operator::Sub => Op::Sub,
        Operator::Mul => Op::Mul,
        Operator::Div => Op::Div,
        Operator::Power => Op::Pow,
        Operator::And => Op::And,
        Operator::Or => Op::Or,
        relation => Op::Compare(relation),
    }
}
