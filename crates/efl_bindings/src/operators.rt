// Operators and intrinsic functions of FORTRAN for those of EFL.
ghost use Rattle.std.specs.Prelude.{◌≡◌, option_map};
ghost use Rattle.std.specs.Str.{bytes_eq};
ghost use Rattle.efl_typed.specs.Typing.{op_of as op_seen, intrinsic as intrinsic_seen};
ghost use Rattle.efl_typed_tree.specs.Views.{op_of, intrinsic_of};

use efl_tree::EflOperator;
use efl_typed_tree::{Intrinsic, TypedOp};
use f66_tree::Operator;

/// The operator for an operator.
pub fn typed_op(op: EflOperator) -> TypedOp
    ensures { op_of result ≡ op_seen op }
{
    match op {
        EflOperator::Add => TypedOp::Plain(Operator::Add),
        EflOperator::Sub => TypedOp::Plain(Operator::Sub),
        EflOperator::Mul => TypedOp::Plain(Operator::Mul),
        EflOperator::Div => TypedOp::Plain(Operator::Div),
        EflOperator::Power => TypedOp::Plain(Operator::Power),
        EflOperator::Lt => TypedOp::Plain(Operator::Lt),
        EflOperator::Le => TypedOp::Plain(Operator::Le),
        EflOperator::Eq => TypedOp::Plain(Operator::Eq),
        EflOperator::Ne => TypedOp::Plain(Operator::Ne),
        EflOperator::Ge => TypedOp::Plain(Operator::Ge),
        EflOperator::Gt => TypedOp::Plain(Operator::Gt),
        EflOperator::And => TypedOp::Plain(Operator::And),
        EflOperator::Or => TypedOp::Plain(Operator::Or),
        EflOperator::AndThen => TypedOp::AndThen,
        EflOperator::OrElse => TypedOp::OrElse,
    }
}

/// The same where there is one.
pub fn typed_op_if_any(op: Option<EflOperator>) -> Option<TypedOp>
    ensures { option_map op_of result ≡ option_map op_seen op }
{
    match op {
        None => None,
        Some(op) => Some(typed_op(op)),
    }
}

/// The intrinsic function of a name.
pub fn intrinsic(name: &[u8]) -> Intrinsic
    ensures { intrinsic_of result ≡ intrinsic_seen name.now }
{
    if is_text(name, b"ABS") {
        Intrinsic::Iabs
    } else if is_text(name, b"SIGN") {
        Intrinsic::Isign
    } else if is_text(name, b"MIN") {
        Intrinsic::Min0
    } else if is_text(name, b"MAX") {
        Intrinsic::Max0
    } else {
        Intrinsic::Mod
    }
}

fn is_text(name: &[u8], text: &[u8]) -> bool
    ensures { result ≡ bytes_eq name.now text.now }
{
    name == text
}
