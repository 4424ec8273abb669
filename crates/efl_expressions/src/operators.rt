// What operators take and give.
ghost use Rattle.std.specs.Prelude.{◌≡◌};
ghost use Rattle.efl_types.specs.Types.{operand as operand_seen, outcome as outcome_seen};

use efl_tree::EflOperator;
use ground::Kind;

/// What an operator takes on both sides.
pub fn operand(operator: EflOperator) -> Kind
    ensures { result ≡ operand_seen operator }
{
    match operator {
        EflOperator::And | EflOperator::Or | EflOperator::AndThen | EflOperator::OrElse => {
            Kind::Logical
        }
        _ => Kind::Integer,
    }
}

/// What an operator gives.
pub fn outcome(operator: EflOperator) -> Kind
    ensures { result ≡ outcome_seen operator }
{
    match operator {
        EflOperator::Add
        | EflOperator::Sub
        | EflOperator::Mul
        | EflOperator::Div
        | EflOperator::Power => Kind::Integer,
        _ => Kind::Logical,
    }
}
