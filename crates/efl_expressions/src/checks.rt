// What operators make of the checks of their operands.
ghost use Rattle.std.specs.Prelude.{ℤ, Bool};
ghost use Rattle.efl_tree.specs.Syntax.{EflExpr, Int, Truth, Group, Plus, Minus, Not, Pair};
ghost use Rattle.efl_types.specs.Signatures.{Names};
ghost use Rattle.efl_expressions.specs.Checks.{IsChecked};

use crate::{Form, lower, operand, outcome, value_form, wants, wants_single};
use efl_tree::EflOperator;
use efl_types::TypeRule;
use ground::Kind;

/// What the check of an expression tells: the form of its type, and the first rule that it breaks.
#[derive(Clone, Copy)]
pub struct Checked {
    pub form: Form,
    pub rule: Option<TypeRule>,
}

/// Of a number.
pub fn number() -> Checked
    ensures { (n : Names) (z : ℤ) → IsChecked n (Int z) result }
{
    Checked {
        form: Form::Scalar(Kind::Integer),
        rule: None,
    }
}

/// Of a logical constant.
pub fn truth() -> Checked
    ensures { (n : Names) (b : Bool) → IsChecked n (Truth b) result }
{
    Checked {
        form: Form::Scalar(Kind::Logical),
        rule: None,
    }
}

/// Of an expression in parentheses.
pub fn grouped(inner: Checked) -> Checked
    ensures { (n : Names) (e : EflExpr) → IsChecked n e inner → IsChecked n (Group e) result }
{
    Checked {
        form: value_form(inner.form),
        rule: lower(wants_single(inner.form), inner.rule),
    }
}

/// Of an expression behind a sign.
pub fn signed(inner: Checked) -> Checked
    ensures plus { (n : Names) (e : EflExpr) → IsChecked n e inner → IsChecked n (Plus e) result }
    ensures minus { (n : Names) (e : EflExpr) → IsChecked n e inner → IsChecked n (Minus e) result }
{
    Checked {
        form: Form::Scalar(Kind::Integer),
        rule: lower(wants(Kind::Integer, inner.form), inner.rule),
    }
}

/// Of an expression behind `not`.
pub fn negated(inner: Checked) -> Checked
    ensures { (n : Names) (e : EflExpr) → IsChecked n e inner → IsChecked n (Not e) result }
{
    Checked {
        form: Form::Scalar(Kind::Logical),
        rule: lower(wants(Kind::Logical, inner.form), inner.rule),
    }
}

/// Of an operator between two expressions.
pub fn paired(operator: EflOperator, left: Checked, right: Checked) -> Checked
    ensures { (n : Names) (a b : EflExpr) → IsChecked n a left → IsChecked n b right → IsChecked n (Pair operator a b) result }
{
    let kind = operand(operator);
    let operands = lower(wants(kind, right.form), lower(left.rule, right.rule));
    Checked {
        form: Form::Scalar(outcome(operator)),
        rule: lower(wants(kind, left.form), operands),
    }
}
