// The rules that something breaks, of which that with the smallest number counts.
ghost use Rattle.std.specs.Prelude.{◌≡◌};
ghost use Rattle.efl_tree.specs.Syntax.{EflExpr};
ghost use Rattle.efl_types.specs.Signatures.{Names};
ghost use Rattle.efl_types.specs.Types.{type_of};
ghost use Rattle.efl_types.specs.TypeRules.{rule_number};
ghost use Rattle.efl_types.specs.Expressions.{when, wants as wants_seen, wants_single as wants_single_seen};
ghost use Rattle.efl_expressions.specs.Forms.{form_of};
ghost use Rattle.efl_expressions.specs.FirstRule.{or_lower, first_rule};

use crate::{Form, fits, is_single};
use efl_types::TypeRule;
use ground::Kind;

/// Of two rules that are broken the one with the smaller number.
pub fn lower(one: Option<TypeRule>, other: Option<TypeRule>) -> Option<TypeRule>
    ensures { result ≡ or_lower one other }
{
    match (one, other) {
        (None, _) => other,
        (_, None) => one,
        (Some(a), Some(b)) => { if number(a) <= number(b) { one } else { other } }
    }
}

/// A rule's place in the order of faults.
fn number(rule: TypeRule) -> u64
    ensures { result ≡ rule_number rule }
{
    u64::from(rule.kind().number()) * 100 + rule.limit()
}

/// A rule where it is broken.
pub fn rule_if(broken: bool, rule: TypeRule) -> Option<TypeRule>
    ensures { result ≡ first_rule (when broken rule) }
{
    if broken { Some(rule) } else { None }
}

/// What an operand of this form breaks where a kind is asked for.
pub fn wants(kind: Kind, operand: Form) -> Option<TypeRule>
    ensures { (n : Names) (e : EflExpr) → form_of (type_of n e) ≡ operand → result ≡ first_rule (wants_seen n kind e) }
{
    rule_if(!fits(kind, operand), TypeRule::TypeClash)
}

/// What an operand of this form breaks where a scalar is asked for.
pub fn wants_single(operand: Form) -> Option<TypeRule>
    ensures { (n : Names) (e : EflExpr) → form_of (type_of n e) ≡ operand → result ≡ first_rule (wants_single_seen n e) }
{
    rule_if(!is_single(operand), TypeRule::TypeClash)
}
