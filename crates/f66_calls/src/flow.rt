// The rules of order, labels and DO ranges.
ghost use Rattle.std.specs.Prelude.{◌≡◌, ◌<◌, ℕ, length, false};
ghost use Rattle.rule_table.specs.declared.rule.Rule.{Rule};
ghost use Rattle.rule_table.specs.FaultRules.{first_rule};
ghost use Rattle.f66_tree.specs.Views.{header_of, line_of};
ghost use Rattle.f66_flow.specs.FlowRules.{breaks_flow, breaks_flow_at, header_breaks_flow};
ghost use Rattle.f66_flow.specs.Under.{lines_under};

use f66_flow::{Flow, Scope, broken_rule, header_rule};
use f66_tree::{Header, Stmt};
use rule_table::Rule;

/// The rule with the smallest number that the statement with the number i breaks, where no earlier one breaks any.
pub fn line_breaks(
    scope: Scope,
    header: &Header,
    flow: &Flow,
    i: usize,
    statement: &Stmt,
) -> Option<Rule>
    requires within { i < length flow.now.labels.statements.now }
    requires earlier { (j : ℕ) (k : Rule) → j < i → breaks_flow_at scope (header_of header.now) (lines_under flow.now) j k ≡ false }
    ensures { result ≡ first_rule (breaks_flow scope (header_of header.now) (lines_under flow.now) i (line_of statement.now)) }
{
    broken_rule(scope, header, flow, i, statement)
}

/// The rule that a unit's header breaks.
pub fn header_breaks(scope: Scope, header: &Header, flow: &Flow) -> Option<Rule>
    ensures { result ≡ first_rule (header_breaks_flow scope (header_of header.now) (lines_under flow.now)) }
{
    header_rule(scope, header, flow)
}
