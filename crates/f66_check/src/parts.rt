// The first part of a unit that breaks a rule.
ghost use Rattle.std.specs.Prelude.{◌≡◌, ◌<◌, ◌≤◌, ℕ, false, length, IfOk, IfSome, MatchOption};
ghost use Rattle.rule_table.specs.declared.rule.Rule.{Rule};
ghost use Rattle.rule_table.specs.First.{IsFirst, IsClean};
ghost use Rattle.rule_table.specs.FaultRules.{rule_number, first_rule};
ghost use Rattle.f66_tree.specs.Views.{line_of};
ghost use Rattle.f66_names.specs.DeclarationViews.{context_in, acts_in};
ghost use Rattle.f66_flow.specs.FlowRules.{breaks_flow_at};
ghost use Rattle.f66_flow.specs.Under.{lines_under};
ghost use Rattle.f66_check.specs.UnitChecks.{breaks_statement, breaks_piece};

use f66_flow::{Flow, Scope};
use f66_names::Use;
use f66_tree::Stmt;
use rule_table::{Rule, lesser};
use std::alloc::{AllocError, Global};
use unit_rules::UnitNames;

/// The rule with the smallest number that the statement with the number i breaks, where no earlier one breaks a rule of
/// order, labels or DO ranges.
fn broken_rule<'a>(
    alloc: Global,
    scope: Scope,
    flow: &Flow,
    names: &UnitNames,
    i: usize,
    statement: &'a Stmt,
    uses: &mut Vec<Use<'a>>,
) -> Result<Option<Rule>, AllocError>
    requires within { i < length flow.now.labels.statements.now }
    requires earlier { (j : ℕ) (k : Rule) → j < i → breaks_flow_at scope (context_in names.now.declarations).header (lines_under flow.now) j k ≡ false }
    ensures { IfOk result
        (λ o. o ≡ first_rule (breaks_statement scope (context_in names.now.declarations) (acts_in names.now.declarations) (lines_under flow.now) i (line_of statement.now))) }
{
    let by_flow = f66_flow::broken_rule(scope, names.declarations.header, flow, i, statement);
    let by_name = unit_rules::broken_rule(alloc, names, i, &statement.kind, uses)?;
    Ok(lesser(by_flow, by_name))
}

/// The rule with the smallest number that the header breaks.
fn header_rule(
    alloc: Global,
    scope: Scope,
    flow: &Flow,
    names: &UnitNames,
) -> Result<Option<Rule>, AllocError>
    ensures { IfOk result
        (λ o. o ≡ first_rule (breaks_piece scope (context_in names.now.declarations) (acts_in names.now.declarations) (lines_under flow.now) 0)) }
{
    let by_flow = f66_flow::header_rule(scope, names.declarations.header, flow);
    let by_name = unit_rules::header_rule(alloc, &names.declarations)?;
    Ok(lesser(by_flow, by_name))
}

/// The number of the first part that breaks a rule, and the rule.
pub fn first_broken(
    alloc: Global,
    scope: Scope,
    flow: &Flow,
    names: &UnitNames,
) -> Result<Option<(usize, Rule)>, AllocError>
    ensures within { IfOk result (λ o. IfSome o (λ r. r.0 ≤ length flow.now.labels.statements.now)) }
    ensures first { IfOk result
        (λ o. MatchOption o (IsClean (breaks_piece scope (context_in names.now.declarations) (acts_in names.now.declarations) (lines_under flow.now)))
        (λ r. IsFirst rule_number (breaks_piece scope (context_in names.now.declarations) (acts_in names.now.declarations) (lines_under flow.now)) r.0 r.1)) }
{
    let of_header = header_rule(alloc, scope, flow, names)?;
    if let Some(rule) = of_header {
        return Ok(Some((0, rule)));
    }
    let mut uses = Vec::new(alloc);
    for (i, statement) in flow.labels.statements.iter().enumerate() {
        let broken = broken_rule(alloc, scope, flow, names, i, statement, &mut uses)?;
        if let Some(rule) = broken {
            return Ok(Some((i + 1, rule)));
        }
    }
    Ok(None)
}
