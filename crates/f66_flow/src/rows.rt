// The rules, row by row.
ghost use Rattle.std.specs.Prelude.{◌≡◌, ◌<◌, ◌&&◌, ◌||◌, ℕ, length, false, nat_lt};
ghost use Rattle.std.specs.List.{list_any};
ghost use Rattle.f66_tree.specs.Views.{header_of, act_of, line_of};
ghost use Rattle.f66_flow.specs.Acts.{branches, formats_named};
ghost use Rattle.rule_table.specs.declared.rule.Rule.{Rule};
ghost use Rattle.rule_table.specs.FaultRules.{first_rule};
ghost use Rattle.rule_table.specs.Words.{is_some_and};
ghost use Rattle.f66_flow.specs.Acts as acts;
ghost use Rattle.f66_flow.specs.FlowRules as rules;
ghost use Rattle.f66_flow.specs.Innermost.{IsNested};
ghost use Rattle.f66_flow.specs.Ranges.{named, range_ends};
ghost use Rattle.f66_flow.specs.Under.{lines_named, lines_under};

use crate::forms::{
    ends_no_range, is_executable, is_format, is_misplaced, is_specification, is_transfer,
    needs_executable,
};
use crate::ranges::range_end;
use crate::{Flow, Labels, Scope};
use f66_tree::{Header, Stmt, StmtKind};
use rule_table::{Rule, is_below};

fn is_whole(scope: Scope) -> bool
    ensures { result ≡ rules.is_whole scope }
{
    matches!(scope, Scope::Whole)
}

fn is_late(flow: &Flow, i: usize, kind: &StmtKind) -> bool
    ensures { result ≡ rules.is_late (lines_under flow.now) i (act_of kind.now) }
{
    is_specification(kind) && (is_below(i, flow.first) || is_below(i, flow.initial))
}

fn lacks_transfer(flow: &Flow, i: usize, kind: &StmtKind) -> bool
    ensures { result ≡ rules.lacks_transfer (lines_under flow.now) i (act_of kind.now) }
{
    flow.last == Some(i) && !is_transfer(kind)
}

fn breaks_order(scope: Scope, flow: &Flow, i: usize, kind: &StmtKind) -> bool
    ensures { result
        ≡ (rules.is_late (lines_under flow.now) i (act_of kind.now) || (rules.is_whole scope && rules.lacks_transfer (lines_under flow.now) i (act_of kind.now))) }
{
    is_late(flow, i, kind) || is_whole(scope) && lacks_transfer(flow, i, kind)
}

fn has_bad_label(labels: &Labels, i: usize, statement: &Stmt) -> bool
    ensures { result ≡ rules.has_bad_label (lines_named labels.now) i (line_of statement.now) }
{
    match statement.label {
        Some(label) => label == 0 || (label > 99999 || is_below(i, labels.place(label))),
        None => false,
    }
}

fn leads_nowhere(labels: &Labels, label: u32) -> bool
    ensures { result ≡ rules.leads_nowhere (lines_named labels.now) label }
{
    match labels.statement(label) {
        Some(statement) => !is_executable(&statement.kind),
        None => true,
    }
}

fn one_leads_nowhere(labels: &Labels, all: &[u32]) -> bool
    ensures { result ≡ list_any (rules.leads_nowhere (lines_named labels.now)) all.now }
{
    all.iter().any(|label| leads_nowhere(labels, *label))
}

fn names_no_format(labels: &Labels, label: u32) -> bool
    ensures { result ≡ rules.names_no_format (lines_named labels.now) label }
{
    match labels.statement(label) {
        Some(statement) => !is_format(&statement.kind),
        None => true,
    }
}

fn branches_nowhere(labels: &Labels, kind: &StmtKind) -> bool
    ensures { result ≡ list_any (rules.leads_nowhere (lines_named labels.now)) (branches (act_of kind.now)) }
{
    match kind {
        StmtKind::Goto(label) => leads_nowhere(labels, *label),
        StmtKind::Computed(all, _) => one_leads_nowhere(labels, all),
        StmtKind::Sign(_, below, zero, above) => {
            leads_nowhere(labels, *below)
                || (leads_nowhere(labels, *zero) || leads_nowhere(labels, *above))
        }
        StmtKind::When(_, inner) => branches_nowhere(labels, inner),
        _ => false,
    }
}

fn lacks_format(labels: &Labels, kind: &StmtKind) -> bool
    ensures { result ≡ list_any (rules.names_no_format (lines_named labels.now)) (formats_named (act_of kind.now)) }
{
    match kind {
        StmtKind::Read(_, label, _) => names_no_format(labels, *label),
        StmtKind::Write(_, label, _) => names_no_format(labels, *label),
        StmtKind::When(_, inner) => lacks_format(labels, inner),
        _ => false,
    }
}

fn has_no_end(labels: &Labels, kind: &StmtKind) -> bool
    ensures { result ≡ rules.has_no_end (lines_named labels.now) (act_of kind.now) }
{
    match kind {
        StmtKind::Loop(label, _) => leads_nowhere(labels, *label),
        _ => false,
    }
}

fn ends_wrong(labels: &Labels, i: usize, kind: &StmtKind) -> bool
    ensures { result ≡ rules.ends_wrong (lines_named labels.now) i (act_of kind.now) }
{
    match kind {
        StmtKind::Loop(label, _) => {
            !is_above(i, labels.place(*label)) || ends_no_range_at(labels, *label)
        }
        _ => false,
    }
}

/// Whether there is a place, and it is above i.
fn is_above(i: usize, place: Option<usize>) -> bool
    ensures { result ≡ is_some_and (λ p. nat_lt i p) place }
{
    match place {
        Some(place) => i < place,
        None => false,
    }
}

fn ends_no_range_at(labels: &Labels, label: u32) -> bool
    ensures { result ≡ is_some_and (λ s. acts.ends_no_range s.act) (named (lines_named labels.now) label) }
{
    match labels.statement(label) {
        Some(statement) => ends_no_range(&statement.kind),
        None => false,
    }
}

fn overlaps(flow: &Flow, i: usize, kind: &StmtKind) -> bool
    requires within { i < length flow.now.labels.statements.now }
    requires nested { IsNested (range_ends (lines_under flow.now)) i }
    ensures { result ≡ rules.overlaps (lines_under flow.now) i (act_of kind.now) }
{
    match flow.innermost(i) {
        Some(outer) => flow.range_end(outer) < range_end(&flow.labels, kind),
        None => false,
    }
}

fn enters(flow: &Flow, i: usize, label: u32) -> bool
    requires nested { IsNested (range_ends (lines_under flow.now)) i }
    ensures { result ≡ rules.enters (lines_under flow.now) i label }
{
    match flow.labels.place(label) {
        Some(place) => enters_at(flow, i, place),
        None => false,
    }
}

/// Whether a branch from i enters a range at a place.
fn enters_at(flow: &Flow, i: usize, place: usize) -> bool
    requires within { place < length flow.now.labels.statements.now }
    requires nested { IsNested (range_ends (lines_under flow.now)) i }
    ensures { result ≡ rules.enters_at (lines_under flow.now) i place }
{
    match flow.innermost(place) {
        Some(inner) => !flow.holds(inner, i),
        None => false,
    }
}

fn one_enters(flow: &Flow, i: usize, all: &[u32]) -> bool
    requires nested { IsNested (range_ends (lines_under flow.now)) i }
    ensures { result ≡ list_any (rules.enters (lines_under flow.now) i) all.now }
{
    for label in all {
        if enters(flow, i, *label) {
            return true;
        }
    }
    false
}

fn branches_into(flow: &Flow, i: usize, kind: &StmtKind) -> bool
    requires nested { IsNested (range_ends (lines_under flow.now)) i }
    ensures { result ≡ list_any (rules.enters (lines_under flow.now) i) (branches (act_of kind.now)) }
{
    match kind {
        StmtKind::Goto(label) => enters(flow, i, *label),
        StmtKind::Computed(all, _) => one_enters(flow, i, all),
        StmtKind::Sign(_, below, zero, above) => {
            enters(flow, i, *below) || (enters(flow, i, *zero) || enters(flow, i, *above))
        }
        StmtKind::When(_, inner) => branches_into(flow, i, inner),
        _ => false,
    }
}

fn nests_wrong(flow: &Flow, i: usize, kind: &StmtKind) -> bool
    requires within { i < length flow.now.labels.statements.now }
    requires nested { IsNested (range_ends (lines_under flow.now)) i }
    ensures { result ≡ rules.nests_wrong (lines_under flow.now) i (act_of kind.now) }
{
    ends_wrong(&flow.labels, i, kind) || (overlaps(flow, i, kind) || branches_into(flow, i, kind))
}

fn breaks_nesting(scope: Scope, header: &Header, flow: &Flow, i: usize, kind: &StmtKind) -> bool
    requires within { i < length flow.now.labels.statements.now }
    requires earlier { (j : ℕ) (k : Rule) → j < i → rules.breaks_flow_at scope (header_of header.now) (lines_under flow.now) j k ≡ false }
    ensures { result ≡ (rules.is_whole scope && rules.nests_wrong (lines_under flow.now) i (act_of kind.now)) }
{
    match scope {
        Scope::Whole => nests_wrong(flow, i, kind),
        Scope::Part => false,
    }
}

/// The rule with the smallest number of those on order, labels and DO ranges that the statement with the number i breaks,
/// where no earlier one breaks any.
pub fn broken_rule(
    scope: Scope,
    header: &Header,
    flow: &Flow,
    i: usize,
    statement: &Stmt,
) -> Option<Rule>
    requires within { i < length flow.now.labels.statements.now }
    requires earlier { (j : ℕ) (k : Rule) → j < i → rules.breaks_flow_at scope (header_of header.now) (lines_under flow.now) j k ≡ false }
    ensures { result ≡ first_rule (rules.breaks_flow scope (header_of header.now) (lines_under flow.now) i (line_of statement.now)) }
{
    let kind = &statement.kind;
    if is_misplaced(header, kind) || breaks_order(scope, flow, i, kind) {
        return Some(Rule::Syntax);
    }
    if has_wrong_label(scope, &flow.labels, i, statement) {
        return Some(Rule::BadLabel);
    }
    if breaks_nesting(scope, header, flow, i, kind) {
        return Some(Rule::DoNesting);
    }
    None
}

fn has_wrong_label(scope: Scope, labels: &Labels, i: usize, statement: &Stmt) -> bool
    ensures { result ≡ rules.has_wrong_label scope (lines_named labels.now) i (line_of statement.now) }
{
    let kind = &statement.kind;
    has_bad_label(labels, i, statement)
        || (branches_nowhere(labels, kind) || lacks_format(labels, kind))
        || is_whole(scope) && has_no_end(labels, kind)
}

/// The rule of these that a unit's header breaks: a unit without an executable statement (X3.9-1966, section 9.1.1).
pub fn header_rule(scope: Scope, header: &Header, flow: &Flow) -> Option<Rule>
    ensures { result ≡ first_rule (rules.header_breaks_flow scope (header_of header.now) (lines_under flow.now)) }
{
    if needs_executable(header) && (is_whole(scope) && flow.first.is_none()) {
        return Some(Rule::Syntax);
    }
    None
}
