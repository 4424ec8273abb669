// What the header and a part of a unit break.
ghost use Rattle.std.specs.Prelude.{◌≡◌, ◌+◌, ◌<◌, ◌^◌, not, length, IfOk};
ghost use Rattle.rule_table.specs.FaultRules.{first_rule};
ghost use Rattle.f66_names.specs.ActViews.{acts_of};
ghost use Rattle.f66_names.specs.DeclarationViews.{context_in, acts_in};
ghost use Rattle.f66_tree.specs.Syntax.{DataUnit};
ghost use Rattle.f66_tree.specs.Views.{header_of, act_of};
ghost use Rattle.f66_flow.specs.Acts.{is_misplaced as is_misplaced_act};
ghost use Rattle.rat_check.specs.Rules.{breaks_length, breaks_unit_header, is_executed, is_misplaced_form, returns_wrong, is_late_form, is_own_label, finds_labels, breaks_own, break_names, broken_rule as rule_broken};
ghost use Rattle.rat_check.specs.Said.{said_by};
ghost use Rattle.rat_check.specs.FormViews.{form_of};
ghost use Rattle.rat_check.specs.PartViews.{part_of, before_of, whole_by};
ghost use Rattle.rat_check.specs.Survey.{is_among};

use crate::long_texts::{is_long_form, is_long_header};
use crate::{Before, Form, LabelSet, Part};
use f66_flow::is_specification;
use f66_names::{Declarations, Saying, Use};
use f66_tree::{Header, StmtKind};
use rule_table::{Rule, lesser};
use std::alloc::{AllocError, Global};
use unit_rules::{UnitNames, header_rule, saying_rule};

/// Of the rules that the header breaks, that with the smallest number.
pub fn unit_header_rule(
    alloc: Global,
    declarations: &Declarations,
) -> Result<Option<Rule>, AllocError>
    ensures { IfOk result (λ o. o ≡ first_rule (breaks_unit_header (context_in declarations.now))) }
{
    let of_fortran = header_rule(alloc, declarations)?;
    let of_length = length_rule(declarations.header);
    Ok(lesser(of_fortran, of_length))
}

fn length_rule(header: &Header) -> Option<Rule>
    ensures { result ≡ first_rule (breaks_length (header_of header.now)) }
{
    if is_long_header(header) {
        return Some(Rule::LongText);
    }
    None
}

/// Of the rules that a part, which says this of names, breaks, that with the smallest number. A list of uses serves one part after
/// another.
pub fn broken_rule<'a>(
    alloc: Global,
    names: &UnitNames,
    formats: &LabelSet,
    before: &Before,
    part: &Part,
    sayings: &[Saying<'a>],
    uses: &mut Vec<Use<'a>>,
) -> Result<Option<Rule>, AllocError>
    requires said { acts_of sayings.now ≡ said_by (context_in names.now.declarations).header (form_of part.now.form) }
    requires within { before.now.said + length sayings.now < 2 ^ 64 }
    ensures { IfOk result (λ o. o ≡ rule_broken (whole_by names.now formats.now) (before_of before.now) (part_of part.now)) }
{
    let own = own_rule(names.declarations.header, formats, before, part);
    let by_names = names_rule(alloc, names, before.said, sayings, uses)?;
    Ok(lesser(own, by_names))
}

/// The rules of Ratfor itself.
fn own_rule(header: &Header, formats: &LabelSet, before: &Before, part: &Part) -> Option<Rule>
    ensures { result ≡ first_rule (breaks_own (header_of header.now) (is_among formats.now) (before_of before.now) (part_of part.now)) }
{
    if !part.form.is_ratfor()
        || is_misplaced(header, part.label, part.form)
        || is_late(before.begun, part.form)
    {
        return Some(Rule::Syntax);
    }
    if returns_wrong(header, part.form) {
        return Some(Rule::TypeClash);
    }
    if !is_own_label(&before.labels, part.label)
        || !finds_labels(formats, part.reached, part.form)
    {
        return Some(Rule::BadLabel);
    }
    if !part.inside {
        return Some(Rule::BadBreak);
    }
    if part.form.is_second_default() {
        return Some(Rule::DuplicateCase);
    }
    if is_long_form(part.form) {
        return Some(Rule::LongText);
    }
    None
}

/// The rules of names, types, counts, constants and stores, where the first saying is the n-th of the unit.
fn names_rule<'a>(
    alloc: Global,
    names: &UnitNames,
    n: usize,
    sayings: &[Saying<'a>],
    uses: &mut Vec<Use<'a>>,
) -> Result<Option<Rule>, AllocError>
    requires { n + length sayings.now < 2 ^ 64 }
    ensures { IfOk result
        (λ o. o ≡ first_rule (break_names (context_in names.now.declarations) (acts_in names.now.declarations) n (acts_of sayings.now))) }
{
    let mut broken = None;
    for (i, saying) in sayings.iter().enumerate() {
        let rule = saying_rule(alloc, names, n + i, saying, uses)?;
        broken = lesser(broken, rule);
    }
    Ok(broken)
}

/// Whether BLOCK DATA does not have it (X3.9-1966, section 8.5).
fn is_misplaced(header: &Header, label: Option<u32>, form: Form) -> bool
    ensures { result ≡ is_misplaced_form (header_of header.now) label (form_of form.entry) }
{
    match header {
        Header::Block => is_executed(label, form),
        Header::Main | Header::Sub(_, _) | Header::Func(_, _, _) => false,
    }
}

fn is_executed(label: Option<u32>, form: Form) -> bool
    ensures { result ≡ is_executed label (form_of form.entry) }
{
    match form {
        Form::Bare => label.is_some(),
        Form::Statement(kind) => !stands_in_block(kind),
        _ => true,
    }
}

/// Whether BLOCK DATA may have a statement.
fn stands_in_block(kind: &StmtKind) -> bool
    ensures { not result ≡ is_misplaced_act DataUnit (act_of kind.now) }
{
    matches!(
        kind,
        StmtKind::Typed(_, _)
            | StmtKind::Dimension(_)
            | StmtKind::Common(_)
            | StmtKind::Equivalence(_)
            | StmtKind::Preset(_)
    )
}

/// Whether a value is returned outside a function.
fn returns_wrong(header: &Header, form: Form) -> bool
    ensures { result ≡ returns_wrong (header_of header.now) (form_of form.entry) }
{
    match header {
        Header::Func(_, _, _) => false,
        Header::Main | Header::Sub(_, _) | Header::Block => returns_value(form),
    }
}

fn returns_value(form: Form) -> bool
    ensures { result ≡ returns_wrong DataUnit (form_of form.entry) }
{
    match form {
        Form::ReturnHead(value) => value.is_some(),
        _ => false,
    }
}

/// Whether it is a specification behind an executable statement.
fn is_late(begun: bool, form: Form) -> bool
    ensures { result ≡ is_late_form begun (form_of form.entry) }
{
    match form {
        Form::Statement(kind) => is_specification(kind) && begun,
        _ => false,
    }
}

fn is_own_label(before: &LabelSet, label: Option<u32>) -> bool
    ensures { result ≡ is_own_label (is_among before.now) label }
{
    match label {
        None => true,
        Some(label) => 1 <= label && label <= 99_999 && !before.contains(label),
    }
}

fn finds_labels(formats: &LabelSet, reached: bool, form: Form) -> bool
    ensures { result ≡ finds_labels (is_among formats.now) reached (form_of form.entry) }
{
    match form {
        Form::Statement(StmtKind::Read(_, label, _)) => formats.contains(*label),
        Form::Statement(StmtKind::Write(_, label, _)) => formats.contains(*label),
        _ => reached,
    }
}
