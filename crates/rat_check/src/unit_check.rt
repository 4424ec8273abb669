// The check of a unit.
ghost use Rattle.std.specs.Prelude.{◌≡◌, [], IfOk, OnOk};
ghost use Rattle.f66_tree.specs.Views.{header_of};
ghost use Rattle.rat_tree.specs.Views.{commands, rat_routine_of};
ghost use Rattle.f66_names.specs.ActViews.{acts_of};
ghost use Rattle.f66_names.specs.DeclarationViews.{context_in, acts_in};
ghost use Rattle.rat_check.specs.Parts.{unit_parts, no_label};
ghost use Rattle.rat_check.specs.Said.{said_in};
ghost use Rattle.rat_check.specs.Rules.{nothing_before};
ghost use Rattle.rat_check.specs.FirstFault.{Tells, format_label as label_of_format, with_formats, first_broken, fault_of_parts, unit_fault};
ghost use Rattle.rat_check.specs.FormViews.{form_of};
ghost use Rattle.rat_check.specs.PartViews.{parts_seen, whole_by};
ghost use Rattle.rat_check.specs.Survey.{is_among, adding_if, own_labels};

use crate::{
    Around, Before, Form, LabelSet, Part, Survey, add_form, broken_rule, sayings_into,
    unit_header_rule, visit_list,
};
use f66_names::Saying;
use f66_tree::{Header, StmtKind};
use ground::{List, Place, Refusal};
use rat_tree::{RatStmt, RatUnit};
use std::alloc::{AllocError, Global};
use unit_rules::{UnitNames, unit_names_of};

/// Checks a unit of any kind, and gives the labels of its statements, each once. Faults 9 to 18, 26, 27 and 30.
// What names mean is known when all parts are, so these are noted first.
pub fn check(alloc: Global, unit: &RatUnit) -> Result<List<u32>, Refusal>
    ensures fault { Tells result (unit_fault (rat_routine_of unit.now)) }
    ensures labels { IfOk result (λ labels. labels.items ≡ own_labels (unit_parts (commands unit.now.body.items)) []) }
{
    let parts = parts_of(alloc, &unit.body)?;
    check_with(alloc, unit, &parts)
}

/// The same of a unit of which the parts are known.
pub fn check_with<'a>(
    alloc: Global,
    unit: &'a RatUnit,
    parts: &[Part<'a>],
) -> Result<List<u32>, Refusal>
    requires { parts_seen parts.now ≡ unit_parts (commands unit.now.body.items) }
    ensures fault { Tells result (unit_fault (rat_routine_of unit.now)) }
    ensures labels { IfOk result (λ labels. labels.items ≡ own_labels (unit_parts (commands unit.now.body.items)) []) }
{
    let sayings = sayings_in(alloc, &unit.header, parts)?;
    let names = unit_names_of(alloc, &unit.header, &sayings)?;
    check_rules(alloc, &names, unit.place, parts)
}

/// The labels of a unit's statements, each once.
pub fn labels_of(alloc: Global, body: &[RatStmt]) -> Result<List<u32>, AllocError>
    ensures { IfOk result (λ labels. labels.items ≡ own_labels (unit_parts (commands body.now)) []) }
{
    let parts = parts_of(alloc, body)?;
    let labels = labels_in(alloc, &parts)?;
    labels.into_list(alloc)
}

fn labels_in(alloc: Global, parts: &[Part]) -> Result<LabelSet, AllocError>
    ensures { IfOk result (λ labels. labels ≡ own_labels (parts_seen parts.now) []) }
{
    let mut labels = LabelSet::new(alloc);
    for part in parts {
        labels.insert_if(part.label)?;
    }
    Ok(labels)
}

/// Checks a unit at this place of these parts by the rules.
fn check_rules(
    alloc: Global,
    names: &UnitNames,
    place: Place,
    parts: &[Part],
) -> Result<List<u32>, Refusal>
    requires { said_in (context_in names.now.declarations).header (parts_seen parts.now) ≡ acts_in names.now.declarations }
    ensures fault { Tells result (fault_of_parts (context_in names.now.declarations).header place (parts_seen parts.now)) }
    ensures labels { IfOk result (λ labels. labels.items ≡ own_labels (parts_seen parts.now) []) }
{
    let of_header = unit_header_rule(alloc, &names.declarations)?;
    if let Some(rule) = of_header {
        return Err(Refusal::Fault(rule.fault(place)));
    }
    let formats = formats_in(alloc, parts)?;
    check_parts(alloc, names, &formats, parts)
}

/// What the statements of a unit with this header say of names, in reading order.
pub fn sayings<'a>(
    alloc: Global,
    header: &'a Header,
    body: &'a [RatStmt],
) -> Result<Vec<Saying<'a>>, AllocError>
    ensures { IfOk result (λ v. acts_of v.items ≡ said_in (header_of header.now) (unit_parts (commands body.now))) }
{
    let parts = parts_of(alloc, body)?;
    sayings_in(alloc, header, &parts)
}

/// The parts of a unit with these statements, in reading order.
pub fn parts_of(alloc: Global, body: &[RatStmt]) -> Result<Vec<Part>, AllocError>
    ensures { IfOk result (λ parts. parts_seen parts.items ≡ unit_parts (commands body.now)) }
{
    // Most parts are statements of the unit's own list.
    let mut survey = Survey::with_room(alloc, body.len())?;
    visit_list(body, &Around::Outside, &mut survey)?;
    Ok(survey.parts)
}

/// What the parts say of names.
fn sayings_in<'a>(
    alloc: Global,
    header: &'a Header,
    parts: &[Part<'a>],
) -> Result<Vec<Saying<'a>>, AllocError>
    ensures { IfOk result (λ v. acts_of v.items ≡ said_in (header_of header.now) (parts_seen parts.now)) }
{
    // Most parts say one thing.
    let mut sayings = Vec::with_capacity(alloc, parts.len())?;
    for part in parts {
        add_form(header, part.form, &mut sayings)?;
    }
    Ok(sayings)
}

/// The labels of the formats, which may stand behind the statements that name them.
fn formats_in(alloc: Global, parts: &[Part]) -> Result<LabelSet, AllocError>
    ensures { IfOk result (λ formats. is_among formats ≡ with_formats (parts_seen parts.now) no_label) }
{
    let mut formats = LabelSet::new(alloc);
    for part in parts {
        add_format(part, &mut formats)?;
    }
    Ok(formats)
}

fn add_format(part: &Part, formats: &mut LabelSet) -> Result<(), AllocError>
    ensures { OnOk result (formats.new ≡ adding_if (label_of_format part.now.label (form_of part.now.form)) formats.old) }
{
    let Some(label) = part.label else {
        return Ok(());
    };
    match part.form {
        Form::Statement(StmtKind::Format(_)) => formats.insert(label),
        _ => Ok(()),
    }
}

/// The labels of the parts, or the first part that breaks a rule.
fn check_parts(
    alloc: Global,
    names: &UnitNames,
    formats: &LabelSet,
    parts: &[Part],
) -> Result<List<u32>, Refusal>
    requires { said_in (context_in names.now.declarations).header (parts_seen parts.now) ≡ acts_in names.now.declarations }
    ensures fault { Tells result (first_broken (whole_by names.now formats.now) nothing_before (parts_seen parts.now)) }
    ensures labels { IfOk result (λ labels. labels.items ≡ own_labels (parts_seen parts.now) []) }
{
    let mut before = Before::new(alloc);
    let _said = names.declarations.sayings.len();
    let mut sayings = Vec::new(alloc);
    let mut uses = Vec::new(alloc);
    for part in parts {
        sayings_into(names.declarations.header, part.form, &mut sayings)?;
        let broken = broken_rule(alloc, names, formats, &before, part, &sayings, &mut uses)?;
        if let Some(rule) = broken {
            return Err(Refusal::Fault(rule.fault(part.place)));
        }
        before.add(part, sayings.len())?;
    }
    Ok(before.labels.into_list(alloc)?)
}
