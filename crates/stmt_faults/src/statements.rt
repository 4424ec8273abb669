// The numbers and names of statements and headers.
ghost use Rattle.std.specs.Prelude.{◌≡◌, map};
ghost use Rattle.std.specs.List.{list_any};
ghost use Rattle.f66_tree.specs.Views.{act_of, area_of, formula_of, header_of, initial_of, preset_of};
ghost use Rattle.stmt_reader.specs.Faults.{act_has, area_has, formula_has, header_has_name, name_has, preset_has, too_long, value_has};
ghost use Rattle.stmt_faults.specs.Asking.{asked_of};

use crate::asking::Asked;
use crate::expressions::{declarations_have, entries_have, formula_has, formulas_have, par_has};
use f66_tree::{Area, Counting, Expr, Header, Name, PresetPart, StmtKind};
use ground::List;

/// Whether a number or name of a statement is such a one.
pub fn act_has(ask: Asked, kind: &StmtKind) -> bool
    ensures { result ≡ act_has (asked_of ask) (act_of kind.now) }
{
    match kind {
        StmtKind::Assign(left, right) => formula_has(ask, left) || formula_has(ask, right),
        StmtKind::Goto(label) => ask.of_count(*label),
        StmtKind::Computed(labels, index) => counts_have(ask, labels) || ask.of_name(index),
        StmtKind::Sign(e, below, zero, above) => {
            formula_has(ask, e)
                || ask.of_count(*below)
                || ask.of_count(*zero)
                || ask.of_count(*above)
        }
        StmtKind::When(e, inner) => formula_has(ask, e) || act_has(ask, inner),
        StmtKind::Loop(label, counting) => {
            let Counting {
                variable,
                first,
                last,
                step,
            } = &**counting;
            ask.of_count(*label)
                || ask.of_name(variable)
                || par_has(ask, first)
                || par_has(ask, last)
                || par_has(ask, step)
        }
        StmtKind::Invoke(name, list) => ask.of_name(name) || formulas_have(ask, list),
        StmtKind::Read(unit, format, list) => {
            par_has(ask, unit) || ask.of_count(*format) || entries_have(ask, list)
        }
        StmtKind::Write(unit, format, list) => {
            par_has(ask, unit) || ask.of_count(*format) || entries_have(ask, list)
        }
        StmtKind::Typed(_, list) => declarations_have(ask, list),
        StmtKind::Dimension(list) => declarations_have(ask, list),
        StmtKind::Common(areas) => areas_have(ask, areas),
        StmtKind::Equivalence(groups) => groups_have(ask, groups),
        StmtKind::Preset(parts) => presets_have(ask, parts),
        StmtKind::Continue => false,
        StmtKind::Stop(_) => false,
        StmtKind::Return => false,
        StmtKind::Format(_) => false,
    }
}

fn counts_have(ask: Asked, list: &[u32]) -> bool
    ensures { result ≡ list_any (asked_of ask).number list.now }
{
    for n in list {
        if ask.of_count(*n) {
            return true;
        }
    }
    false
}

fn area_has(ask: Asked, area: &Area) -> bool
    ensures { result ≡ area_has (asked_of ask) (area_of area.now) }
{
    let named = match &area.name {
        None => false,
        Some(name) => ask.of_name(name),
    };
    named || declarations_have(ask, &area.list)
}

fn areas_have(ask: Asked, list: &[Area]) -> bool
    ensures { result ≡ list_any (area_has (asked_of ask)) (map area_of list.now) }
{
    for area in list {
        if area_has(ask, area) {
            return true;
        }
    }
    false
}

fn places_have(ask: Asked, list: &[Expr]) -> bool
    ensures { result ≡ list_any (formula_has (asked_of ask)) (map formula_of list.now) }
{
    for e in list {
        if formula_has(ask, e) {
            return true;
        }
    }
    false
}

fn groups_have(ask: Asked, list: &[List<Expr>]) -> bool
    ensures { result ≡ list_any (list_any (formula_has (asked_of ask))) (map (λ group. map formula_of group.items) list.now) }
{
    for group in list {
        if places_have(ask, group) {
            return true;
        }
    }
    false
}

fn values_have(ask: Asked, list: &[(u32, Expr)]) -> bool
    ensures { result ≡ list_any (value_has (asked_of ask)) (map initial_of list.now) }
{
    for (count, value) in list {
        if ask.of_count(*count) || formula_has(ask, value) {
            return true;
        }
    }
    false
}

fn preset_has(ask: Asked, part: &PresetPart) -> bool
    ensures { result ≡ preset_has (asked_of ask) (preset_of part.now) }
{
    places_have(ask, &part.places) || values_have(ask, &part.values)
}

fn presets_have(ask: Asked, list: &[PresetPart]) -> bool
    ensures { result ≡ list_any (preset_has (asked_of ask)) (map preset_of list.now) }
{
    for part in list {
        if preset_has(ask, part) {
            return true;
        }
    }
    false
}

fn names_have(list: &[Name]) -> bool
    ensures { result ≡ list_any too_long.name list.now }
{
    for name in list {
        if Asked::TooLong.of_name(name) {
            return true;
        }
    }
    false
}

/// Whether a header has a name that is too long.
pub fn header_has_long_name(header: &Header) -> bool
    ensures { result ≡ header_has_name too_long.name (header_of header.now) }
{
    match header {
        Header::Main => false,
        Header::Sub(name, dummies) => Asked::TooLong.of_name(name) || names_have(dummies),
        Header::Func(_, name, dummies) => Asked::TooLong.of_name(name) || names_have(dummies),
        Header::Block => false,
    }
}
