// Whether trees are those of statements of the grammar, CALL, COMMON, EQUIVALENCE and DATA among them.
ghost use Rattle.std.specs.Prelude.{◌≡◌, map};
ghost use Rattle.std.specs.List.{list_all};
ghost use Rattle.f66_tree.specs.Views.{formula_of, formulas_of, area_of, initial_of, preset_of, act_of};
ghost use Rattle.f66_tree.specs.Built.{is_constant};
ghost use Rattle.f66_names.specs.Shapes.{is_place as is_place_form};
ghost use Rattle.unit_rules.specs.Forms.{is_passed_form, are_passed_forms, has_all, is_block_name, is_area, is_group, is_signed, is_datum, is_value, is_part, has_form};

use f66_names::{are_declared, has_shape, is_name, is_place, is_printed, stands};
use f66_tree::{Area, Expr, Name, PresetPart, StmtKind};
use ground::List;

const GREATEST: i64 = 2_147_483_647;

/// Whether a statement is the tree of a text of the grammar (X3.9-1966, section 7).
pub fn has_form(kind: &StmtKind) -> bool
    ensures { result ≡ has_form (act_of kind.now) }
{
    match kind {
        StmtKind::Invoke(name, list) => is_name(name) && are_passed_forms(list),
        StmtKind::When(_, inner) => has_shape(kind) && has_form(inner),
        StmtKind::Common(areas) => are_areas(areas),
        StmtKind::Equivalence(groups) => are_groups(groups),
        StmtKind::Preset(parts) => are_parts(parts),
        _ => has_shape(kind),
    }
}

/// Whether it is an expression, or a Hollerith text of one character that a card may have (sections 5.1.1.6 and 8.4.2).
fn is_passed_form(e: &Expr) -> bool
    ensures { result ≡ is_passed_form (formula_of e.now) }
{
    match e {
        Expr::Letter(letter) => is_printed(*letter),
        _ => stands(0, e),
    }
}

fn are_passed_forms(list: &[Expr]) -> bool
    ensures { result ≡ are_passed_forms (formulas_of list.now) }
{
    for e in list {
        if !is_passed_form(e) {
            return false;
        }
    }
    true
}

fn is_block_name(name: &Option<Name>) -> bool
    ensures { result ≡ is_block_name name.now }
{
    match name {
        Some(name) => is_name(name),
        None => true,
    }
}

fn is_area(area: &Area) -> bool
    ensures { result ≡ is_area (area_of area.now) }
{
    is_block_name(&area.name) && are_declared(&area.list)
}

fn are_all_areas(areas: &[Area]) -> bool
    ensures { result ≡ list_all (λ a. is_area (area_of a)) areas.now }
{
    areas.iter().all(|area| is_area(area))
}

/// Whether there is a common block or more, each with a name or more (section 7.2.1.3).
#[tactic(auto, using(crate::proofs::ListLemmas::list_steps))]
fn are_areas(areas: &[Area]) -> bool
    ensures { result ≡ has_all is_area (map area_of areas.now) }
{
    !areas.is_empty() && are_all_areas(areas)
}

fn are_all_places(list: &[Expr]) -> bool
    ensures { result ≡ list_all (λ e. is_place_form (formula_of e)) list.now }
{
    list.iter().all(|e| is_place(e))
}

#[tactic(auto, using(crate::proofs::ListLemmas::list_steps))]
fn are_places(list: &[Expr]) -> bool
    ensures { result ≡ has_all is_place_form (map formula_of list.now) }
{
    !list.is_empty() && are_all_places(list)
}

/// Whether a group has two members or more (section 7.2.1.4).
#[tactic(auto, using(crate::proofs::ListLemmas::list_steps))]
fn is_group(group: &[Expr]) -> bool
    ensures { result ≡ is_group (map formula_of group.now) }
{
    group.len() > 1 && are_all_places(group)
}

fn are_all_groups(groups: &[List<Expr>]) -> bool
    ensures { result ≡ list_all (λ group. is_group (map formula_of group.items)) groups.now }
{
    groups.iter().all(|group| is_group(group))
}

#[tactic(auto, using(crate::proofs::ListLemmas::list_steps))]
fn are_groups(groups: &[List<Expr>]) -> bool
    ensures { result ≡ has_all is_group (map (λ group. map formula_of group.items) groups.now) }
{
    !groups.is_empty() && are_all_groups(groups)
}

fn is_constant(value: i64) -> bool
    ensures { result ≡ is_constant value }
{
    0 <= value && value <= GREATEST
}

fn is_signed(e: &Expr) -> bool
    ensures { result ≡ is_signed (formula_of e.now) }
{
    match e {
        Expr::Int(value) => is_constant(*value),
        _ => false,
    }
}

/// Whether an expression is a constant of DATA (section 7.2.2).
fn is_datum(e: &Expr) -> bool
    ensures { result ≡ is_datum (formula_of e.now) }
{
    match e {
        Expr::Int(value) => is_constant(*value),
        Expr::Plus(a) => is_signed(a),
        Expr::Minus(a) => is_signed(a),
        Expr::Truth(_) => true,
        Expr::Letter(letter) => is_printed(*letter),
        _ => false,
    }
}

fn is_value(value: &(u32, Expr)) -> bool
    ensures { result ≡ is_value (initial_of value.now) }
{
    value.0 <= 2_147_483_647 && is_datum(&value.1)
}

fn are_all_values(values: &[(u32, Expr)]) -> bool
    ensures { result ≡ list_all (λ v. is_value (initial_of v)) values.now }
{
    values.iter().all(|value| is_value(value))
}

#[tactic(auto, using(crate::proofs::ListLemmas::list_steps))]
fn are_values(values: &[(u32, Expr)]) -> bool
    ensures { result ≡ has_all is_value (map initial_of values.now) }
{
    !values.is_empty() && are_all_values(values)
}

fn is_part(part: &PresetPart) -> bool
    ensures { result ≡ is_part (preset_of part.now) }
{
    are_places(&part.places) && are_values(&part.values)
}

fn are_all_parts(parts: &[PresetPart]) -> bool
    ensures { result ≡ list_all (λ p. is_part (preset_of p)) parts.now }
{
    parts.iter().all(|part| is_part(part))
}

/// Whether there is a part or more, each of places and values (section 7.2.2).
#[tactic(auto, using(crate::proofs::ListLemmas::list_steps))]
fn are_parts(parts: &[PresetPart]) -> bool
    ensures { result ≡ has_all is_part (map preset_of parts.now) }
{
    !parts.is_empty() && are_all_parts(parts)
}
