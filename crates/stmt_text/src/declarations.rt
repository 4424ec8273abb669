// The texts of specification statements and DATA.
ghost use Rattle.std.specs.Prelude.{◌≡◌, ◌∷◌, map};
ghost use Rattle.f66_tree.specs.Syntax.{Common, Dimension, Equivalence, Preset, Typed};
ghost use Rattle.f66_tree.specs.Views.{area_of, declared_of, formula_of, initial_of, preset_of};
ghost use Rattle.stmt_text.specs.Emitting.{Emits};
ghost use Rattle.stmt_text.specs.Texts.{act_text, area_text, areas_text, commas, declared_text, formula_text, group_text, member, preset_text, value_text};

use crate::expressions::{push_formula, push_formulas};
use crate::lists::{push_declarations, push_separator, type_word};
use crate::writer::{StatementText, push, push_all, push_number};
use f66_tree::{Area, Declared, Expr, PresetPart, TypeWord};
use ground::List;

/// Adds a type statement.
pub fn push_typed(out: &mut StatementText, word: TypeWord, list: &[Declared]) -> Option<()>
    ensures { Emits result out.old.items out.new.items (act_text (Typed word (map declared_of list.now))) }
{
    push_all(out, type_word(word))?;
    push_declarations(out, list)
}

/// Adds a DIMENSION.
pub fn push_dimension(out: &mut StatementText, list: &[Declared]) -> Option<()>
    ensures { Emits result out.old.items out.new.items (act_text (Dimension (map declared_of list.now))) }
{
    push_all(out, b"DIMENSION ")?;
    push_declarations(out, list)
}

/// Adds a COMMON.
pub fn push_common(out: &mut StatementText, areas: &[Area]) -> Option<()>
    ensures { Emits result out.old.items out.new.items (act_text (Common (map area_of areas.now))) }
{
    push_all(out, b"COMMON ")?;
    push_areas(out, areas)
}

/// Adds an EQUIVALENCE.
pub fn push_equivalence(out: &mut StatementText, groups: &[List<Expr>]) -> Option<()>
    ensures { Emits result out.old.items out.new.items (act_text (Equivalence (map (λ group. map formula_of group.items) groups.now))) }
{
    push_all(out, b"EQUIVALENCE ")?;
    push_groups(out, groups)
}

/// Adds a DATA.
pub fn push_data(out: &mut StatementText, parts: &[PresetPart]) -> Option<()>
    ensures { Emits result out.old.items out.new.items (act_text (Preset (map preset_of parts.now))) }
{
    push_all(out, b"DATA ")?;
    push_presets(out, parts)
}

/// Places, with commas between them.
fn push_places(out: &mut StatementText, list: &[Expr]) -> Option<()>
    ensures { Emits result out.old.items out.new.items (commas formula_text (map formula_of list.now)) }
{
    push_formulas(out, list)
}

fn push_area(out: &mut StatementText, area: &Area) -> Option<()>
    ensures { Emits result out.old.items out.new.items (area_text (area_of area.now)) }
{
    match &area.name {
        None => {
            push(out, b'/')?;
            push(out, b'/')?;
            push_declarations(out, &area.list)
        }
        Some(name) => {
            push(out, b'/')?;
            push_all(out, name.as_bytes())?;
            push(out, b'/')?;
            push_declarations(out, &area.list)
        }
    }
}

fn push_areas(out: &mut StatementText, list: &[Area]) -> Option<()>
    ensures { Emits result out.old.items out.new.items (areas_text (map area_of list.now)) }
{
    for area in list {
        push_area(out, area)?;
    }
    Some(())
}

fn push_group(out: &mut StatementText, group: &[Expr]) -> Option<()>
    ensures { Emits result out.old.items out.new.items (group_text (map formula_of group.now)) }
{
    push(out, b'(')?;
    push_places(out, group)?;
    push(out, b')')
}

fn push_group_member(out: &mut StatementText, i: usize, group: &[Expr]) -> Option<()>
    ensures { Emits result out.old.items out.new.items (λ k. member i (group_text (map formula_of group.now) k)) }
{
    push_separator(out, i)?;
    push_group(out, group)
}

fn push_groups(out: &mut StatementText, list: &[List<Expr>]) -> Option<()>
    ensures { Emits result out.old.items out.new.items (commas group_text (map (λ group. map formula_of group.items) list.now)) }
{
    for (i, group) in list.iter().enumerate() {
        push_group_member(out, i, group)?;
    }
    Some(())
}

fn push_value(out: &mut StatementText, value: &(u32, Expr)) -> Option<()>
    ensures { Emits result out.old.items out.new.items (value_text (initial_of value.now)) }
{
    if value.0 == 1 {
        return push_formula(out, &value.1);
    }
    push_number(out, u64::from(value.0))?;
    push(out, b'*')?;
    push_formula(out, &value.1)
}

fn push_value_member(out: &mut StatementText, i: usize, value: &(u32, Expr)) -> Option<()>
    ensures { Emits result out.old.items out.new.items (λ k. member i (value_text (initial_of value.now) k)) }
{
    push_separator(out, i)?;
    push_value(out, value)
}

fn push_values(out: &mut StatementText, list: &[(u32, Expr)]) -> Option<()>
    ensures { Emits result out.old.items out.new.items (commas value_text (map initial_of list.now)) }
{
    for (i, value) in list.iter().enumerate() {
        push_value_member(out, i, value)?;
    }
    Some(())
}

fn push_preset(out: &mut StatementText, part: &PresetPart) -> Option<()>
    ensures { Emits result out.old.items out.new.items (preset_text (preset_of part.now)) }
{
    push_places(out, &part.places)?;
    push(out, b'/')?;
    push_values(out, &part.values)?;
    push(out, b'/')
}

fn push_preset_member(out: &mut StatementText, i: usize, part: &PresetPart) -> Option<()>
    ensures { Emits result out.old.items out.new.items (λ k. member i (preset_text (preset_of part.now) k)) }
{
    push_separator(out, i)?;
    push_preset(out, part)
}

fn push_presets(out: &mut StatementText, list: &[PresetPart]) -> Option<()>
    ensures { Emits result out.old.items out.new.items (commas preset_text (map preset_of list.now)) }
{
    for (i, part) in list.iter().enumerate() {
        push_preset_member(out, i, part)?;
    }
    Some(())
}
