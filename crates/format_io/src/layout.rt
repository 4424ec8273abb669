// From the fields of a format to its flat code.
ghost use Rattle.std.specs.Prelude.{◌≡◌, ◌≤◌, ◌+◌, [], ◌∷◌, ◌++◌, map, length, OnOk, IfOk, false, ◌||◌, if◌then◌else◌};
ghost use Rattle.f66_tree.specs.Fields.{steps, has_item, Chars};
ghost use Rattle.f66_tree.specs.Views.{fields_of};
ghost use Rattle.format_io.specs.Places.{size, code, depth, plan_code, step_of, Once, Enter, Leave, IsPlanOf};
ghost use Rattle.format_io.specs.OneField.{one, is_group};

use crate::code::{Laid, Op, Piece};
use crate::format::Plan;
use f66_tree::{EditKind, Field};
use ground::{List, Memory, Text};
use std::alloc::{AllocError, Global};

/// The plan of a format whose groups nest at most two deep.
pub fn plan(alloc: Global, fields: &List<Field>) -> Result<Plan, Memory>
    requires shallow { depth (fields_of fields.now.items) ≤ 2 }
    ensures same { IfOk result (λ p. p ≡ fields_of fields.now.items) }
{
    let laid = lay(alloc, fields)?;
    Ok(Plan { laid })
}

/// The code of a format whose groups nest at most two deep.
fn lay(alloc: Global, fields: &List<Field>) -> Result<Laid, AllocError>
    requires { depth (fields_of fields.now.items) ≤ 2 }
    ensures { IfOk result (IsPlanOf (fields_of fields.now.items)) }
{
    let mut ops = Vec::new(alloc);
    let mut start: usize = 0;
    let mut cycles = false;
    for field in fields {
        start = place_after(field, start, ops.len());
        cycles = cycles_after(field, cycles);
        emit_top(alloc, &mut ops, field)?;
    }
    Ok(Laid { ops, start, cycles })
}

/// Where control goes back to, once a field at this place has come.
fn place_after(field: &Field, found: usize, pc: usize) -> usize
    ensures { result ≡ (if is_group field.now then pc else found) }
{
    match field {
        Field::Group(_, _) => pc,
        _ => found,
    }
}

/// Whether an edit from there on takes an item.
fn cycles_after(field: &Field, found: bool) -> bool
    ensures { result ≡ ((if is_group field.now then false else found) || has_item (steps (one field.now))) }
{
    let here = takes_item(field);
    match field {
        Field::Group(_, _) => here,
        _ => found || here,
    }
}

/// Whether a field has an edit that takes an item.
fn takes_item(field: &Field) -> bool
    ensures { result ≡ has_item (steps (one field.now)) }
{
    match field {
        Field::Group(count, inside) => {
            if *count == 0 {
                return false;
            }
            for part in inside {
                if takes_item(part) {
                    return true;
                }
            }
            false
        }
        Field::Whole(count, _) => *count != 0,
        Field::Truth(count, _) => *count != 0,
        Field::Letter(count) => *count != 0,
        Field::Skip(_) => false,
        Field::Chars(_) => false,
        Field::Slash => false,
    }
}

/// The instructions of a field outside of all groups.
fn emit_top(alloc: Global, ops: &mut Vec<Op>, field: &Field) -> Result<(), AllocError>
    requires { depth (one field.now) ≤ 2 }
    ensures code { OnOk result (map plan_code ops.new.items ≡ map plan_code ops.old.items ++ code 0 (one field.now)) }
    ensures len { OnOk result (length ops.new.items ≡ length ops.old.items + size (one field.now)) }
{
    emit(alloc, ops, 0, field)
}

/// The instructions of a field.
fn emit(alloc: Global, ops: &mut Vec<Op>, level: u8, field: &Field) -> Result<(), AllocError>
    requires { level + depth (one field.now) ≤ 2 }
    ensures { OnOk result (map plan_code ops.new.items ≡ map plan_code ops.old.items ++ code level (one field.now)) }
{
    match field {
        Field::Group(count, inside) => {
            let mut body = Vec::new(alloc);
            for part in inside {
                emit(alloc, &mut body, level + 1, part)?;
            }
            enclose(ops, level, *count, body)
        }
        Field::Whole(count, width) => once(ops, *count, Piece::Takes(EditKind::Whole, *width)),
        Field::Truth(count, width) => once(ops, *count, Piece::Takes(EditKind::Truth, *width)),
        Field::Letter(count) => once(ops, *count, Piece::Takes(EditKind::Letter, 1)),
        Field::Skip(count) => once(ops, 1, Piece::Blanks(*count)),
        Field::Chars(text) => once_chars(ops, text),
        Field::Slash => once(ops, 1, Piece::Slash),
    }
}

/// The instructions of a group: those of its fields between its beginning and its end, which both tell how many they are.
fn enclose(ops: &mut Vec<Op>, level: u8, count: u16, mut body: Vec<Op>) -> Result<(), AllocError>
    ensures { OnOk result
        (map plan_code ops.new.items ≡ map plan_code ops.old.items ++ Enter level count (length body.items) ∷ (map plan_code body.items ++ Leave level (length body.items) ∷ [])) }
{
    let size = body.len();
    ops.push(Op::Enter(level, count, size))?;
    ops.append(&mut body)?;
    ops.push(Op::Leave(level, size))?;
    Ok(())
}

/// The instruction of an edit with its count.
fn once(ops: &mut Vec<Op>, count: u16, piece: Piece) -> Result<(), AllocError>
    ensures { OnOk result (map plan_code ops.new.items ≡ map plan_code ops.old.items ++ Once count (step_of piece) ∷ []) }
{
    ops.push(Op::Once(count, piece))?;
    Ok(())
}

/// The instruction of a text.
fn once_chars(ops: &mut Vec<Op>, text: &Text) -> Result<(), AllocError>
    ensures { OnOk result (map plan_code ops.new.items ≡ map plan_code ops.old.items ++ Once 1 (Chars text.now) ∷ []) }
{
    once(ops, 1, Piece::Chars(text.clone()?))
}
