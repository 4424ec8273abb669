// READ and WRITE, each with its format.
ghost use Rattle.std.specs.Prelude.{◌≡◌, [], ◌+◌, IfOk, OnOk, option_map};
ghost use Rattle.efl_program.specs.Meaning.{kind_by as kind_of_edit, read_by as fields_of_read, written_by as fields_of_written};
ghost use Rattle.efl_program.specs.Typed as typed;
ghost use Rattle.efl_typed_tree.specs.Views.{edit_of, expr_of, read_item_of, read_items_of, write_item_of, write_items_of};
ghost use Rattle.f66_tree.specs.Syntax.{Read, Write, unlabelled_line};
ghost use Rattle.f66_tree.specs.Views.{entries_of, field_then, fields_of, par_of};
ghost use Rattle.routes.specs.Routes.{AndRoute};
ghost use Rattle.efl_emit.specs.Emitted.{Emitted, Puts};
ghost use Rattle.efl_emit.specs.Names.{emission_of, made_of};
ghost use Rattle.efl_emit.specs.Statements.{route_of};
ghost use Rattle.efl_emit.specs.Transfers.{AddsItem, AddsRead, AreItems, IsItem, IsStored, field_of, read_entries_of, read_field as field_of_read, stores_of, unit_of, written_field as field_of_written};

use crate::{
    Emitter, Evaluated, Naming, Operand, emit_expression, emit_if_any, operand_expr, plus,
    set_temporary, store, temporary,
};
use efl_typed_tree::{TypedEdit, TypedExpr, TypedReadItem, TypedWriteItem};
use f66_tree::{Entry, Expr, Field, Par, StmtKind};
use ground::{Kind, List, Place, Text};
use std::alloc::{AllocError, Global};

/// What `write` becomes.
pub fn emit_write(
    out: &mut Emitter,
    naming: &Naming,
    place: Place,
    unit: &Option<TypedExpr>,
    items: &[TypedWriteItem],
    number: usize,
) -> Result<(), AllocError>
    ensures { OnOk result (Emitted (made_of naming.now) (AndRoute (route_of naming.now (typed.Write place (option_map expr_of unit.now) (write_items_of items.now)) [] number)) (emission_of out.old) (emission_of out.new)) }
{
    let unit = emit_if_any(out, naming, place, unit, Operand::Int(6), number)?;
    let list = emit_items(out, naming, place, items, unit.next)?;
    let label = out.fresh_label(naming)?;
    put_write(out, place, unit.operand, label, list)?;
    let fields = written_by(out.alloc(), items)?;
    out.put_labelled(label, place, StmtKind::Format(fields))
}

// WRITE (unit, label) list
fn put_write(
    out: &mut Emitter,
    place: Place,
    unit: Operand,
    label: u32,
    list: List<Entry>,
) -> Result<(), AllocError>
    ensures { OnOk result (Puts (unlabelled_line place (Write (unit_of unit) label (entries_of list.items))) (emission_of out.old) (emission_of out.new)) }
{
    let unit = operand_par(unit)?;
    out.put(place, StmtKind::Write(unit, label, list))
}

// READ (unit, label) list
fn put_read(
    out: &mut Emitter,
    place: Place,
    unit: Operand,
    label: u32,
    list: List<Entry>,
) -> Result<(), AllocError>
    ensures { OnOk result (Puts (unlabelled_line place (Read (unit_of unit) label (entries_of list.items))) (emission_of out.old) (emission_of out.new)) }
{
    let unit = operand_par(unit)?;
    out.put(place, StmtKind::Read(unit, label, list))
}

// The unit of a READ or WRITE.
fn operand_par(operand: Operand) -> Result<Par, AllocError>
    ensures { IfOk result (λ par. par_of par ≡ unit_of operand) }
{
    match operand {
        Operand::Int(value) => Ok(Par::Number(value)),
        Operand::Truth(_) => Ok(Par::Number(0)),
        Operand::Temp(kind, number) => Ok(Par::Variable(temporary(kind, number))),
    }
}

// The items of a `write`: each value goes into a temporary of its own.
fn emit_items(
    out: &mut Emitter,
    naming: &Naming,
    place: Place,
    items: &[TypedWriteItem],
    number: usize,
) -> Result<List<Entry>, AllocError>
    ensures { IfOk result (λ r. AreItems naming.now place (write_items_of items.now) number r.items (emission_of out.old) (emission_of out.new)) }
{
    let mut list = Vec::new(out.alloc());
    let mut next = number;
    for item in items {
        next = emit_item(out, naming, place, item, &mut list, next)?;
    }
    Ok(list)
}

// One item of a `write`, and the number of the next temporary.
fn emit_item(
    out: &mut Emitter,
    naming: &Naming,
    place: Place,
    item: &TypedWriteItem,
    list: &mut List<Entry>,
    number: usize,
) -> Result<usize, AllocError>
    ensures { IfOk result (λ next. AddsItem naming.now place (write_item_of item.now) number next list.old.items list.new.items (emission_of out.old) (emission_of out.new)) }
{
    match item {
        TypedWriteItem::Value(e, edit) => {
            let value = emit_value(out, naming, place, e, *edit, number)?;
            list.push(Entry::Item(operand_expr(value.operand)?))?;
            Ok(value.next)
        }
        TypedWriteItem::Skip(_) | TypedWriteItem::Chars(_) => Ok(number),
    }
}

// A value in a temporary of its own.
fn emit_value(
    out: &mut Emitter,
    naming: &Naming,
    place: Place,
    e: &TypedExpr,
    edit: TypedEdit,
    number: usize,
) -> Result<Evaluated, AllocError>
    ensures { IfOk result (λ r. IsItem naming.now place (expr_of e.now) (edit_of edit) number r (emission_of out.old) (emission_of out.new)) }
{
    let value = emit_expression(out, naming, place, e, number)?;
    let whole = operand_expr(value.operand)?;
    set_temporary(out, place, kind_by(edit), value.next, whole)
}

// The type of what an edit takes.
fn kind_by(edit: TypedEdit) -> Kind
    ensures { result ≡ kind_of_edit (edit_of edit) }
{
    match edit {
        TypedEdit::Whole(_) | TypedEdit::Letter => Kind::Integer,
        TypedEdit::Truth(_) => Kind::Logical,
    }
}

// The field of an edit.
fn field_by(edit: TypedEdit) -> Field
    ensures { field_then result ≡ field_of (edit_of edit) }
{
    match edit {
        TypedEdit::Whole(width) => Field::Whole(1, width),
        TypedEdit::Truth(width) => Field::Truth(1, width),
        TypedEdit::Letter => Field::Letter(1),
    }
}

// The fields of a `write`.
fn written_by(alloc: Global, items: &[TypedWriteItem]) -> Result<List<Field>, AllocError>
    ensures { IfOk result (λ fields. fields_of fields.items ≡ fields_of_written (write_items_of items.now)) }
{
    let mut fields = Vec::new(alloc);
    for item in items {
        fields.push(written_field(item)?)?;
    }
    Ok(fields)
}

fn written_field(item: &TypedWriteItem) -> Result<Field, AllocError>
    ensures { IfOk result (λ field. field_then field ≡ field_of_written (write_item_of item.now)) }
{
    match item {
        TypedWriteItem::Value(_, edit) => Ok(field_by(*edit)),
        TypedWriteItem::Skip(count) => Ok(Field::Skip(*count)),
        TypedWriteItem::Chars(text) => chars_field(text),
    }
}

fn chars_field(text: &Text) -> Result<Field, AllocError>
    ensures { IfOk result (λ field. field_then field ≡ field_of_written (typed.Chars text.now)) }
{
    Ok(Field::Chars(text.clone()?))
}

// The fields of a `read`.
fn read_by(alloc: Global, items: &[TypedReadItem]) -> Result<List<Field>, AllocError>
    ensures { IfOk result (λ fields. fields_of fields.items ≡ fields_of_read (read_items_of items.now)) }
{
    let mut fields = Vec::new(alloc);
    for item in items {
        fields.push(read_field(*item))?;
    }
    Ok(fields)
}

fn read_field(item: TypedReadItem) -> Field
    ensures { field_then result ≡ field_of_read (read_item_of item) }
{
    match item {
        TypedReadItem::Take(_, edit) => field_by(edit),
        TypedReadItem::Skip(count) => Field::Skip(count),
    }
}

/// What `read` becomes: what is read comes into temporaries, and is stored when the record is done.
pub fn emit_read(
    out: &mut Emitter,
    naming: &Naming,
    place: Place,
    unit: &Option<TypedExpr>,
    items: &[TypedReadItem],
    number: usize,
) -> Result<(), AllocError>
    ensures { OnOk result (Emitted (made_of naming.now) (AndRoute (route_of naming.now (typed.Read place (option_map expr_of unit.now) (read_items_of items.now)) [] number)) (emission_of out.old) (emission_of out.new)) }
{
    let unit = emit_if_any(out, naming, place, unit, Operand::Int(5), number)?;
    let label = out.fresh_label(naming)?;
    let list = read_entries(out.alloc(), items, unit.next)?;
    put_read(out, place, unit.operand, label, list)?;
    let fields = read_by(out.alloc(), items)?;
    out.put_labelled(label, place, StmtKind::Format(fields))?;
    emit_stores(out, naming, place, items, unit.next)
}

// The temporaries that are read.
fn read_entries(
    alloc: Global,
    items: &[TypedReadItem],
    number: usize,
) -> Result<List<Entry>, AllocError>
    ensures { IfOk result (λ list. entries_of list.items ≡ read_entries_of (read_items_of items.now) number) }
{
    let mut list = Vec::new(alloc);
    let mut next = number;
    for item in items {
        next = read_entry(*item, &mut list, next)?;
    }
    Ok(list)
}

// The temporary of one item of a `read`, and the number of the next one.
fn read_entry(
    item: TypedReadItem,
    list: &mut List<Entry>,
    number: usize,
) -> Result<usize, AllocError>
    ensures { IfOk result (λ next. AddsRead (read_item_of item) number next list.old.items list.new.items) }
{
    match item {
        TypedReadItem::Take(_, edit) => {
            let next = plus(number, 1)?;
            let name = temporary(kind_by(edit), number);
            list.push(Entry::Item(Expr::Ref(name)))?;
            Ok(next)
        }
        TypedReadItem::Skip(_) => Ok(number),
    }
}

// The variables get what was read.
fn emit_stores(
    out: &mut Emitter,
    naming: &Naming,
    place: Place,
    items: &[TypedReadItem],
    number: usize,
) -> Result<(), AllocError>
    ensures { OnOk result (Emitted (made_of naming.now) (stores_of naming.now place (read_items_of items.now) number) (emission_of out.old) (emission_of out.new)) }
{
    let mut next = number;
    for item in items {
        next = emit_stored(out, naming, place, *item, next)?;
    }
    Ok(())
}

// The store of one item of a `read`, and the number of the next temporary.
fn emit_stored(
    out: &mut Emitter,
    naming: &Naming,
    place: Place,
    item: TypedReadItem,
    number: usize,
) -> Result<usize, AllocError>
    ensures { IfOk result (λ next. IsStored naming.now place (read_item_of item) number next (emission_of out.old) (emission_of out.new)) }
{
    match item {
        TypedReadItem::Take(x, edit) => {
            let next = plus(number, 1)?;
            let operand = Operand::Temp(kind_by(edit), number);
            store(out, naming, place, x.variable, operand)?;
            Ok(next)
        }
        TypedReadItem::Skip(_) => Ok(number),
    }
}
