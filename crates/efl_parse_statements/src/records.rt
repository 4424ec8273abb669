// What the productions of `read` and `write` make.
ghost use Rattle.std.specs.Prelude.{◌≡◌, IfOk};
ghost use Rattle.efl_tree.specs.Syntax.{Write, Read, Value as Edited, Skip, Chars, Take};
ghost use Rattle.efl_tree.specs.declared.statement.EflEdit.TheVariants as edits;
ghost use Rattle.efl_tree.specs.Syntax as efl;
ghost use Rattle.efl_tree.specs.Views.{write_item_of, read_item_of};
ghost use Rattle.efl_parse_values.specs.Values.{value, values, at, edit as edit_val, write_item as write_item_val, read_item as read_item_val};
ghost use Rattle.efl_parse_values.specs.Parts.{as_expr, as_path, expr_part, integer_in, text_in, edit_in, as_write_items, as_read_items};
ghost use Rattle.efl_parse_statements.specs.Statements.{placed, width_edit as edit_of_width};

use crate::statements::stated;
use efl_parse_values::{
    RecordValue, Value, into_expr, into_expr_if_any, into_path, into_text, is_word, ordered,
    pop_value, skip, take_edit, take_integer, take_place,
};
use efl_tree::{EflEdit, EflKind, ReadItem, WriteItem};
use ground::List;
use std::alloc::{AllocError, Global};

pub fn write_by(alloc: Global, parts: &mut Vec<Value>) -> Result<Value, AllocError>
    ensures { IfOk result (λ v. value v ≡ placed (at 5 (values parts.old.items)) (Write (expr_part (at 3 (values parts.old.items))) (as_write_items (at 2 (values parts.old.items))))) }
{
    skip(parts);
    skip(parts);
    let items: List<WriteItem> = ordered(alloc, pop_value(parts));
    let unit = into_expr_if_any(pop_value(parts));
    skip(parts);
    let place = take_place(pop_value(parts));
    stated(alloc, place, EflKind::Write(unit, items))
}

pub fn read_by(alloc: Global, parts: &mut Vec<Value>) -> Result<Value, AllocError>
    ensures { IfOk result (λ v. value v ≡ placed (at 5 (values parts.old.items)) (Read (expr_part (at 3 (values parts.old.items))) (as_read_items (at 2 (values parts.old.items))))) }
{
    skip(parts);
    skip(parts);
    let items: List<ReadItem> = ordered(alloc, pop_value(parts));
    let unit = into_expr_if_any(pop_value(parts));
    skip(parts);
    let place = take_place(pop_value(parts));
    stated(alloc, place, EflKind::Read(unit, items))
}

fn write_item(alloc: Global, item: WriteItem) -> Result<Value, AllocError>
    ensures { IfOk result (λ v. value v ≡ write_item_val (write_item_of item)) }
{
    Ok(Value::Record(RecordValue::WriteItem(Box::new(alloc, item)?)))
}

fn read_item(item: ReadItem) -> Value
    ensures { value result ≡ read_item_val (read_item_of item) }
{
    Value::Record(RecordValue::ReadItem(item))
}

pub fn value_item_by(alloc: Global, parts: &mut Vec<Value>) -> Result<Value, AllocError>
    ensures { IfOk result (λ v. value v ≡ write_item_val (Edited (as_expr (at 2 (values parts.old.items))) (edit_in (at 0 (values parts.old.items))))) }
{
    let edit = take_edit(pop_value(parts));
    skip(parts);
    let item = into_expr(pop_value(parts));
    write_item(alloc, WriteItem::Value(item, edit))
}

pub fn skip_write_by(alloc: Global, parts: &mut Vec<Value>) -> Result<Value, AllocError>
    ensures { IfOk result (λ v. value v ≡ write_item_val (efl.WriteItem.Skip (integer_in (at 1 (values parts.old.items))))) }
{
    skip(parts);
    let count = take_integer(pop_value(parts));
    write_item(alloc, WriteItem::Skip(count))
}

pub fn chars_by(alloc: Global, parts: &mut Vec<Value>) -> Result<Value, AllocError>
    ensures { IfOk result (λ v. value v ≡ write_item_val (Chars (text_in (at 0 (values parts.old.items))))) }
{
    let text = into_text(pop_value(parts));
    write_item(alloc, WriteItem::Chars(text))
}

pub fn take_item_by(alloc: Global, parts: &mut Vec<Value>) -> Result<Value, AllocError>
    ensures { IfOk result (λ v. value v ≡ read_item_val (Take (as_path (at 2 (values parts.old.items))) (edit_in (at 0 (values parts.old.items))))) }
{
    let edit = take_edit(pop_value(parts));
    skip(parts);
    let item = into_path(alloc, pop_value(parts));
    Ok(read_item(ReadItem::Take(item, edit)))
}

pub fn skip_read_by(parts: &mut Vec<Value>) -> Result<Value, AllocError>
    ensures { IfOk result (λ v. value v ≡ read_item_val (efl.ReadItem.Skip (integer_in (at 1 (values parts.old.items))))) }
{
    skip(parts);
    let count = take_integer(pop_value(parts));
    Ok(read_item(ReadItem::Skip(count)))
}

fn width_edit(letter: &Value, width: i64) -> EflEdit
    ensures { result ≡ edit_of_width (value letter.now) width }
{
    if is_word(b"I", letter) {
        EflEdit::Whole(width)
    } else {
        EflEdit::Truth(width)
    }
}

pub fn width_edit_by(parts: &mut Vec<Value>) -> Result<Value, AllocError>
    ensures { IfOk result (λ v. value v ≡ edit_val (edit_of_width (at 3 (values parts.old.items)) (integer_in (at 1 (values parts.old.items))))) }
{
    skip(parts);
    let width = take_integer(pop_value(parts));
    skip(parts);
    let letter = pop_value(parts);
    let edit = width_edit(&letter, width);
    drop(letter);
    Ok(Value::Record(RecordValue::Edit(edit)))
}

pub fn char_edit() -> Value
    ensures { value result ≡ edit_val edits.Letter }
{
    Value::Record(RecordValue::Edit(EflEdit::Letter))
}
