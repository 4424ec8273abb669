// What `read` and `write` list, taken out of values.
ghost use Rattle.std.specs.Prelude.{◌≡◌, ◌∷◌, List, map, reverse, refl};
ghost use Rattle.efl_tree.specs.Syntax.{WriteItem as Written, ReadItem as Taken};
ghost use Rattle.efl_tree.specs.Views.{write_item_of, read_item_of};
ghost use Rattle.efl_parse_values.specs.Values.{value, write_items, read_items};
ghost use Rattle.efl_parse_values.specs.Parts.{edit_in, write_item_in, as_write_items, read_item_in, as_read_items};

use crate::lists::Item;
use crate::value::{RecordValue, Value};
use efl_tree::{EflEdit, ReadItem, WriteItem};
use std::alloc::Global;

impl Item for WriteItem {
    ghost Plain = { List Written };

    ghost plain = { λ xs. map write_item_of xs };

    ghost more = { λ x rest. write_item_of x ∷ rest };

    ghost listed = { λ xs. write_items xs };

    ghost list_in = { as_write_items };

    ghost with_item = { λ v rest. write_item_in v ∷ rest };

    ghost plain_more = { λ x xs. refl };

    fn into_item(_alloc: Global, part: Value) -> WriteItem
        ensures { (rest : List Written) → write_item_of result ∷ rest ≡ write_item_in (value part) ∷ rest }
    {
        match part {
            Value::Record(RecordValue::WriteItem(item)) => Box::into_inner(item),
            other => {
                drop(other);
                WriteItem::Skip(0)
            }
        }
    }

    fn into_list(alloc: Global, part: Value) -> Vec<WriteItem>
        ensures { map write_item_of (reverse result.items) ≡ as_write_items (value part) }
    {
        match part {
            Value::Record(RecordValue::WriteItems(list)) => list,
            other => {
                drop(other);
                Vec::new(alloc)
            }
        }
    }

    fn list_value(list: Vec<WriteItem>) -> Value
        ensures { value result ≡ write_items (map write_item_of (reverse list.items)) }
    {
        Value::Record(RecordValue::WriteItems(list))
    }
}

impl Item for ReadItem {
    ghost Plain = { List Taken };

    ghost plain = { λ xs. map read_item_of xs };

    ghost more = { λ x rest. read_item_of x ∷ rest };

    ghost listed = { λ xs. read_items xs };

    ghost list_in = { as_read_items };

    ghost with_item = { λ v rest. read_item_in v ∷ rest };

    ghost plain_more = { λ x xs. refl };

    fn into_item(_alloc: Global, part: Value) -> ReadItem
        ensures { (rest : List Taken) → read_item_of result ∷ rest ≡ read_item_in (value part) ∷ rest }
    {
        match part {
            Value::Record(RecordValue::ReadItem(item)) => item,
            other => {
                drop(other);
                ReadItem::Skip(0)
            }
        }
    }

    fn into_list(alloc: Global, part: Value) -> Vec<ReadItem>
        ensures { map read_item_of (reverse result.items) ≡ as_read_items (value part) }
    {
        match part {
            Value::Record(RecordValue::ReadItems(list)) => list,
            other => {
                drop(other);
                Vec::new(alloc)
            }
        }
    }

    fn list_value(list: Vec<ReadItem>) -> Value
        ensures { value result ≡ read_items (map read_item_of (reverse list.items)) }
    {
        Value::Record(RecordValue::ReadItems(list))
    }
}

pub fn take_edit(part: Value) -> EflEdit
    ensures { result ≡ edit_in (value part) }
{
    match part {
        Value::Record(RecordValue::Edit(edit)) => edit,
        other => {
            drop(other);
            EflEdit::Letter
        }
    }
}
