// What `read` and `write` edit.
ghost use Rattle.std.specs.Prelude.{◌≡◌, false, map, IfOk};
ghost use Rattle.std.specs.List.{list_any};
ghost use Rattle.std.specs.Int.RustNames.{unsigned_abs};
ghost use Rattle.efl_tree.specs.Views.{expr_of, expr_if_any, write_item_of, read_item_of};
ghost use Rattle.efl_typed.specs.Typing as typing;
ghost use Rattle.efl_typed.specs.Typing.{Context};
ghost use Rattle.efl_typed_tree.specs.Views as views;
ghost use Rattle.efl_built.specs.Unbuilt.{is_wide, unbuilt_edit, unbuilt_written, unbuilt_read};
ghost use Rattle.efl_bindings.specs.Sites.{IsSite};
ghost use Rattle.efl_typing.specs.Statements.{IsRange};

use efl_bindings::{Site, typed_expression, typed_if_any, typed_target};
use efl_tree::{EflEdit, EflExpr, ReadItem, WriteItem};
use efl_typed_tree::{TypedEdit, TypedRange, TypedReadItem, TypedWriteItem};
use ground::List;
use std::alloc::{AllocError, Global};

/// A width, which is at most 65535.
fn width_of(width: i64) -> u16
    ensures { is_wide width ≡ false → result ≡ unsigned_abs width }
{
    u16::try_from(width).unwrap_or(0)
}

fn typed_edit(edit: EflEdit) -> TypedEdit
    ensures { unbuilt_edit edit ≡ false → views.edit_of result ≡ typing.edit_of edit }
{
    match edit {
        EflEdit::Whole(width) => TypedEdit::Whole(width_of(width)),
        EflEdit::Truth(width) => TypedEdit::Truth(width_of(width)),
        EflEdit::Letter => TypedEdit::Letter,
    }
}

fn typed_value(
    alloc: Global,
    e: &EflExpr,
    edit: EflEdit,
    site: &Site<'_, '_>,
) -> Result<TypedWriteItem, AllocError>
    ensures { IfOk result (λ t. (c : Context) → IsSite c site.now → unbuilt_written (write_item_of (WriteItem.Value e.now edit)) ≡ false → views.write_item_of t ≡ typing.written c (write_item_of (WriteItem.Value e.now edit))) }
{
    let value = typed_expression(alloc, e, site)?;
    Ok(TypedWriteItem::Value(value, typed_edit(edit)))
}

fn typed_write_item(
    alloc: Global,
    item: &WriteItem,
    site: &Site<'_, '_>,
) -> Result<TypedWriteItem, AllocError>
    ensures { IfOk result (λ t. (c : Context) → IsSite c site.now → unbuilt_written (write_item_of item.now) ≡ false → views.write_item_of t ≡ typing.written c (write_item_of item.now)) }
{
    match item {
        WriteItem::Value(e, edit) => typed_value(alloc, e, *edit, site),
        WriteItem::Skip(count) => Ok(TypedWriteItem::Skip(width_of(*count))),
        WriteItem::Chars(text) => Ok(TypedWriteItem::Chars(text.clone()?)),
    }
}

/// What `write` edits.
pub fn typed_write_items(
    alloc: Global,
    list: &[WriteItem],
    site: &Site<'_, '_>,
) -> Result<List<TypedWriteItem>, AllocError>
    ensures { IfOk result (λ ts. (c : Context) → IsSite c site.now → list_any unbuilt_written (map write_item_of list.now) ≡ false → views.write_items_of ts.items ≡ map (typing.written c) (map write_item_of list.now)) }
{
    let mut items = Vec::new(alloc);
    for item in list {
        items.push(typed_write_item(alloc, item, site)?)?;
    }
    Ok(items)
}

fn typed_read_item(item: &ReadItem, site: &Site<'_, '_>) -> TypedReadItem
    ensures { (c : Context) → IsSite c site.now → unbuilt_read (read_item_of item.now) ≡ false → views.read_item_of result ≡ typing.taken c (read_item_of item.now) }
{
    match item {
        ReadItem::Take(place, edit) => {
            TypedReadItem::Take(typed_target(place, site), typed_edit(*edit))
        }
        ReadItem::Skip(count) => TypedReadItem::Skip(width_of(*count)),
    }
}

/// What `read` edits.
pub fn typed_read_items(
    alloc: Global,
    list: &[ReadItem],
    site: &Site<'_, '_>,
) -> Result<List<TypedReadItem>, AllocError>
    ensures { IfOk result (λ ts. (c : Context) → IsSite c site.now → list_any unbuilt_read (map read_item_of list.now) ≡ false → views.read_items_of ts.items ≡ map (typing.taken c) (map read_item_of list.now)) }
{
    let mut items = Vec::new(alloc);
    for item in list {
        items.push(typed_read_item(item, site))?;
    }
    Ok(items)
}

/// The values of the variable of a `do`.
pub fn typed_range(
    alloc: Global,
    first: &EflExpr,
    last: &EflExpr,
    step: &Option<EflExpr>,
    site: &Site<'_, '_>,
) -> Result<TypedRange, AllocError>
    ensures { IfOk result (IsRange (expr_of first.now) (expr_of last.now) (expr_if_any step.now) site.now) }
{
    let first = typed_expression(alloc, first, site)?;
    let last = typed_expression(alloc, last, site)?;
    let step = typed_if_any(alloc, step, site)?;
    Ok(TypedRange { first, last, step })
}
