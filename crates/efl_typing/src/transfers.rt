// Statements that hold no others.
ghost use Rattle.std.specs.Prelude.{IfOk, map};
ghost use Rattle.efl_tree.specs.Syntax as efl;
ghost use Rattle.efl_tree.specs.Views.{expr_of, expr_if_any, write_item_of, read_item_of};
ghost use Rattle.efl_typing.specs.Statements.{IsKind};

use crate::items::{typed_read_items, typed_write_items};
use efl_bindings::{Site, typed_action, typed_if_any};
use efl_tree::{EflExpr, ReadItem, WriteItem};
use efl_typed_tree::TypedKind;
use ground::Text;
use std::alloc::{AllocError, Global};

pub fn typed_act(alloc: Global, e: &EflExpr, site: &Site<'_, '_>) -> Result<TypedKind, AllocError>
    ensures { IfOk result (IsKind (efl.Act (expr_of e.now)) site.now) }
{
    Ok(TypedKind::Act(typed_action(alloc, e, site)?))
}

pub fn typed_return(
    alloc: Global,
    e: &Option<EflExpr>,
    site: &Site<'_, '_>,
) -> Result<TypedKind, AllocError>
    ensures { IfOk result (IsKind (efl.Return (expr_if_any e.now)) site.now) }
{
    Ok(TypedKind::Return(typed_if_any(alloc, e, site)?))
}

pub fn typed_goto(label: &Text, site: &Site<'_, '_>) -> Result<TypedKind, AllocError>
    ensures { IfOk result (IsKind (efl.Goto label.now) site.now) }
{
    Ok(TypedKind::Goto(label.clone()?))
}

pub fn typed_write(
    alloc: Global,
    unit: &Option<EflExpr>,
    list: &[WriteItem],
    site: &Site<'_, '_>,
) -> Result<TypedKind, AllocError>
    ensures { IfOk result (IsKind (efl.Write (expr_if_any unit.now) (map write_item_of list.now)) site.now) }
{
    let unit = typed_if_any(alloc, unit, site)?;
    let items = typed_write_items(alloc, list, site)?;
    Ok(TypedKind::Write(unit, items))
}

pub fn typed_read(
    alloc: Global,
    unit: &Option<EflExpr>,
    list: &[ReadItem],
    site: &Site<'_, '_>,
) -> Result<TypedKind, AllocError>
    ensures { IfOk result (IsKind (efl.Read (expr_if_any unit.now) (map read_item_of list.now)) site.now) }
{
    let unit = typed_if_any(alloc, unit, site)?;
    let items = typed_read_items(alloc, list, site)?;
    Ok(TypedKind::Read(unit, items))
}
