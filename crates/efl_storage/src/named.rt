// The names that a part uses by themselves, which may be variables that are not declared.
ghost use Rattle.std.specs.Prelude.{◌≡◌, ◌++◌, ◌∷◌, [], IfOk, OnOk, map};
ghost use Rattle.std.specs.List.{flat_map};
ghost use Rattle.efl_tree.specs.Syntax.{NoStep};
ghost use Rattle.efl_tree.specs.Views.{expr_of, exprs_of, place_of, step_then, steps_of, decl_kind_of, expr_if_any, preset_of, write_item_of, read_item_of, kind_of};
ghost use Rattle.efl_scope.specs.Uses.{named, uses_of, uses_of_all, uses_at, uses_behind, uses_if, uses_written, uses_read, uses_declared, uses_by};
ghost use Rattle.efl_storage.specs.Named.{named_in, texts_of};

use efl_tree::{
    EflDeclKind, EflExpr, EflKind, EflName, EflPlace, EflPreset, EflStep, ReadItem, WriteItem,
};
use std::alloc::{AllocError, Global};

#[cycle(name_expression)]
#[tactic(auto, using(crate::proofs::NamedLemmas::named_steps))]
fn name_expression<'t>(e: &'t EflExpr, names: &mut Vec<&'t [u8]>) -> Result<(), AllocError>
    ensures { OnOk result (texts_of names.new.items ≡ texts_of names.old.items ++ named_in (uses_of (expr_of e.now))) }
{
    match e {
        EflExpr::Int(_) | EflExpr::Truth(_) => Ok(()),
        EflExpr::At(place) => name_place(place, names),
        EflExpr::Up(place) => name_place(place, names),
        EflExpr::Down(place) => name_place(place, names),
        EflExpr::Call(_, list) => name_expressions(list, names),
        EflExpr::Group(a) => name_expression(a, names),
        EflExpr::Plus(a) => name_expression(a, names),
        EflExpr::Minus(a) => name_expression(a, names),
        EflExpr::Not(a) => name_expression(a, names),
        EflExpr::Pair(_, a, b) => {
            name_expression(a, names)?;
            name_expression(b, names)
        }
        EflExpr::Assign(_, place, a) => {
            name_place(place, names)?;
            name_expression(a, names)
        }
    }
}

#[cycle(name_expression)]
#[tactic(auto, using(crate::proofs::NamedLemmas::named_steps))]
fn name_expressions<'t>(list: &'t [EflExpr], names: &mut Vec<&'t [u8]>) -> Result<(), AllocError>
    ensures { OnOk result (texts_of names.new.items ≡ texts_of names.old.items ++ named_in (uses_of_all (exprs_of list.now))) }
{
    for e in list {
        name_expression(e, names)?;
    }
    Ok(())
}

#[cycle(name_expression)]
#[tactic(auto, using(crate::proofs::NamedLemmas::named_steps))]
fn name_place<'t>(place: &'t EflPlace, names: &mut Vec<&'t [u8]>) -> Result<(), AllocError>
    ensures { OnOk result (texts_of names.new.items ≡ texts_of names.old.items ++ named_in (uses_at (place_of place.now))) }
{
    name_first(&place.first, &place.subscripts, names)?;
    name_expressions(&place.subscripts, names)?;
    name_steps(&place.steps, names)
}

/// A name without subscripts stands by itself.
fn name_first<'t>(
    name: &'t EflName,
    subscripts: &[EflExpr],
    names: &mut Vec<&'t [u8]>,
) -> Result<(), AllocError>
    ensures { OnOk result (texts_of names.new.items ≡ texts_of names.old.items ++ named_in (named name.now (exprs_of subscripts.now) ∷ [])) }
{
    if subscripts.is_empty() {
        names.push(name.as_bytes())?;
    }
    Ok(())
}

#[cycle(name_expression)]
#[tactic(auto, using(crate::proofs::NamedLemmas::named_steps))]
fn name_steps<'t>(list: &'t [EflStep], names: &mut Vec<&'t [u8]>) -> Result<(), AllocError>
    ensures { OnOk result (texts_of names.new.items ≡ texts_of names.old.items ++ named_in (uses_behind (steps_of list.now))) }
{
    for step in list {
        name_step(step, names)?;
    }
    Ok(())
}

#[cycle(name_expression)]
#[tactic(auto, using(crate::proofs::NamedLemmas::named_steps))]
fn name_step<'t>(step: &'t EflStep, names: &mut Vec<&'t [u8]>) -> Result<(), AllocError>
    ensures { OnOk result (texts_of names.new.items ≡ texts_of names.old.items ++ named_in (uses_behind (step_then step.now NoStep))) }
{
    match step {
        EflStep::Member(_, list) => name_expressions(list, names),
        EflStep::Overlay(_) => Ok(()),
    }
}

fn name_if_any<'t>(e: &'t Option<EflExpr>, names: &mut Vec<&'t [u8]>) -> Result<(), AllocError>
    ensures { OnOk result (texts_of names.new.items ≡ texts_of names.old.items ++ named_in (uses_if (expr_if_any e.now))) }
{
    match e {
        None => Ok(()),
        Some(e) => name_expression(e, names),
    }
}

#[tactic(auto, using(crate::proofs::NamedLemmas::named_steps))]
fn name_presets<'t>(list: &'t [EflPreset], names: &mut Vec<&'t [u8]>) -> Result<(), AllocError>
    ensures { OnOk result (texts_of names.new.items ≡ texts_of names.old.items ++ named_in (flat_map (λ p. uses_at p.place) (map preset_of list.now))) }
{
    for preset in list {
        name_place(&preset.place, names)?;
    }
    Ok(())
}

fn name_written<'t>(item: &'t WriteItem, names: &mut Vec<&'t [u8]>) -> Result<(), AllocError>
    ensures { OnOk result (texts_of names.new.items ≡ texts_of names.old.items ++ named_in (uses_written (write_item_of item.now))) }
{
    match item {
        WriteItem::Value(e, _) => name_expression(e, names),
        WriteItem::Skip(_) | WriteItem::Chars(_) => Ok(()),
    }
}

#[tactic(auto, using(crate::proofs::NamedLemmas::named_steps))]
fn name_all_written<'t>(list: &'t [WriteItem], names: &mut Vec<&'t [u8]>) -> Result<(), AllocError>
    ensures { OnOk result (texts_of names.new.items ≡ texts_of names.old.items ++ named_in (flat_map uses_written (map write_item_of list.now))) }
{
    for item in list {
        name_written(item, names)?;
    }
    Ok(())
}

fn name_read<'t>(item: &'t ReadItem, names: &mut Vec<&'t [u8]>) -> Result<(), AllocError>
    ensures { OnOk result (texts_of names.new.items ≡ texts_of names.old.items ++ named_in (uses_read (read_item_of item.now))) }
{
    match item {
        ReadItem::Take(place, _) => name_place(place, names),
        ReadItem::Skip(_) => Ok(()),
    }
}

#[tactic(auto, using(crate::proofs::NamedLemmas::named_steps))]
fn name_all_read<'t>(list: &'t [ReadItem], names: &mut Vec<&'t [u8]>) -> Result<(), AllocError>
    ensures { OnOk result (texts_of names.new.items ≡ texts_of names.old.items ++ named_in (flat_map uses_read (map read_item_of list.now))) }
{
    for item in list {
        name_read(item, names)?;
    }
    Ok(())
}

/// The names that a declaration uses by themselves.
pub fn named_by_declaration<'t>(
    alloc: Global,
    kind: &'t EflDeclKind,
) -> Result<Vec<&'t [u8]>, AllocError>
    ensures { IfOk result (λ names. texts_of names.items ≡ named_in (uses_declared (decl_kind_of kind.now))) }
{
    let mut names = Vec::new(alloc);
    if let EflDeclKind::Initial(list) = kind {
        name_presets(list, &mut names)?;
    }
    Ok(names)
}

/// The names that a condition uses by themselves.
pub fn named_by_condition<'t>(alloc: Global, e: &'t EflExpr) -> Result<Vec<&'t [u8]>, AllocError>
    ensures { IfOk result (λ names. texts_of names.items ≡ named_in (uses_of (expr_of e.now))) }
{
    let mut names = Vec::new(alloc);
    name_expression(e, &mut names)?;
    Ok(names)
}

/// The names that a statement uses by themselves, without the statements in it.
pub fn named_by_statement<'t>(alloc: Global, kind: &'t EflKind) -> Result<Vec<&'t [u8]>, AllocError>
    ensures { IfOk result (λ names. texts_of names.items ≡ named_in (uses_by (kind_of kind.now))) }
{
    let mut names = Vec::new(alloc);
    name_statement(kind, &mut names)?;
    Ok(names)
}

#[tactic(auto, using(crate::proofs::NamedLemmas::named_steps))]
fn name_statement<'t>(kind: &'t EflKind, names: &mut Vec<&'t [u8]>) -> Result<(), AllocError>
    ensures { OnOk result (texts_of names.new.items ≡ texts_of names.old.items ++ named_in (uses_by (kind_of kind.now))) }
{
    match kind {
        EflKind::Act(e) | EflKind::If(e, _, _) | EflKind::While(e, _) | EflKind::Switch(e, _) => {
            name_expression(e, names)
        }
        EflKind::For(first, test, step, _) => {
            name_if_any(first, names)?;
            name_if_any(test, names)?;
            name_if_any(step, names)
        }
        EflKind::Do(name, first, last, step, _) => {
            names.push(name.as_bytes())?;
            name_expression(first, names)?;
            name_expression(last, names)?;
            name_if_any(step, names)
        }
        EflKind::Return(e) => name_if_any(e, names),
        EflKind::Write(unit, list) => {
            name_if_any(unit, names)?;
            name_all_written(list, names)
        }
        EflKind::Read(unit, list) => {
            name_if_any(unit, names)?;
            name_all_read(list, names)
        }
        EflKind::Repeat(_, None) | EflKind::Repeat(_, Some(_)) => Ok(()),
        EflKind::Empty
        | EflKind::Block(_, _)
        | EflKind::Break(_, _)
        | EflKind::Next(_, _)
        | EflKind::Goto(_) => Ok(()),
    }
}
