// The calls of expressions, and those of a declaration or statement by itself.
ghost use Rattle.std.specs.Prelude.{◌≡◌, ◌∷◌, OnOk, map};
ghost use Rattle.std.specs.List.{flat_map};
ghost use Rattle.efl_tree.specs.Syntax.{NoStep};
ghost use Rattle.efl_tree.specs.Views.{expr_of, exprs_of, place_of, step_then, steps_of, decl_of, expr_if_any, preset_of, write_item_of, read_item_of, kind_of};
ghost use Rattle.efl_scope.specs.Uses.{named, Applied, uses_of, uses_of_all, uses_at, uses_behind, uses_if, uses_written, uses_read, uses_by};
ghost use Rattle.efl_whole.specs.Calls.{using_all, using, declaration_calls};
ghost use Rattle.efl_whole.specs.CallViews.{calls_of, site_of};

use crate::calls::{Calls, Site};
use efl_tree::{
    EflDecl, EflDeclKind, EflExpr, EflKind, EflName, EflPlace, EflPreset, EflStep, ReadItem,
    WriteItem,
};
use ground::Place;
use std::alloc::AllocError;

/// The calls of an expression in a part that stands there.
#[cycle(add_expression)]
#[tactic(auto, using(crate::proofs::UseLemmas::use_steps))]
pub fn add_expression(
    e: &EflExpr,
    site: &Site,
    place: Place,
    calls: &mut Calls,
) -> Result<(), AllocError>
    ensures { OnOk result (calls_of calls.new ≡ using_all (site_of site.now) place (uses_of (expr_of e.now)) (calls_of calls.old)) }
{
    match e {
        EflExpr::Int(_) | EflExpr::Truth(_) => Ok(()),
        EflExpr::At(variable) => add_place(variable, &*site, place, calls),
        EflExpr::Up(variable) => add_place(variable, &*site, place, calls),
        EflExpr::Down(variable) => add_place(variable, &*site, place, calls),
        EflExpr::Call(name, list) => add_call(name, list, &*site, place, calls),
        EflExpr::Group(a) => add_expression(a, &*site, place, calls),
        EflExpr::Plus(a) => add_expression(a, &*site, place, calls),
        EflExpr::Minus(a) => add_expression(a, &*site, place, calls),
        EflExpr::Not(a) => add_expression(a, &*site, place, calls),
        EflExpr::Pair(_, a, b) => {
            add_expression(a, &*site, place, calls)?;
            add_expression(b, &*site, place, calls)
        }
        EflExpr::Assign(_, variable, a) => {
            add_place(variable, &*site, place, calls)?;
            add_expression(a, &*site, place, calls)
        }
    }
}

#[cycle(add_expression)]
#[tactic(auto, using(crate::proofs::UseLemmas::use_steps))]
fn add_call(
    name: &EflName,
    list: &[EflExpr],
    site: &Site,
    place: Place,
    calls: &mut Calls,
) -> Result<(), AllocError>
    ensures { OnOk result (calls_of calls.new ≡ using_all (site_of site.now) place (Applied name.now ∷ uses_of_all (exprs_of list.now)) (calls_of calls.old)) }
{
    calls.apply(&*site, place, name)?;
    add_expressions(list, &*site, place, calls)
}

#[cycle(add_expression)]
#[tactic(auto, using(crate::proofs::UseLemmas::use_steps))]
fn add_expressions(
    list: &[EflExpr],
    site: &Site,
    place: Place,
    calls: &mut Calls,
) -> Result<(), AllocError>
    ensures { OnOk result (calls_of calls.new ≡ using_all (site_of site.now) place (uses_of_all (exprs_of list.now)) (calls_of calls.old)) }
{
    for e in list {
        add_expression(e, &*site, place, calls)?;
    }
    Ok(())
}

/// The calls of a variable's place.
#[cycle(add_expression)]
#[tactic(auto, using(crate::proofs::UseLemmas::use_steps))]
fn add_place(
    variable: &EflPlace,
    site: &Site,
    place: Place,
    calls: &mut Calls,
) -> Result<(), AllocError>
    ensures { OnOk result (calls_of calls.new ≡ using_all (site_of site.now) place (uses_at (place_of variable.now)) (calls_of calls.old)) }
{
    add_name(&variable.first, &variable.subscripts, &*site, place, calls)?;
    add_expressions(&variable.subscripts, &*site, place, calls)?;
    add_steps(&variable.steps, &*site, place, calls)
}

/// A name with its subscripts, which stand behind it.
fn add_name(
    name: &EflName,
    subscripts: &[EflExpr],
    site: &Site,
    place: Place,
    calls: &mut Calls,
) -> Result<(), AllocError>
    ensures { OnOk result (calls_of calls.new ≡ using (site_of site.now) place (named name.now (exprs_of subscripts.now)) (calls_of calls.old)) }
{
    if subscripts.is_empty() {
        return Ok(());
    }
    calls.apply(site, place, name)
}

#[cycle(add_expression)]
#[tactic(auto, using(crate::proofs::UseLemmas::use_steps))]
fn add_steps(
    list: &[EflStep],
    site: &Site,
    place: Place,
    calls: &mut Calls,
) -> Result<(), AllocError>
    ensures { OnOk result (calls_of calls.new ≡ using_all (site_of site.now) place (uses_behind (steps_of list.now)) (calls_of calls.old)) }
{
    for step in list {
        add_step(step, &*site, place, calls)?;
    }
    Ok(())
}

#[cycle(add_expression)]
#[tactic(auto, using(crate::proofs::UseLemmas::use_steps))]
fn add_step(step: &EflStep, site: &Site, place: Place, calls: &mut Calls) -> Result<(), AllocError>
    ensures { OnOk result (calls_of calls.new ≡ using_all (site_of site.now) place (uses_behind (step_then step.now NoStep)) (calls_of calls.old)) }
{
    match step {
        EflStep::Member(_, list) => add_expressions(list, &*site, place, calls),
        EflStep::Overlay(_) => Ok(()),
    }
}

fn add_if_any(
    e: &Option<EflExpr>,
    site: &Site,
    place: Place,
    calls: &mut Calls,
) -> Result<(), AllocError>
    ensures { OnOk result (calls_of calls.new ≡ using_all (site_of site.now) place (uses_if (expr_if_any e.now)) (calls_of calls.old)) }
{
    match e {
        None => Ok(()),
        Some(e) => add_expression(e, site, place, calls),
    }
}

#[tactic(auto, using(crate::proofs::UseLemmas::use_steps))]
fn add_presets(
    list: &[EflPreset],
    site: &Site,
    place: Place,
    calls: &mut Calls,
) -> Result<(), AllocError>
    ensures { OnOk result (calls_of calls.new ≡ using_all (site_of site.now) place (flat_map (λ p. uses_at p.place) (map preset_of list.now)) (calls_of calls.old)) }
{
    for preset in list {
        add_place(&preset.place, site, place, calls)?;
    }
    Ok(())
}

fn add_item_written(
    item: &WriteItem,
    site: &Site,
    place: Place,
    calls: &mut Calls,
) -> Result<(), AllocError>
    ensures { OnOk result (calls_of calls.new ≡ using_all (site_of site.now) place (uses_written (write_item_of item.now)) (calls_of calls.old)) }
{
    match item {
        WriteItem::Value(e, _) => add_expression(e, site, place, calls),
        WriteItem::Skip(_) | WriteItem::Chars(_) => Ok(()),
    }
}

#[tactic(auto, using(crate::proofs::UseLemmas::use_steps))]
fn add_written(
    list: &[WriteItem],
    site: &Site,
    place: Place,
    calls: &mut Calls,
) -> Result<(), AllocError>
    ensures { OnOk result (calls_of calls.new ≡ using_all (site_of site.now) place (flat_map uses_written (map write_item_of list.now)) (calls_of calls.old)) }
{
    for item in list {
        add_item_written(item, site, place, calls)?;
    }
    Ok(())
}

fn add_item_read(
    item: &ReadItem,
    site: &Site,
    place: Place,
    calls: &mut Calls,
) -> Result<(), AllocError>
    ensures { OnOk result (calls_of calls.new ≡ using_all (site_of site.now) place (uses_read (read_item_of item.now)) (calls_of calls.old)) }
{
    match item {
        ReadItem::Take(variable, _) => add_place(variable, site, place, calls),
        ReadItem::Skip(_) => Ok(()),
    }
}

#[tactic(auto, using(crate::proofs::UseLemmas::use_steps))]
fn add_read(
    list: &[ReadItem],
    site: &Site,
    place: Place,
    calls: &mut Calls,
) -> Result<(), AllocError>
    ensures { OnOk result (calls_of calls.new ≡ using_all (site_of site.now) place (flat_map uses_read (map read_item_of list.now)) (calls_of calls.old)) }
{
    for item in list {
        add_item_read(item, site, place, calls)?;
    }
    Ok(())
}

/// The calls of a declaration.
pub fn add_declaration(
    declaration: &EflDecl,
    site: &Site,
    calls: &mut Calls,
) -> Result<(), AllocError>
    ensures { OnOk result (calls_of calls.new ≡ declaration_calls (site_of site.now) (decl_of declaration.now) (calls_of calls.old)) }
{
    match &declaration.kind {
        EflDeclKind::Initial(list) => add_presets(list, site, declaration.place, calls),
        _ => Ok(()),
    }
}

/// The calls of a statement without those in it.
#[tactic(auto, using(crate::proofs::UseLemmas::use_steps))]
pub fn add_own(
    kind: &EflKind,
    site: &Site,
    place: Place,
    calls: &mut Calls,
) -> Result<(), AllocError>
    ensures { OnOk result (calls_of calls.new ≡ using_all (site_of site.now) place (uses_by (kind_of kind.now)) (calls_of calls.old)) }
{
    match kind {
        EflKind::Act(e) | EflKind::If(e, _, _) | EflKind::While(e, _) | EflKind::Switch(e, _) => {
            add_expression(e, site, place, calls)
        }
        EflKind::For(first, test, step, _) => {
            add_if_any(first, site, place, calls)?;
            add_if_any(test, site, place, calls)?;
            add_if_any(step, site, place, calls)
        }
        EflKind::Do(_, first, last, step, _) => {
            add_expression(first, site, place, calls)?;
            add_expression(last, site, place, calls)?;
            add_if_any(step, site, place, calls)
        }
        EflKind::Return(e) => add_if_any(e, site, place, calls),
        EflKind::Write(unit, list) => {
            add_if_any(unit, site, place, calls)?;
            add_written(list, site, place, calls)
        }
        EflKind::Read(unit, list) => {
            add_if_any(unit, site, place, calls)?;
            add_read(list, site, place, calls)
        }
        EflKind::Repeat(_, None) | EflKind::Repeat(_, Some(_)) => Ok(()),
        EflKind::Empty
        | EflKind::Block(_, _)
        | EflKind::Break(_, _)
        | EflKind::Next(_, _)
        | EflKind::Goto(_) => Ok(()),
    }
}
