// Whether what a part uses is a structure's name where it must not be, or none where it must.
ghost use Rattle.std.specs.Prelude.{◌≡◌, ◌||◌, ◌∷◌, map};
ghost use Rattle.std.specs.List.{list_any, flat_map};
ghost use Rattle.efl_tree.specs.Syntax.{NoStep};
ghost use Rattle.efl_tree.specs.Views.{expr_of, exprs_of, place_of, step_then, steps_of, decl_kind_of, expr_if_any, preset_of, write_item_of, read_item_of, kind_of};
ghost use Rattle.efl_scope.specs.Uses.{Named, Applied, Laid, uses_declared, uses_of, uses_of_all, uses_at, uses_behind, uses_if, uses_written, uses_read, uses_by};
ghost use Rattle.efl_scope.specs.BlockViews.{known_of};
ghost use Rattle.efl_scope.specs.UseViews.{is_flawed};

use crate::{Blocks, is_structure};
use efl_tree::{
    EflDeclKind, EflExpr, EflKind, EflName, EflPlace, EflPreset, EflStep, ReadItem, WriteItem,
};

/// What a name can be used as that it is not.
#[derive(Clone, Copy, Drop)]
pub enum Flaw {
    /// As a structure, behind `->`.
    LaidOver,
    /// As a variable or a procedure.
    Misused,
}

/// Whether a name that stands by itself or before parentheses has the flaw.
fn is_misused(name: &EflName, known: &Blocks, flaw: Flaw) -> bool
    ensures { result ≡ is_flawed flaw (known_of known.now) (Named name.now) }
{
    match flaw {
        Flaw::LaidOver => false,
        Flaw::Misused => is_structure(known, name.as_bytes()),
    }
}

fn is_laid_over_none(name: &EflName, known: &Blocks, flaw: Flaw) -> bool
    ensures { result ≡ is_flawed flaw (known_of known.now) (Laid name.now) }
{
    match flaw {
        Flaw::LaidOver => !is_structure(known, name.as_bytes()),
        Flaw::Misused => false,
    }
}

/// Whether a name within an expression has the flaw.
#[cycle(has_flaw)]
#[tactic(auto, using(crate::proofs::UseLemmas::use_steps))]
pub fn has_flaw(e: &EflExpr, known: &Blocks, flaw: Flaw) -> bool
    ensures { result ≡ list_any (is_flawed flaw (known_of known.now)) (uses_of (expr_of e.now)) }
{
    match e {
        EflExpr::Int(_) | EflExpr::Truth(_) => false,
        EflExpr::At(place) => place_has_flaw(place, &*known, flaw),
        EflExpr::Up(place) => place_has_flaw(place, &*known, flaw),
        EflExpr::Down(place) => place_has_flaw(place, &*known, flaw),
        EflExpr::Call(name, list) => call_has_flaw(name, list, &*known, flaw),
        EflExpr::Group(a) => has_flaw(a, &*known, flaw),
        EflExpr::Plus(a) => has_flaw(a, &*known, flaw),
        EflExpr::Minus(a) => has_flaw(a, &*known, flaw),
        EflExpr::Not(a) => has_flaw(a, &*known, flaw),
        EflExpr::Pair(_, a, b) => has_flaw(a, &*known, flaw) || has_flaw(b, &*known, flaw),
        EflExpr::Assign(_, place, a) => {
            let stored = place_has_flaw(place, &*known, flaw);
            is_either_flawed(stored, a, &*known, flaw)
        }
    }
}

#[cycle(has_flaw)]
#[tactic(auto, using(crate::proofs::UseLemmas::use_steps))]
fn is_either_flawed(before: bool, value: &EflExpr, known: &Blocks, flaw: Flaw) -> bool
    ensures { result ≡ (before || list_any (is_flawed flaw (known_of known.now)) (uses_of (expr_of value.now))) }
{
    before || has_flaw(value, &*known, flaw)
}

#[cycle(has_flaw)]
#[tactic(auto, using(crate::proofs::UseLemmas::use_steps))]
fn call_has_flaw(name: &EflName, list: &[EflExpr], known: &Blocks, flaw: Flaw) -> bool
    ensures { result ≡ list_any (is_flawed flaw (known_of known.now)) (Applied name.now ∷ uses_of_all (exprs_of list.now)) }
{
    is_misused(name, &*known, flaw) || are_some_flawed(list, &*known, flaw)
}

#[cycle(has_flaw)]
#[tactic(auto, using(crate::proofs::UseLemmas::use_steps))]
fn are_some_flawed(list: &[EflExpr], known: &Blocks, flaw: Flaw) -> bool
    ensures { result ≡ list_any (is_flawed flaw (known_of known.now)) (uses_of_all (exprs_of list.now)) }
{
    for e in list {
        if has_flaw(e, &*known, flaw) {
            return true;
        }
    }
    false
}

/// Whether a name within a place has the flaw.
#[cycle(has_flaw)]
#[tactic(auto, using(crate::proofs::UseLemmas::use_steps))]
pub fn place_has_flaw(place: &EflPlace, known: &Blocks, flaw: Flaw) -> bool
    ensures { result ≡ list_any (is_flawed flaw (known_of known.now)) (uses_at (place_of place.now)) }
{
    is_misused(&place.first, &*known, flaw)
        || (are_some_flawed(&place.subscripts, &*known, flaw)
            || have_steps_flaw(&place.steps, &*known, flaw))
}

#[cycle(has_flaw)]
#[tactic(auto, using(crate::proofs::UseLemmas::use_steps))]
fn have_steps_flaw(list: &[EflStep], known: &Blocks, flaw: Flaw) -> bool
    ensures { result ≡ list_any (is_flawed flaw (known_of known.now)) (uses_behind (steps_of list.now)) }
{
    for step in list {
        if has_step_flaw(step, &*known, flaw) {
            return true;
        }
    }
    false
}

#[cycle(has_flaw)]
#[tactic(auto, using(crate::proofs::UseLemmas::use_steps))]
fn has_step_flaw(step: &EflStep, known: &Blocks, flaw: Flaw) -> bool
    ensures { result ≡ list_any (is_flawed flaw (known_of known.now)) (uses_behind (step_then step.now NoStep)) }
{
    match step {
        EflStep::Member(_, list) => are_some_flawed(list, &*known, flaw),
        EflStep::Overlay(name) => is_laid_over_none(name, &*known, flaw),
    }
}

fn is_some_flawed(e: &Option<EflExpr>, known: &Blocks, flaw: Flaw) -> bool
    ensures { result ≡ list_any (is_flawed flaw (known_of known.now)) (uses_if (expr_if_any e.now)) }
{
    match e {
        None => false,
        Some(e) => has_flaw(e, known, flaw),
    }
}

#[tactic(auto, using(crate::proofs::UseLemmas::use_steps))]
fn are_some_presets_flawed(list: &[EflPreset], known: &Blocks, flaw: Flaw) -> bool
    ensures { result ≡ list_any (is_flawed flaw (known_of known.now)) (flat_map (λ p. uses_at p.place) (map preset_of list.now)) }
{
    for preset in list {
        if place_has_flaw(&preset.place, known, flaw) {
            return true;
        }
    }
    false
}

fn is_written_flawed(item: &WriteItem, known: &Blocks, flaw: Flaw) -> bool
    ensures { result ≡ list_any (is_flawed flaw (known_of known.now)) (uses_written (write_item_of item.now)) }
{
    match item {
        WriteItem::Value(e, _) => has_flaw(e, known, flaw),
        WriteItem::Skip(_) | WriteItem::Chars(_) => false,
    }
}

#[tactic(auto, using(crate::proofs::UseLemmas::use_steps))]
fn are_some_written_flawed(list: &[WriteItem], known: &Blocks, flaw: Flaw) -> bool
    ensures { result ≡ list_any (is_flawed flaw (known_of known.now)) (flat_map uses_written (map write_item_of list.now)) }
{
    for item in list {
        if is_written_flawed(item, known, flaw) {
            return true;
        }
    }
    false
}

fn is_read_flawed(item: &ReadItem, known: &Blocks, flaw: Flaw) -> bool
    ensures { result ≡ list_any (is_flawed flaw (known_of known.now)) (uses_read (read_item_of item.now)) }
{
    match item {
        ReadItem::Take(place, _) => place_has_flaw(place, known, flaw),
        ReadItem::Skip(_) => false,
    }
}

#[tactic(auto, using(crate::proofs::UseLemmas::use_steps))]
fn are_some_read_flawed(list: &[ReadItem], known: &Blocks, flaw: Flaw) -> bool
    ensures { result ≡ list_any (is_flawed flaw (known_of known.now)) (flat_map uses_read (map read_item_of list.now)) }
{
    for item in list {
        if is_read_flawed(item, known, flaw) {
            return true;
        }
    }
    false
}

/// Whether a name that a declaration uses has the flaw.
pub fn is_declaration_flawed(kind: &EflDeclKind, known: &Blocks, flaw: Flaw) -> bool
    ensures { result ≡ list_any (is_flawed flaw (known_of known.now)) (uses_declared (decl_kind_of kind.now)) }
{
    match kind {
        EflDeclKind::Initial(list) => are_some_presets_flawed(list, known, flaw),
        _ => false,
    }
}

/// Whether a name that a statement uses, without those in it, has the flaw.
#[tactic(auto, using(crate::proofs::UseLemmas::use_steps))]
pub fn is_statement_flawed(kind: &EflKind, known: &Blocks, flaw: Flaw) -> bool
    ensures { result ≡ list_any (is_flawed flaw (known_of known.now)) (uses_by (kind_of kind.now)) }
{
    match kind {
        EflKind::Act(e) | EflKind::If(e, _, _) | EflKind::While(e, _) | EflKind::Switch(e, _) =>
            has_flaw(e, known, flaw),
        EflKind::For(first, test, step, _) => {
            is_some_flawed(first, known, flaw)
                || (is_some_flawed(test, known, flaw) || is_some_flawed(step, known, flaw))
        }
        EflKind::Do(name, first, last, step, _) => {
            is_misused(name, known, flaw)
                || (has_flaw(first, known, flaw)
                    || (has_flaw(last, known, flaw) || is_some_flawed(step, known, flaw)))
        }
        EflKind::Return(e) => is_some_flawed(e, known, flaw),
        EflKind::Write(unit, list) => {
            is_some_flawed(unit, known, flaw) || are_some_written_flawed(list, known, flaw)
        }
        EflKind::Read(unit, list) => {
            is_some_flawed(unit, known, flaw) || are_some_read_flawed(list, known, flaw)
        }
        EflKind::Repeat(_, None) | EflKind::Repeat(_, Some(_)) => false,
        EflKind::Empty
        | EflKind::Block(_, _)
        | EflKind::Break(_, _)
        | EflKind::Next(_, _)
        | EflKind::Goto(_) => false,
    }
}
