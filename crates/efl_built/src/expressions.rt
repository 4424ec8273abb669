// Expressions, and statements without those in them, that are not built yet.
ghost use Rattle.std.specs.Prelude.{◌≡◌, ◌||◌, not, map};
ghost use Rattle.std.specs.List.{list_any};
ghost use Rattle.efl_tree.specs.Views.{expr_of, exprs_of, place_of, steps_of, expr_if_any, write_item_of, read_item_of, kind_of};
ghost use Rattle.efl_types.specs.Types.{ends};
ghost use Rattle.efl_built.specs.Unbuilt.{is_bare as is_bare_seen, unbuilt_target, unbuilt_expr, unbuilt_exprs, unbuilt_place, unbuilt_if_any, is_wide as is_wide_seen, unbuilt_edit, unbuilt_written, unbuilt_read, unbuilt_by};

use efl_tree::{EflEdit, EflExpr, EflKind, EflPlace, EflStep, ReadItem, WriteItem};

/// Whether a form within an expression is not built.
#[cycle(is_expression_unbuilt)]
pub fn is_expression_unbuilt(e: &EflExpr) -> bool
    ensures { result ≡ unbuilt_expr (expr_of e.now) }
{
    match e {
        EflExpr::Int(_) | EflExpr::Truth(_) => false,
        EflExpr::At(place) => is_place_unbuilt(place),
        EflExpr::Up(place) => is_target_unbuilt(place),
        EflExpr::Down(place) => is_target_unbuilt(place),
        EflExpr::Call(_, list) => are_some_unbuilt(list),
        EflExpr::Group(a) => is_expression_unbuilt(a),
        EflExpr::Plus(a) => is_expression_unbuilt(a),
        EflExpr::Minus(a) => is_expression_unbuilt(a),
        EflExpr::Not(a) => is_expression_unbuilt(a),
        EflExpr::Pair(_, a, b) => is_expression_unbuilt(a) || is_expression_unbuilt(b),
        EflExpr::Assign(_, place, a) => {
            let stored = is_target_unbuilt(place);
            stored || is_expression_unbuilt(a)
        }
    }
}

#[cycle(is_expression_unbuilt)]
fn are_some_unbuilt(list: &[EflExpr]) -> bool
    ensures { result ≡ unbuilt_exprs (exprs_of list.now) }
{
    for e in list {
        if is_expression_unbuilt(e) {
            return true;
        }
    }
    false
}

/// A variable, or a call.
#[cycle(is_expression_unbuilt)]
fn is_place_unbuilt(place: &EflPlace) -> bool
    ensures { result ≡ unbuilt_place (place_of place.now) }
{
    are_some_unbuilt(&place.subscripts) || have_steps(&place.steps)
}

/// What is stored into has neither subscripts nor steps.
fn is_target_unbuilt(place: &EflPlace) -> bool
    ensures { result ≡ unbuilt_target (place_of place.now) }
{
    !is_bare(&place.subscripts) || have_steps(&place.steps)
}

fn is_bare(list: &[EflExpr]) -> bool
    ensures { result ≡ is_bare_seen (exprs_of list.now) }
{
    list.is_empty()
}

fn have_steps(list: &[EflStep]) -> bool
    ensures { result ≡ not (ends (steps_of list.now)) }
{
    !list.is_empty()
}

fn is_some_unbuilt(e: &Option<EflExpr>) -> bool
    ensures { result ≡ unbuilt_if_any (expr_if_any e.now) }
{
    match e {
        None => false,
        Some(e) => is_expression_unbuilt(e),
    }
}

/// Whether a width is below 0 or above 65,535.
fn is_wide(width: i64) -> bool
    ensures { result ≡ is_wide_seen width }
{
    width < 0 || 65535 < width
}

fn is_edit_unbuilt(edit: EflEdit) -> bool
    ensures { result ≡ unbuilt_edit edit }
{
    match edit {
        EflEdit::Whole(width) => is_wide(width),
        EflEdit::Truth(width) => is_wide(width),
        EflEdit::Letter => false,
    }
}

fn is_written_unbuilt(item: &WriteItem) -> bool
    ensures { result ≡ unbuilt_written (write_item_of item.now) }
{
    match item {
        WriteItem::Value(e, edit) => is_expression_unbuilt(e) || is_edit_unbuilt(*edit),
        WriteItem::Skip(count) => is_wide(*count),
        WriteItem::Chars(_) => false,
    }
}

fn are_some_written_unbuilt(list: &[WriteItem]) -> bool
    ensures { result ≡ list_any unbuilt_written (map write_item_of list.now) }
{
    for item in list {
        if is_written_unbuilt(item) {
            return true;
        }
    }
    false
}

fn is_read_unbuilt(item: &ReadItem) -> bool
    ensures { result ≡ unbuilt_read (read_item_of item.now) }
{
    match item {
        ReadItem::Take(place, edit) => is_target_unbuilt(place) || is_edit_unbuilt(*edit),
        ReadItem::Skip(count) => is_wide(*count),
    }
}

fn are_some_read_unbuilt(list: &[ReadItem]) -> bool
    ensures { result ≡ list_any unbuilt_read (map read_item_of list.now) }
{
    for item in list {
        if is_read_unbuilt(item) {
            return true;
        }
    }
    false
}

/// Whether a form of a statement, without those in it, is not built.
pub fn is_statement_unbuilt(kind: &EflKind) -> bool
    ensures { result ≡ unbuilt_by (kind_of kind.now) }
{
    match kind {
        EflKind::Act(e) | EflKind::If(e, _, _) | EflKind::While(e, _) | EflKind::Switch(e, _) =>
            is_expression_unbuilt(e),
        EflKind::For(first, test, step, _) => {
            is_some_unbuilt(first) || (is_some_unbuilt(test) || is_some_unbuilt(step))
        }
        EflKind::Do(_, first, last, step, _) => {
            is_expression_unbuilt(first) || (is_expression_unbuilt(last) || is_some_unbuilt(step))
        }
        EflKind::Return(e) => is_some_unbuilt(e),
        EflKind::Write(unit, list) => is_some_unbuilt(unit) || are_some_written_unbuilt(list),
        EflKind::Read(unit, list) => is_some_unbuilt(unit) || are_some_read_unbuilt(list),
        EflKind::Repeat(_, None) | EflKind::Repeat(_, Some(_)) => false,
        EflKind::Empty
        | EflKind::Block(_, _)
        | EflKind::Break(_, _)
        | EflKind::Next(_, _)
        | EflKind::Goto(_) => false,
    }
}
