// Texts that are short, which is told without writing them.
ghost use Rattle.std.specs.Prelude.{◌≡◌, ◌+◌, ◌≤◌, [], true, length, IfSome};
ghost use Rattle.f66_tree.specs.Syntax.{Assign, Item};
ghost use Rattle.f66_tree.specs.Views.{act_of, formula_of, formulas_of};
ghost use Rattle.stmt_text.specs.Texts.{formula_text, statement_text};
ghost use Rattle.rat_check.specs.LongTexts.{texts_size};

use f66_tree::{Expr, Name, StmtKind};

/// Whether a statement is an assignment that is seen to be short.
pub fn is_short_assignment(kind: &StmtKind) -> bool
    ensures { result ≡ true → length (statement_text (act_of kind.now)) ≤ 1320 }
{
    match kind {
        StmtKind::Assign(place, value) => are_short(place, value),
        _ => false,
    }
}

fn are_short(place: &Expr, value: &Expr) -> bool
    ensures { result ≡ true → length (statement_text (Assign (formula_of place.now) (formula_of value.now))) ≤ 1320 }
{
    match room_behind(place, 1319) {
        Some(room) => room_behind(value, room).is_some(),
        None => false,
    }
}

/// What is left of a room behind the text of an expression, if not more; a number counts as 64 characters, and an operator as five.
/// None where that is not known to fit.
#[cycle(room)]
pub fn room_behind(e: &Expr, room: usize) -> Option<usize>
    ensures { IfSome result (λ left. length (formula_text (formula_of e.now) []) + left ≤ room) }
{
    match e {
        Expr::Int(_) => room.checked_sub(64),
        Expr::Truth(_) => room.checked_sub(7),
        Expr::Letter(_) => room.checked_sub(3),
        Expr::Ref(name) => room.checked_sub(name.as_bytes().len()),
        Expr::Item(item) => {
            let (name, list) = &**item;
            room_behind_item(name, list, room)
        }
        Expr::Group(a) => room_behind(a, room.checked_sub(2)?),
        Expr::Plus(a) => room_behind(a, room.checked_sub(1)?),
        Expr::Minus(a) => room_behind(a, room.checked_sub(1)?),
        Expr::Not(a) => room_behind(a, room.checked_sub(5)?),
        Expr::Pair(_, operands) => {
            let (a, b) = &**operands;
            let room = room_behind(a, room.checked_sub(5)?)?;
            room_behind(b, room)
        }
    }
}

#[cycle(room)]
fn room_behind_item(name: &Name, list: &[Expr], room: usize) -> Option<usize>
    ensures { IfSome result (λ left. length (formula_text (Item name.now (formulas_of list.now)) []) + left ≤ room) }
{
    let room = room.checked_sub(name.as_bytes().len())?;
    let room = room.checked_sub(2)?;
    room_behind_list(list, room)
}

#[cycle(room)]
fn room_behind_list(list: &[Expr], mut room: usize) -> Option<usize>
    ensures { IfSome result (λ left. texts_size (formulas_of list.now) + left ≤ room) }
{
    for e in list {
        room = room_behind(e, room.checked_sub(1)?)?;
    }
    Some(room)
}
