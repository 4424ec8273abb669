// How many spare storage units expressions take.
ghost use Rattle.std.specs.Prelude.{◌≡◌, ◌+◌, ℕ, IfOk};
ghost use Rattle.f66_tree.specs.Evaluation.{names_place};
ghost use Rattle.f66_tree.specs.Syntax as f66;
ghost use Rattle.f66_tree.specs.Views.{formula_of, formulas_of};
ghost use Rattle.code_gen.specs.Expressions.{count, room_of, rooms_of, rooms_to_hand, actual_room};

use crate::coded_unit::NamedUnit;
use crate::sorts::{NameSort, sort};
use f66_tree::{Expr, Name};
use std::alloc::AllocError;

/// A sum; more than any memory has use for is refused.
pub(crate) fn plus(a: u32, b: u32) -> Result<u32, AllocError>
    ensures { IfOk result (λ n. n ≡ a + b) }
{
    match a.checked_add(b) {
        Some(sum) => Ok(sum),
        None => Err(AllocError),
    }
}

/// How many expressions a list has.
pub(crate) fn count_of(list: &[Expr]) -> Result<u32, AllocError>
    ensures { IfOk result (λ n. n ≡ count (formulas_of list.now)) }
{
    match u32::try_from(list.len()) {
        Ok(count) => Ok(count),
        Err(_) => Err(AllocError),
    }
}

/// Whether an actual is a place, and not a value.
pub(crate) fn names_place<U: NamedUnit>(unit: &U, e: &Expr) -> bool
    ensures { result ≡ names_place ((U.layout unit.now).linked.context (U.number unit.now)) (formula_of e.now) }
{
    match e {
        Expr::Ref(_) => true,
        Expr::Item(item) => matches!(sort(unit, &item.0), NameSort::Array(_)),
        _ => false,
    }
}

/// How many spare storage units an expression takes.
#[cycle(room)]
pub fn room_of<U: NamedUnit>(unit: &U, e: &Expr) -> Result<u32, AllocError>
    ensures { IfOk result (λ n. n ≡ room_of ((U.layout unit.now).linked.context (U.number unit.now)) (formula_of e.now)) }
{
    match e {
        Expr::Item(item) => {
            let (name, list) = &**item;
            room_of_item(unit, name, list)
        }
        Expr::Group(a) => room_of(unit, a),
        Expr::Plus(a) => room_of(unit, a),
        Expr::Minus(a) => room_of(unit, a),
        Expr::Not(a) => room_of(unit, a),
        Expr::Pair(_, operands) => {
            let (a, b) = &**operands;
            let first = room_of(unit, a)?;
            let second = room_of(unit, b)?;
            plus(first, second)
        }
        _ => Ok(0),
    }
}

#[cycle(room)]
fn room_of_item<U: NamedUnit>(unit: &U, name: &Name, list: &[Expr]) -> Result<u32, AllocError>
    ensures { IfOk result (λ n. n ≡ room_of ((U.layout unit.now).linked.context (U.number unit.now)) (f66.Item name.now (formulas_of list.now))) }
{
    match sort(unit, name) {
        NameSort::Function => rooms_to_hand(unit, list),
        NameSort::Array(_) | NameSort::Intrinsic(_) => rooms_of(unit, list),
    }
}

#[cycle(room)]
fn rooms_of<U: NamedUnit>(unit: &U, list: &[Expr]) -> Result<u32, AllocError>
    ensures { IfOk result (λ n. n ≡ rooms_of ((U.layout unit.now).linked.context (U.number unit.now)) (formulas_of list.now)) }
{
    let mut sum = 0;
    for e in list {
        let room = room_of(unit, e)?;
        sum = plus(sum, room)?;
    }
    Ok(sum)
}

/// How many an actual takes, with its own one if it is a value.
#[cycle(room)]
pub(crate) fn room_to_hand<U: NamedUnit>(unit: &U, e: &Expr) -> Result<u32, AllocError>
    ensures { IfOk result (λ n. (others : ℕ) →
        actual_room (names_place ((U.layout unit.now).linked.context (U.number unit.now)) (formula_of e.now)) (room_of ((U.layout unit.now).linked.context (U.number unit.now)) (formula_of e.now) + others) ≡ n + others) }
{
    let room = room_of(unit, e)?;
    if names_place(unit, e) {
        Ok(room)
    } else {
        plus(room, 1)
    }
}

/// How many actuals take.
#[cycle(room)]
pub fn rooms_to_hand<U: NamedUnit>(unit: &U, list: &[Expr]) -> Result<u32, AllocError>
    ensures { IfOk result (λ n. n ≡ rooms_to_hand ((U.layout unit.now).linked.context (U.number unit.now)) (formulas_of list.now)) }
{
    let mut sum = 0;
    for e in list {
        let room = room_to_hand(unit, e)?;
        sum = plus(sum, room)?;
    }
    Ok(sum)
}
