// How many spare storage units a unit takes.
ghost use Rattle.std.specs.Prelude.{◌≡◌, ◌+◌, IfOk, length};
ghost use Rattle.f66_tree.specs.Views.{act_of, formula_of, lines_of};
ghost use Rattle.code_gen.specs.Coded.{act_room};
ghost use Rattle.code_gen.specs.Expressions.{room_of};
ghost use Rattle.code_gen.specs.LayingOut.{most_room, need};

use crate::sums::plus;
use code_emit::{NamedUnit, entries_room, room_of, rooms_to_hand};
use f66_tree::{Expr, Stmt, StmtKind};
use std::alloc::AllocError;

/// How many a statement takes.
fn act_room<U: NamedUnit>(unit: &U, kind: &StmtKind) -> Result<u32, AllocError>
    ensures { IfOk result (λ n. n ≡ act_room ((U.layout unit.now).linked.context (U.number unit.now)) (act_of kind.now)) }
{
    match kind {
        StmtKind::Assign(place, value) => both_rooms(unit, place, value),
        StmtKind::Sign(e, _, _, _) => room_of(unit, e),
        StmtKind::When(test, inner) => {
            let room = room_of(unit, test)?;
            let within = act_room(unit, inner)?;
            plus(room, within)
        }
        StmtKind::Invoke(_, list) => rooms_to_hand(unit, list),
        StmtKind::Read(_, _, list) => entries_room(unit, list),
        StmtKind::Write(_, _, list) => entries_room(unit, list),
        _ => Ok(0),
    }
}

fn both_rooms<U: NamedUnit>(unit: &U, first: &Expr, second: &Expr) -> Result<u32, AllocError>
    ensures { IfOk result (λ n. n ≡ room_of ((U.layout unit.now).linked.context (U.number unit.now)) (formula_of first.now) + room_of ((U.layout unit.now).linked.context (U.number unit.now)) (formula_of second.now)) }
{
    let one = room_of(unit, first)?;
    let other = room_of(unit, second)?;
    plus(one, other)
}

/// The most that one of the unit's statements takes.
pub(crate) fn most_room<U: NamedUnit>(unit: &U) -> Result<u32, AllocError>
    ensures { IfOk result (λ n. n ≡ most_room ((U.layout unit.now).linked.context (U.number unit.now)) ((U.layout unit.now).lines (U.number unit.now))) }
{
    let mut most = 0;
    let statements = unit.statements();
    for statement in statements {
        let room = act_room(unit, &statement.kind)?;
        if most < room {
            most = room;
        }
    }
    Ok(most)
}

/// Two storage units for each statement.
pub(crate) fn doubled(statements: &[Stmt]) -> Result<u32, AllocError>
    ensures { IfOk result (λ n. n ≡ length (lines_of statements.now) + length (lines_of statements.now)) }
{
    match u32::try_from(statements.len()) {
        Ok(count) => plus(count, count),
        Err(_) => Err(AllocError),
    }
}

/// How many storage units a unit takes besides those of its names.
pub(crate) fn need_of<U: NamedUnit>(unit: &U) -> Result<u32, AllocError>
    ensures { IfOk result (λ n. n ≡ need (U.layout unit.now).linked (U.layout unit.now).lines (U.number unit.now)) }
{
    let room = most_room(unit)?;
    let counts = doubled(unit.statements())?;
    plus(room, counts)
}
