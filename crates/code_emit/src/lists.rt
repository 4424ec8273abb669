// The code of the lists of READ and WRITE.
ghost use Rattle.std.specs.Prelude.{◌≡◌, ◌+◌, ◌++◌, ◌∷◌, [], IfOk, OnOk, length, map};
ghost use Rattle.f66_tree.specs.Syntax.{Many};
ghost use Rattle.f66_tree.specs.Views.{formula_of, par_of, entry_of, entries_of};
ghost use Rattle.stack_code.specs.Instructions.{Item, LoopTurn, Row, Step};
ghost use Rattle.stack_code.specs.Views.{code_of, instruction_of};
ghost use Rattle.code_gen.specs.Expressions.{base_code};
ghost use Rattle.code_gen.specs.Statements.{start_code, whole_code, item_code, entry_code, items_code, entry_room, entries_room};

use crate::coded_unit::NamedUnit;
use crate::counting::{Counting, place_of, put_start};
use crate::operators::put;
use crate::rooms::{plus, room_of};
use crate::values::put_place;
use crate::variables::{put_base, put_pars};
use f66_tree::{Entry, Expr, Name, Par, Way};
use ground::Kind;
use stack_code::Op;
use std::alloc::AllocError;

fn item_op(way: Way, kind: Kind) -> Op
    ensures { instruction_of result ≡ Item way kind }
{
    match way {
        Way::Reading => Op::TakeItem(kind),
        Way::Writing => Op::PutItem(kind),
    }
}

fn row_op(way: Way, kind: Kind, count: u8) -> Op
    ensures { instruction_of result ≡ Row way kind count }
{
    match way {
        Way::Reading => Op::TakeRow(kind, count),
        Way::Writing => Op::PutRow(kind, count),
    }
}

/// Puts what follows the places of a name: of an array with these dimensions all its elements are an item.
fn put_whole<U: NamedUnit>(
    unit: &U,
    ops: &mut Vec<Op>,
    way: Way,
    kind: Kind,
    sizes: &[Par],
) -> Result<(), AllocError>
    ensures { OnOk result (code_of ops.new.items ≡ code_of ops.old.items ++ whole_code (U.layout unit.now) (U.number unit.now) way kind (map par_of sizes.now)) }
{
    if sizes.is_empty() {
        return put(ops, item_op(way, kind));
    }
    let Ok(count) = u8::try_from(sizes.len()) else {
        return Err(AllocError);
    };
    put_pars(unit, ops, sizes)?;
    put(ops, row_op(way, kind, count))
}

/// Puts the code of an item.
fn put_item<U: NamedUnit>(unit: &U, ops: &mut Vec<Op>, way: Way, e: &Expr) -> Result<(), AllocError>
    ensures { OnOk result (code_of ops.new.items ≡ code_of ops.old.items ++ item_code (U.layout unit.now) (U.number unit.now) way (formula_of e.now)) }
{
    match e {
        Expr::Ref(name) => {
            put_base(unit, ops, name)?;
            put_whole(unit, ops, way, unit.kind(name), unit.sizes(name))
        }
        Expr::Item(item) => {
            put_place(unit, ops, e)?;
            put(ops, item_op(way, unit.kind(&item.0)))
        }
        _ => Ok(()),
    }
}

/// How many spare storage units a part of a list takes.
#[cycle(entry_room)]
fn entry_room<U: NamedUnit>(unit: &U, entry: &Entry) -> Result<u32, AllocError>
    ensures { IfOk result (λ n. n ≡ entry_room ((U.layout unit.now).linked.context (U.number unit.now)) (entry_of entry.now)) }
{
    match entry {
        Entry::Item(e) => room_of(unit, e),
        Entry::Many(list, _, _, _, _) => {
            let room = entries_room(unit, list)?;
            plus(room, 2)
        }
    }
}

/// How many spare storage units a list takes.
#[cycle(entry_room)]
pub fn entries_room<U: NamedUnit>(unit: &U, list: &[Entry]) -> Result<u32, AllocError>
    ensures { IfOk result (λ n. n ≡ entries_room ((U.layout unit.now).linked.context (U.number unit.now)) (entries_of list.now)) }
{
    let mut sum = 0;
    for entry in list {
        let room = entry_room(unit, entry)?;
        sum = plus(sum, room)?;
    }
    Ok(sum)
}

/// The first of the two spare storage units of an implied DO.
fn limit_of<U: NamedUnit>(unit: &U, list: &[Entry]) -> Result<u32, AllocError>
    ensures { IfOk result (λ n. n ≡ (U.layout unit.now).spare (U.number unit.now) + entries_room ((U.layout unit.now).linked.context (U.number unit.now)) (entries_of list.now)) }
{
    let room = entries_room(unit, list)?;
    plus(unit.spare(), room)
}

/// Puts the beginning of an implied DO and of its turns; the first of its storage units, and the instruction at which a turn begins.
fn begin_many<U: NamedUnit>(
    unit: &U,
    ops: &mut Vec<Op>,
    list: &[Entry],
    variable: &Name,
    first: &Par,
    last: &Par,
    step: &Par,
) -> Result<(u32, u32), AllocError>
    ensures limit { IfOk result (λ r. r.0 ≡ (U.layout unit.now).spare (U.number unit.now) + entries_room ((U.layout unit.now).linked.context (U.number unit.now)) (entries_of list.now)) }
    ensures turn { IfOk result (λ r. r.1 + 1 ≡ length ops.new.items) }
    ensures code { IfOk result (λ r. code_of ops.new.items ≡ code_of ops.old.items ++ start_code (U.layout unit.now) (U.number unit.now) variable.now (par_of first.now) (par_of last.now) (par_of step.now) r.0 (r.0 + 1) ++ Step ∷ []) }
{
    let counting = Counting {
        variable,
        first,
        last,
        step,
    };
    let limit = limit_of(unit, list)?;
    let behind = plus(limit, 1)?;
    put_start(unit, ops, counting, limit, behind)?;
    let turn = place_of(ops)?;
    put(ops, Op::Step)?;
    Ok((limit, turn))
}

/// Puts the end of an implied DO.
fn end_many<U: NamedUnit>(
    unit: &U,
    ops: &mut Vec<Op>,
    variable: &Name,
    limit: u32,
    turn: u32,
) -> Result<(), AllocError>
    ensures { OnOk result (code_of ops.new.items ≡ code_of ops.old.items ++ (base_code (U.layout unit.now) (U.number unit.now) variable.now ∷ LoopTurn limit (limit + 1) turn ∷ [])) }
{
    let behind = plus(limit, 1)?;
    put_base(unit, ops, variable)?;
    put(ops, Op::LoopTurn(limit, behind, turn))
}

/// Puts the code of a part of a list.
#[cycle(entries)]
fn put_entry<U: NamedUnit>(
    unit: &U,
    ops: &mut Vec<Op>,
    way: Way,
    entry: &Entry,
) -> Result<(), AllocError>
    ensures { OnOk result (code_of ops.new.items ≡ code_of ops.old.items ++ entry_code (U.layout unit.now) (U.number unit.now) way (length ops.old.items) (entry_of entry.now)) }
{
    match entry {
        Entry::Item(e) => put_item(unit, ops, way, e),
        Entry::Many(list, variable, first, last, step) => {
            put_many(unit, ops, way, list, variable, first, last, step)
        }
    }
}

/// Puts the code of an implied DO.
#[cycle(entries)]
fn put_many<U: NamedUnit>(
    unit: &U,
    ops: &mut Vec<Op>,
    way: Way,
    list: &[Entry],
    variable: &Name,
    first: &Par,
    last: &Par,
    step: &Par,
) -> Result<(), AllocError>
    ensures { OnOk result (code_of ops.new.items ≡ code_of ops.old.items ++ entry_code (U.layout unit.now) (U.number unit.now) way (length ops.old.items) (Many (entries_of list.now) variable.now (par_of first.now) (par_of last.now) (par_of step.now))) }
{
    let begun = begin_many(unit, ops, list, variable, first, last, step)?;
    put_entries(unit, ops, way, list)?;
    end_many(unit, ops, variable, begun.0, begun.1)
}

/// Puts the code of a list.
#[cycle(entries)]
pub(crate) fn put_entries<U: NamedUnit>(
    unit: &U,
    ops: &mut Vec<Op>,
    way: Way,
    list: &[Entry],
) -> Result<(), AllocError>
    ensures { OnOk result (code_of ops.new.items ≡ code_of ops.old.items ++ items_code (U.layout unit.now) (U.number unit.now) way (length ops.old.items) (entries_of list.now)) }
{
    for entry in list {
        put_entry(unit, ops, way, entry)?;
    }
    Ok(())
}
