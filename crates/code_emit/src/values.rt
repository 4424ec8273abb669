// The code of expressions.
ghost use Rattle.std.specs.Prelude.{◌≡◌, ◌++◌, ◌∷◌, [], OnOk, length, map};
ghost use Rattle.f66_tree.specs.Evaluation.{names_place};
ghost use Rattle.f66_tree.specs.Syntax as f66;
ghost use Rattle.f66_tree.specs.Views.{formula_of, formulas_of, par_of};
ghost use Rattle.stack_code.specs.Instructions.{PushSpot, Forget, Call, Load, Element};
ghost use Rattle.stack_code.specs.Views.{code_of};
ghost use Rattle.code_gen.specs.Expressions.{count, actual_code, called_code, element_code, pars_code, place_code, value_code, values_code, actuals_code};

use crate::coded_unit::{Callee, NamedUnit};
use crate::operators::{load_op, operator_op, put};
use crate::rooms::{count_of, names_place, plus, room_of, room_to_hand, rooms_to_hand};
use crate::sorts::{NameSort, number_of, sort};
use crate::variables::{put_base, put_pars, put_variable};
use f66_tree::{Expr, Name, Par};
use ground::Kind;
use stack_code::Op;
use std::alloc::AllocError;

/// Puts the dimensions of an array and the instruction that makes the spot of its element.
fn put_dimensions<U: NamedUnit>(
    unit: &U,
    ops: &mut Vec<Op>,
    sizes: &[Par],
) -> Result<(), AllocError>
    ensures { OnOk result (code_of ops.new.items ≡ code_of ops.old.items ++ (pars_code (U.layout unit.now) (U.number unit.now) (map par_of sizes.now) ++ Element (length (map par_of sizes.now)) ∷ [])) }
{
    let Ok(count) = u8::try_from(sizes.len()) else {
        return Err(AllocError);
    };
    put_pars(unit, ops, sizes)?;
    put(ops, Op::Element(count))
}

/// Puts the call of a function behind its actuals, with its own name undefined at first and its value loaded.
fn put_call(ops: &mut Vec<Op>, callee: Callee, list: &[Expr], kind: Kind) -> Result<(), AllocError>
    ensures { OnOk result (code_of ops.new.items ≡ code_of ops.old.items ++ (PushSpot callee.first callee.size ∷ Forget ∷ Call callee.entry (count (formulas_of list.now)) ∷ PushSpot callee.first callee.size ∷ Load kind ∷ [])) }
{
    let count = count_of(list)?;
    put(ops, Op::Spot(callee.first, callee.size))?;
    put(ops, Op::Forget)?;
    put(ops, Op::Call(callee.entry, count))?;
    put(ops, Op::Spot(callee.first, callee.size))?;
    put(ops, load_op(kind))
}

/// Puts the code of the value of an expression.
#[cycle(values)]
pub(crate) fn put_value<U: NamedUnit>(
    unit: &U,
    ops: &mut Vec<Op>,
    e: &Expr,
) -> Result<(), AllocError>
    ensures { OnOk result (code_of ops.new.items ≡ code_of ops.old.items ++ value_code (U.layout unit.now) (U.number unit.now) (formula_of e.now)) }
{
    match e {
        Expr::Int(value) => put(ops, Op::PushInt(*value)),
        Expr::Truth(value) => put(ops, Op::PushLog(*value)),
        Expr::Letter(code) => put(ops, Op::PushInt(i64::from(*code))),
        Expr::Ref(name) => put_variable(unit, ops, name),
        Expr::Item(item) => {
            let (name, list) = &**item;
            put_applied(unit, ops, name, list)
        }
        Expr::Group(a) => put_value(unit, ops, a),
        Expr::Plus(a) => put_value(unit, ops, a),
        Expr::Minus(a) => {
            put_value(unit, ops, a)?;
            put(ops, Op::Minus)
        }
        Expr::Not(a) => {
            put_value(unit, ops, a)?;
            put(ops, Op::Not)
        }
        Expr::Pair(operator, operands) => {
            let (a, b) = &**operands;
            put_value(unit, ops, a)?;
            put_value(unit, ops, b)?;
            put(ops, operator_op(*operator))
        }
    }
}

/// Puts the code of the value of an element, or of a function's value.
#[cycle(values)]
fn put_applied<U: NamedUnit>(
    unit: &U,
    ops: &mut Vec<Op>,
    name: &Name,
    list: &[Expr],
) -> Result<(), AllocError>
    ensures { OnOk result (code_of ops.new.items ≡ code_of ops.old.items ++ value_code (U.layout unit.now) (U.number unit.now) (f66.Item name.now (formulas_of list.now))) }
{
    match sort(unit, name) {
        NameSort::Array(sizes) => {
            put_element(unit, ops, name, sizes, list)?;
            put(ops, load_op(unit.kind(name)))
        }
        NameSort::Intrinsic(known) => {
            let count = count_of(list)?;
            put_values(unit, ops, list)?;
            put(ops, Op::Known(number_of(known), count))
        }
        NameSort::Function => put_called(unit, ops, name, list),
    }
}

/// Puts the code of the place of an element of an array with these dimensions.
#[cycle(values)]
fn put_element<U: NamedUnit>(
    unit: &U,
    ops: &mut Vec<Op>,
    name: &Name,
    sizes: &[Par],
    list: &[Expr],
) -> Result<(), AllocError>
    ensures { OnOk result (code_of ops.new.items ≡ code_of ops.old.items ++ element_code (U.layout unit.now) (U.number unit.now) name.now (map par_of sizes.now) (values_code (U.layout unit.now) (U.number unit.now) (formulas_of list.now))) }
{
    put_base(unit, ops, name)?;
    put_values(unit, ops, list)?;
    put_dimensions(unit, ops, sizes)
}

/// Puts the code of the value of a function of the program.
#[cycle(values)]
fn put_called<U: NamedUnit>(
    unit: &U,
    ops: &mut Vec<Op>,
    name: &Name,
    list: &[Expr],
) -> Result<(), AllocError>
    ensures { OnOk result (code_of ops.new.items ≡ code_of ops.old.items ++ called_code (U.layout unit.now) (U.number unit.now) name.now ((U.layout unit.now).linked.find name.now) (count (formulas_of list.now)) (actuals_code (U.layout unit.now) (U.number unit.now) (formulas_of list.now))) }
{
    match unit.callee(name) {
        None => Ok(()),
        Some(callee) => {
            put_actuals(unit, ops, list)?;
            put_call(ops, callee, list, unit.kind(name))
        }
    }
}

/// Puts the code of the values of expressions, from left to right.
#[cycle(values)]
fn put_values<U: NamedUnit>(unit: &U, ops: &mut Vec<Op>, list: &[Expr]) -> Result<(), AllocError>
    ensures { OnOk result (code_of ops.new.items ≡ code_of ops.old.items ++ values_code (U.layout unit.now) (U.number unit.now) (formulas_of list.now)) }
{
    for e in list {
        put_value(unit, ops, e)?;
    }
    Ok(())
}

/// Puts the code of the place that an expression names, if it names one.
#[cycle(values)]
pub(crate) fn put_place<U: NamedUnit>(
    unit: &U,
    ops: &mut Vec<Op>,
    e: &Expr,
) -> Result<(), AllocError>
    ensures { OnOk result (code_of ops.new.items ≡ code_of ops.old.items ++ place_code (U.layout unit.now) (U.number unit.now) (formula_of e.now)) }
{
    match e {
        Expr::Ref(name) => put_base(unit, ops, name),
        Expr::Item(item) => {
            let (name, list) = &**item;
            put_item_place(unit, ops, name, list)
        }
        _ => Ok(()),
    }
}

#[cycle(values)]
fn put_item_place<U: NamedUnit>(
    unit: &U,
    ops: &mut Vec<Op>,
    name: &Name,
    list: &[Expr],
) -> Result<(), AllocError>
    ensures { OnOk result (code_of ops.new.items ≡ code_of ops.old.items ++ place_code (U.layout unit.now) (U.number unit.now) (f66.Item name.now (formulas_of list.now))) }
{
    match sort(unit, name) {
        NameSort::Array(sizes) => put_element(unit, ops, name, sizes, list),
        NameSort::Intrinsic(_) | NameSort::Function => Ok(()),
    }
}

/// Puts the code of an actual: a place, or a value that is lent in this storage unit.
#[cycle(values)]
fn put_actual<U: NamedUnit>(
    unit: &U,
    ops: &mut Vec<Op>,
    e: &Expr,
    at: u32,
) -> Result<(), AllocError>
    ensures { OnOk result (code_of ops.new.items ≡ code_of ops.old.items ++ actual_code (names_place ((U.layout unit.now).linked.context (U.number unit.now)) (formula_of e.now)) at (place_code (U.layout unit.now) (U.number unit.now) (formula_of e.now)) (value_code (U.layout unit.now) (U.number unit.now) (formula_of e.now))) }
{
    if names_place(unit, e) {
        put_place(unit, ops, e)
    } else {
        put_value(unit, ops, e)?;
        put(ops, Op::Lend(at))
    }
}

/// Puts the code of actuals, from left to right. The storage unit of a value lies above those of the later ones.
#[cycle(values)]
pub(crate) fn put_actuals<U: NamedUnit>(
    unit: &U,
    ops: &mut Vec<Op>,
    list: &[Expr],
) -> Result<(), AllocError>
    ensures { OnOk result (code_of ops.new.items ≡ code_of ops.old.items ++ actuals_code (U.layout unit.now) (U.number unit.now) (formulas_of list.now)) }
{
    let mut above = rooms_to_hand(unit, list)?;
    for e in list {
        let room = room_of(unit, e)?;
        above -= room_to_hand(unit, e)?;
        let own = plus(room, above)?;
        let at = plus(unit.spare(), own)?;
        put_actual(unit, ops, e, at)?;
    }
    Ok(())
}
