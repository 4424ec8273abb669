// How long the code of expressions and lists is, without the code.
ghost use Rattle.std.specs.Prelude.{◌≡◌, ◌≤◌, IfOk, map};
ghost use Rattle.f66_tree.specs.Evaluation.{names_place};
ghost use Rattle.f66_tree.specs.Syntax as f66;
ghost use Rattle.f66_tree.specs.Views.{entries_of, entry_of, formula_of, formulas_of, par_of};
ghost use Rattle.code_emit.specs.Sizes.{actual_size, actuals_size, called_size, counting_size, element_size, item_size, list_size, par_size, pars_size, part_size, place_size, value_size, values_size};

use crate::coded_unit::NamedUnit;
use crate::counting::Counting;
use crate::rooms::{names_place, plus};
use crate::sorts::{NameSort, sort};
use f66_tree::{Entry, Expr, Name, Par};
use std::alloc::AllocError;

/// How long the code of a parameter is.
pub(crate) fn par_size(par: &Par) -> u32
    ensures size { result ≡ par_size (par_of par.now) }
    ensures small { result ≤ 2 }
{
    match par {
        Par::Number(_) => 1,
        Par::Variable(_) => 2,
    }
}

fn pars_size(pars: &[Par]) -> Result<u32, AllocError>
    ensures { IfOk result (λ n. n ≡ pars_size (map par_of pars.now)) }
{
    let mut sum = 0;
    for par in pars {
        sum = plus(sum, par_size(par))?;
    }
    Ok(sum)
}

/// How long the code of the beginning of a DO is.
pub(crate) fn counting_size(counting: Counting<'_>) -> u32
    ensures { result ≡ counting_size (par_of counting.entry.first.now) (par_of counting.entry.last.now) (par_of counting.entry.step.now) }
{
    2 + par_size(counting.first) + par_size(counting.last) + par_size(counting.step)
}

/// How long the code of the value of an expression is.
#[cycle(sizes)]
pub(crate) fn value_size<U: NamedUnit>(unit: &U, e: &Expr) -> Result<u32, AllocError>
    ensures { IfOk result (λ n. n ≡ value_size (U.layout unit.now) (U.number unit.now) (formula_of e.now)) }
{
    match e {
        Expr::Int(_) | Expr::Truth(_) | Expr::Letter(_) => Ok(1),
        Expr::Ref(_) => Ok(2),
        Expr::Item(item) => {
            let (name, list) = &**item;
            applied_size(unit, name, list)
        }
        Expr::Group(a) => value_size(unit, a),
        Expr::Plus(a) => value_size(unit, a),
        Expr::Minus(a) => {
            let size = value_size(unit, a)?;
            plus(size, 1)
        }
        Expr::Not(a) => {
            let size = value_size(unit, a)?;
            plus(size, 1)
        }
        Expr::Pair(_, operands) => {
            let (a, b) = &**operands;
            let first = value_size(unit, a)?;
            let second = value_size(unit, b)?;
            let both = plus(first, second)?;
            plus(both, 1)
        }
    }
}

#[cycle(sizes)]
fn applied_size<U: NamedUnit>(unit: &U, name: &Name, list: &[Expr]) -> Result<u32, AllocError>
    ensures { IfOk result (λ n. n ≡ value_size (U.layout unit.now) (U.number unit.now) (f66.Item name.now (formulas_of list.now))) }
{
    match sort(unit, name) {
        NameSort::Array(sizes) => {
            let size = element_size(unit, sizes, list)?;
            plus(size, 1)
        }
        NameSort::Intrinsic(_) => {
            let size = values_size(unit, list)?;
            plus(size, 1)
        }
        NameSort::Function => called_size(unit, name, list),
    }
}

#[cycle(sizes)]
fn element_size<U: NamedUnit>(unit: &U, sizes: &[Par], list: &[Expr]) -> Result<u32, AllocError>
    ensures { IfOk result (λ n. n ≡ element_size (map par_of sizes.now) (values_size (U.layout unit.now) (U.number unit.now) (formulas_of list.now))) }
{
    let subscripts = values_size(unit, list)?;
    let dimensions = pars_size(sizes)?;
    let both = plus(subscripts, dimensions)?;
    plus(both, 2)
}

#[cycle(sizes)]
fn called_size<U: NamedUnit>(unit: &U, name: &Name, list: &[Expr]) -> Result<u32, AllocError>
    ensures { IfOk result (λ n. n ≡ called_size ((U.layout unit.now).linked.find name.now) (actuals_size (U.layout unit.now) (U.number unit.now) (formulas_of list.now))) }
{
    match unit.callee(name) {
        None => Ok(0),
        Some(_) => {
            let size = actuals_size(unit, list)?;
            plus(size, 5)
        }
    }
}

#[cycle(sizes)]
fn values_size<U: NamedUnit>(unit: &U, list: &[Expr]) -> Result<u32, AllocError>
    ensures { IfOk result (λ n. n ≡ values_size (U.layout unit.now) (U.number unit.now) (formulas_of list.now)) }
{
    let mut sum = 0;
    for e in list {
        let size = value_size(unit, e)?;
        sum = plus(sum, size)?;
    }
    Ok(sum)
}

/// How long the code of a place is.
#[cycle(sizes)]
pub(crate) fn place_size<U: NamedUnit>(unit: &U, e: &Expr) -> Result<u32, AllocError>
    ensures { IfOk result (λ n. n ≡ place_size (U.layout unit.now) (U.number unit.now) (formula_of e.now)) }
{
    match e {
        Expr::Ref(_) => Ok(1),
        Expr::Item(item) => {
            let (name, list) = &**item;
            item_place_size(unit, name, list)
        }
        _ => Ok(0),
    }
}

#[cycle(sizes)]
fn item_place_size<U: NamedUnit>(unit: &U, name: &Name, list: &[Expr]) -> Result<u32, AllocError>
    ensures { IfOk result (λ n. n ≡ place_size (U.layout unit.now) (U.number unit.now) (f66.Item name.now (formulas_of list.now))) }
{
    match sort(unit, name) {
        NameSort::Array(sizes) => element_size(unit, sizes, list),
        NameSort::Intrinsic(_) | NameSort::Function => Ok(0),
    }
}

#[cycle(sizes)]
fn actual_size<U: NamedUnit>(unit: &U, e: &Expr) -> Result<u32, AllocError>
    ensures { IfOk result (λ n. n ≡ actual_size (names_place ((U.layout unit.now).linked.context (U.number unit.now)) (formula_of e.now)) (place_size (U.layout unit.now) (U.number unit.now) (formula_of e.now)) (value_size (U.layout unit.now) (U.number unit.now) (formula_of e.now))) }
{
    if names_place(unit, e) {
        place_size(unit, e)
    } else {
        let size = value_size(unit, e)?;
        plus(size, 1)
    }
}

/// How long the code of actuals is.
#[cycle(sizes)]
pub(crate) fn actuals_size<U: NamedUnit>(unit: &U, list: &[Expr]) -> Result<u32, AllocError>
    ensures { IfOk result (λ n. n ≡ actuals_size (U.layout unit.now) (U.number unit.now) (formulas_of list.now)) }
{
    let mut sum = 0;
    for e in list {
        let size = actual_size(unit, e)?;
        sum = plus(sum, size)?;
    }
    Ok(sum)
}

fn item_size<U: NamedUnit>(unit: &U, e: &Expr) -> Result<u32, AllocError>
    ensures { IfOk result (λ n. n ≡ item_size (U.layout unit.now) (U.number unit.now) (formula_of e.now)) }
{
    match e {
        Expr::Ref(name) => {
            let size = pars_size(unit.sizes(name))?;
            plus(size, 2)
        }
        Expr::Item(_) => {
            let size = place_size(unit, e)?;
            plus(size, 1)
        }
        _ => Ok(0),
    }
}

#[cycle(list_size)]
fn part_size<U: NamedUnit>(unit: &U, entry: &Entry) -> Result<u32, AllocError>
    ensures { IfOk result (λ n. n ≡ part_size (U.layout unit.now) (U.number unit.now) (entry_of entry.now)) }
{
    match entry {
        Entry::Item(e) => item_size(unit, e),
        Entry::Many(list, variable, first, last, step) => {
            let counting = Counting {
                variable,
                first,
                last,
                step,
            };
            let size = list_size(unit, list)?;
            let whole = plus(size, counting_size(counting))?;
            plus(whole, 3)
        }
    }
}

/// How long the code of a list is.
#[cycle(list_size)]
pub(crate) fn list_size<U: NamedUnit>(unit: &U, list: &[Entry]) -> Result<u32, AllocError>
    ensures { IfOk result (λ n. n ≡ list_size (U.layout unit.now) (U.number unit.now) (entries_of list.now)) }
{
    let mut sum = 0;
    for entry in list {
        let size = part_size(unit, entry)?;
        sum = plus(sum, size)?;
    }
    Ok(sum)
}
