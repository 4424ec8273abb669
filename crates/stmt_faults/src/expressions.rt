// The numbers and names of expressions, parameters and entries.
ghost use Rattle.std.specs.Prelude.{◌≡◌, ◌||◌, map};
ghost use Rattle.std.specs.List.{list_any};
ghost use Rattle.f66_tree.specs.Syntax.{Many};
ghost use Rattle.f66_tree.specs.Views.{declared_of, entries_of, entry_of, formula_of, formulas_of, par_of};
ghost use Rattle.stmt_reader.specs.Faults.{declared_has, entries_have, entry_has, formula_has, formulas_have, par_has};
ghost use Rattle.stmt_faults.specs.Asking.{asked_of};

use crate::asking::Asked;
use f66_tree::{Declared, Entry, Expr, Name, Par};

/// Whether a number or name of an expression is such a one.
#[cycle(formula_has)]
pub fn formula_has(ask: Asked, e: &Expr) -> bool
    ensures { result ≡ formula_has (asked_of ask) (formula_of e.now) }
{
    match e {
        Expr::Int(value) => ask.of_number(*value),
        Expr::Truth(_) => false,
        Expr::Letter(_) => false,
        Expr::Ref(name) => ask.of_name(name),
        Expr::Item(item) => {
            let (name, list) = &**item;
            ask.of_name(name) || formulas_have(ask, list)
        }
        Expr::Group(a) => formula_has(ask, a),
        Expr::Plus(a) => formula_has(ask, a),
        Expr::Minus(a) => formula_has(ask, a),
        Expr::Not(a) => formula_has(ask, a),
        Expr::Pair(_, operands) => {
            let (a, b) = &**operands;
            formula_has(ask, a) || formula_has(ask, b)
        }
    }
}

/// The same of a list of expressions.
#[cycle(formula_has)]
pub fn formulas_have(ask: Asked, list: &[Expr]) -> bool
    ensures { result ≡ formulas_have (asked_of ask) (formulas_of list.now) }
{
    for e in list {
        if formula_has(ask, e) {
            return true;
        }
    }
    false
}

/// Whether a parameter has what is asked for.
pub fn par_has(ask: Asked, par: &Par) -> bool
    ensures { result ≡ par_has (asked_of ask) (par_of par.now) }
{
    match par {
        Par::Number(value) => ask.of_number(*value),
        Par::Variable(name) => ask.of_name(name),
    }
}

fn pars_have(ask: Asked, list: &[Par]) -> bool
    ensures { result ≡ list_any (par_has (asked_of ask)) (map par_of list.now) }
{
    for par in list {
        if par_has(ask, par) {
            return true;
        }
    }
    false
}

fn declared_has(ask: Asked, declared: &Declared) -> bool
    ensures { result ≡ declared_has (asked_of ask) (declared_of declared.now) }
{
    ask.of_name(&declared.name) || pars_have(ask, &declared.sizes)
}

/// The same of names with dimensions.
pub fn declarations_have(ask: Asked, list: &[Declared]) -> bool
    ensures { result ≡ list_any (declared_has (asked_of ask)) (map declared_of list.now) }
{
    for declared in list {
        if declared_has(ask, declared) {
            return true;
        }
    }
    false
}

#[cycle(entries_have)]
fn entry_has(ask: Asked, entry: &Entry) -> bool
    ensures { result ≡ entry_has (asked_of ask) (entry_of entry.now) }
{
    match entry {
        Entry::Item(e) => formula_has(ask, e),
        Entry::Many(list, variable, first, last, step) => {
            many_has(ask, list, variable, first, last, step)
        }
    }
}

#[cycle(entries_have)]
fn many_has(
    ask: Asked,
    list: &[Entry],
    variable: &Name,
    first: &Par,
    last: &Par,
    step: &Par,
) -> bool
    ensures { result ≡ entry_has (asked_of ask) (Many (entries_of list.now) variable.now (par_of first.now) (par_of last.now) (par_of step.now)) }
{
    entries_have(ask, list) || control_has(ask, variable, first, last, step)
}

fn control_has(ask: Asked, variable: &Name, first: &Par, last: &Par, step: &Par) -> bool
    ensures { result ≡ (((asked_of ask).name variable.now || par_has (asked_of ask) (par_of first.now)) || (par_has (asked_of ask) (par_of last.now) || par_has (asked_of ask) (par_of step.now))) }
{
    (ask.of_name(variable) || par_has(ask, first)) || (par_has(ask, last) || par_has(ask, step))
}

/// The same of the list of a READ or WRITE.
#[cycle(entries_have)]
pub fn entries_have(ask: Asked, list: &[Entry]) -> bool
    ensures { result ≡ entries_have (asked_of ask) (entries_of list.now) }
{
    for entry in list {
        if entry_has(ask, entry) {
            return true;
        }
    }
    false
}
