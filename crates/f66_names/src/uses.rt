// The names that statements use.
ghost use Rattle.std.specs.Prelude.{◌≡◌, ◌++◌, ◌∷◌, [], map, OnOk, IfOk};
ghost use Rattle.std.specs.List.{flat_map};
ghost use Rattle.f66_tree.specs.Views.{formula_of, formulas_of, par_of, declared_of, entry_of, entries_of, act_of};
ghost use Rattle.f66_names.specs.Uses.{usage, uses_of, uses_of_all, uses_of_target, uses_of_par, uses_of_counting, uses_of_entry, uses_of_entries, uses_of_sizes, uses_in};
ghost use Rattle.f66_names.specs.UseViews.{use_of};
ghost use Rattle.f66_names.specs.ActViews.{act_said};

use crate::{Manner, Saying};
use f66_tree::{Counting, Declared, Entry, Expr, Name, Par, StmtKind};
use std::alloc::{AllocError, Global};

/// A name where it stands in a statement.
#[derive(Drop)]
pub struct Use<'a> {
    pub name: &'a Name,
    pub manner: Manner,
}

/// The names that a statement uses.
pub fn uses_of_statement<'a>(alloc: Global, kind: &'a StmtKind) -> Result<Vec<Use<'a>>, AllocError>
    ensures { IfOk result (λ v. map use_of v.items ≡ uses_in (act_of kind.now)) }
{
    let mut uses = Vec::new(alloc);
    collect_in(kind, &mut uses)?;
    Ok(uses)
}

/// The names that a statement or a part of one uses.
pub fn uses_of_saying<'a>(alloc: Global, saying: &Saying<'a>) -> Result<Vec<Use<'a>>, AllocError>
    ensures { IfOk result (λ v. map use_of v.items ≡ uses_in (act_said saying.now)) }
{
    let mut uses = Vec::new(alloc);
    collect_in_saying(saying, &mut uses)?;
    Ok(uses)
}

/// Adds the names that a statement uses.
pub fn collect_in<'a>(kind: &'a StmtKind, uses: &mut Vec<Use<'a>>) -> Result<(), AllocError>
    ensures { OnOk result (map use_of uses.new.items ≡ map use_of uses.old.items ++ uses_in (act_of kind.now)) }
{
    match kind {
        StmtKind::Assign(target, value) => {
            collect_target(target, uses)?;
            collect(value, uses)
        }
        StmtKind::Computed(_, index) => add(index, Manner::Alone, uses),
        StmtKind::Sign(e, _, _, _) => collect(e, uses),
        StmtKind::When(test, inner) => {
            collect(test, uses)?;
            collect_in(inner, uses)
        }
        StmtKind::Loop(_, counting) => {
            let Counting {
                variable,
                first,
                last,
                step,
            } = &**counting;
            collect_counting(variable, first, last, step, uses)
        }
        StmtKind::Read(unit, _, list) => {
            collect_par(unit, uses)?;
            collect_entries(list, uses)
        }
        StmtKind::Write(unit, _, list) => {
            collect_par(unit, uses)?;
            collect_entries(list, uses)
        }
        StmtKind::Typed(_, list) => collect_sizes(list, uses),
        StmtKind::Dimension(list) => collect_sizes(list, uses),
        _ => Ok(()),
    }
}

/// Adds the names that a statement or a part of one uses.
pub fn collect_in_saying<'a>(saying: &Saying<'a>, uses: &mut Vec<Use<'a>>) -> Result<(), AllocError>
    ensures { OnOk result (map use_of uses.new.items ≡ map use_of uses.old.items ++ uses_in (act_said saying.now)) }
{
    match *saying {
        Saying::Act(kind) => collect_in(kind, uses),
        Saying::Condition(e) => collect(e, uses),
        Saying::Value(e) => collect(e, uses),
        Saying::Counting(variable, first, last, step) => {
            collect_counting(variable, first, last, step, uses)
        }
        Saying::Returned(name, value) => {
            add(name, Manner::Alone, uses)?;
            collect(value, uses)
        }
    }
}

/// Adds the variable and the parameters of a DO.
fn collect_counting<'a>(
    variable: &'a Name,
    first: &'a Par,
    last: &'a Par,
    step: &'a Par,
    uses: &mut Vec<Use<'a>>,
) -> Result<(), AllocError>
    ensures { OnOk result
        (map use_of uses.new.items
        ≡ map use_of uses.old.items ++ uses_of_counting variable.now (par_of first.now) (par_of last.now) (par_of step.now)) }
{
    add(variable, Manner::Alone, uses)?;
    collect_par(first, uses)?;
    collect_par(last, uses)?;
    collect_par(step, uses)
}

fn add<'a>(name: &'a Name, manner: Manner, uses: &mut Vec<Use<'a>>) -> Result<(), AllocError>
    ensures { OnOk result (map use_of uses.new.items ≡ map use_of uses.old.items ++ usage name.now manner ∷ []) }
{
    uses.push(Use { name, manner })?;
    Ok(())
}

#[cycle(collect)]
fn collect<'a>(e: &'a Expr, uses: &mut Vec<Use<'a>>) -> Result<(), AllocError>
    ensures { OnOk result (map use_of uses.new.items ≡ map use_of uses.old.items ++ uses_of (formula_of e.now)) }
{
    match e {
        Expr::Int(_) | Expr::Truth(_) | Expr::Letter(_) => Ok(()),
        Expr::Ref(name) => add(name, Manner::Alone, uses),
        Expr::Item(item) => {
            let (name, list) = &**item;
            add(name, Manner::With(list.len()), uses)?;
            collect_all(list, uses)
        }
        Expr::Group(a) => collect(a, uses),
        Expr::Plus(a) => collect(a, uses),
        Expr::Minus(a) => collect(a, uses),
        Expr::Not(a) => collect(a, uses),
        Expr::Pair(_, operands) => {
            let (a, b) = &**operands;
            collect(a, uses)?;
            collect(b, uses)
        }
    }
}

/// Adds the names that a list of expressions uses.
#[cycle(collect)]
pub fn collect_all<'a>(list: &'a [Expr], uses: &mut Vec<Use<'a>>) -> Result<(), AllocError>
    ensures { OnOk result (map use_of uses.new.items ≡ map use_of uses.old.items ++ uses_of_all (formulas_of list.now)) }
{
    for e in list {
        collect(e, uses)?;
    }
    Ok(())
}

/// Adds the names of a place.
pub fn collect_target<'a>(e: &'a Expr, uses: &mut Vec<Use<'a>>) -> Result<(), AllocError>
    ensures { OnOk result (map use_of uses.new.items ≡ map use_of uses.old.items ++ uses_of_target (formula_of e.now)) }
{
    match e {
        Expr::Item(item) => {
            let (name, list) = &**item;
            add(name, Manner::Stored(list.len()), uses)?;
            collect_all(list, uses)
        }
        e => collect(e, uses),
    }
}

fn collect_par<'a>(par: &'a Par, uses: &mut Vec<Use<'a>>) -> Result<(), AllocError>
    ensures { OnOk result (map use_of uses.new.items ≡ map use_of uses.old.items ++ uses_of_par (par_of par.now)) }
{
    match par {
        Par::Number(_) => Ok(()),
        Par::Variable(name) => add(name, Manner::Alone, uses),
    }
}

#[cycle(collect_entries)]
fn collect_entry<'a>(entry: &'a Entry, uses: &mut Vec<Use<'a>>) -> Result<(), AllocError>
    ensures { OnOk result (map use_of uses.new.items ≡ map use_of uses.old.items ++ uses_of_entry (entry_of entry.now)) }
{
    match entry {
        Entry::Item(e) => collect_target(e, uses),
        Entry::Many(list, variable, first, last, step) => {
            collect_entries(list, uses)?;
            collect_counting(variable, first, last, step, uses)
        }
    }
}

#[cycle(collect_entries)]
fn collect_entries<'a>(list: &'a [Entry], uses: &mut Vec<Use<'a>>) -> Result<(), AllocError>
    ensures { OnOk result (map use_of uses.new.items ≡ map use_of uses.old.items ++ uses_of_entries (entries_of list.now)) }
{
    for entry in list {
        collect_entry(entry, uses)?;
    }
    Ok(())
}

/// Adds the names in dimensions.
pub fn collect_pars<'a>(list: &'a [Par], uses: &mut Vec<Use<'a>>) -> Result<(), AllocError>
    ensures { OnOk result (map use_of uses.new.items ≡ map use_of uses.old.items ++ flat_map uses_of_par (map par_of list.now)) }
{
    for par in list {
        collect_par(par, uses)?;
    }
    Ok(())
}

fn collect_sizes<'a>(list: &'a [Declared], uses: &mut Vec<Use<'a>>) -> Result<(), AllocError>
    ensures { OnOk result (map use_of uses.new.items ≡ map use_of uses.old.items ++ uses_of_sizes (map declared_of list.now)) }
{
    for declared in list {
        collect_pars(&declared.sizes, uses)?;
    }
    Ok(())
}
