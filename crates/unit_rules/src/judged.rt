// The uses of names that have classes and counts.
ghost use Rattle.std.specs.Prelude.{◌≡◌, ◌++◌, IfOk, OnOk, map};
ghost use Rattle.f66_tree.specs.Views.{formula_of, entry_of, entries_of, par_of, act_of};
ghost use Rattle.f66_names.specs.ActViews.{act_said};
ghost use Rattle.f66_names.specs.DeclarationViews.{context_in};
ghost use Rattle.f66_names.specs.Uses.{uses_of_par};
ghost use Rattle.f66_names.specs.UseViews.{use_of};
ghost use Rattle.unit_rules.specs.Judged.{judged_of_target, judged_of_entry, judged_of_entries, judged_uses};

use f66_names::{
    Declarations, Saying, Use, collect_in_saying, collect_pars, collect_target, is_array,
};
use f66_tree::{Entry, Expr, Par, StmtKind};
use std::alloc::{AllocError, Global};
use std::slice;

/// The names of a statement that have classes and counts there (X3.9-1966, sections 5.1.3 and 10.1).
pub fn judged_uses<'a>(
    alloc: Global,
    declarations: &Declarations<'a>,
    kind: &'a StmtKind,
) -> Result<Vec<Use<'a>>, AllocError>
    ensures { IfOk result (λ v. map use_of v.items ≡ judged_uses (context_in declarations.now) (act_of kind.now)) }
{
    let mut uses = Vec::new(alloc);
    collect_judged(declarations, kind, &mut uses)?;
    Ok(uses)
}

/// The same of a statement or a part of one, in place of what the list held.
pub fn judged_uses_into<'a>(
    declarations: &Declarations<'a>,
    saying: &Saying<'a>,
    uses: &mut Vec<Use<'a>>,
) -> Result<(), AllocError>
    ensures { OnOk result (map use_of uses.new.items ≡ judged_uses (context_in declarations.now) (act_said saying.now)) }
{
    uses.clear();
    match *saying {
        Saying::Act(kind) => collect_judged(declarations, kind, uses),
        Saying::Condition(_)
        | Saying::Value(_)
        | Saying::Counting(_, _, _, _)
        | Saying::Returned(_, _) => collect_in_saying(saying, uses),
    }
}

fn collect_judged<'a>(
    declarations: &Declarations<'a>,
    kind: &'a StmtKind,
    uses: &mut Vec<Use<'a>>,
) -> Result<(), AllocError>
    ensures { OnOk result
        (map use_of uses.new.items ≡ map use_of uses.old.items ++ judged_uses (context_in declarations.now) (act_of kind.now)) }
{
    match kind {
        StmtKind::Assign(target, value) => {
            collect_stored(declarations, target, uses)?;
            collect_in_saying(&Saying::Value(value), uses)
        }
        StmtKind::When(test, inner) => {
            collect_in_saying(&Saying::Value(test), uses)?;
            collect_judged(declarations, inner, uses)
        }
        StmtKind::Read(unit, _, list) => {
            collect_par(unit, uses)?;
            collect_entries(declarations, list, uses)
        }
        StmtKind::Write(unit, _, list) => {
            collect_par(unit, uses)?;
            collect_entries(declarations, list, uses)
        }
        _ => collect_in_saying(&Saying::Act(kind), uses),
    }
}

fn collect_par<'a>(par: &'a Par, uses: &mut Vec<Use<'a>>) -> Result<(), AllocError>
    ensures { OnOk result (map use_of uses.new.items ≡ map use_of uses.old.items ++ uses_of_par (par_of par.now)) }
{
    collect_pars(slice::from_ref(par), uses)
}

/// Adds the names of a target or an item, where it is no name with parentheses other than an array's.
fn collect_stored<'a>(
    declarations: &Declarations<'a>,
    e: &'a Expr,
    uses: &mut Vec<Use<'a>>,
) -> Result<(), AllocError>
    ensures { OnOk result
        (map use_of uses.new.items ≡ map use_of uses.old.items ++ judged_of_target (context_in declarations.now) (formula_of e.now)) }
{
    match e {
        Expr::Item(item) => {
            if is_array(declarations, &item.0) {
                return collect_target(e, uses);
            }
            Ok(())
        }
        e => collect_target(e, uses),
    }
}

#[cycle(collect_entries)]
fn collect_entry<'a>(
    declarations: &Declarations<'a>,
    entry: &'a Entry,
    uses: &mut Vec<Use<'a>>,
) -> Result<(), AllocError>
    ensures { OnOk result
        (map use_of uses.new.items ≡ map use_of uses.old.items ++ judged_of_entry (context_in declarations.now) (entry_of entry.now)) }
{
    match entry {
        Entry::Item(e) => collect_stored(declarations, e, uses),
        Entry::Many(list, variable, first, last, step) => {
            collect_entries(declarations, list, uses)?;
            collect_in_saying(&Saying::Counting(variable, first, last, step), uses)
        }
    }
}

#[cycle(collect_entries)]
fn collect_entries<'a>(
    declarations: &Declarations<'a>,
    list: &'a [Entry],
    uses: &mut Vec<Use<'a>>,
) -> Result<(), AllocError>
    ensures { OnOk result
        (map use_of uses.new.items
        ≡ map use_of uses.old.items ++ judged_of_entries (context_in declarations.now) (entries_of list.now)) }
{
    for entry in list {
        collect_entry(declarations, entry, uses)?;
    }
    Ok(())
}
