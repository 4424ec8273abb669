// The names that statements use in COMMON, EQUIVALENCE and DATA, and as arguments of a CALL.
ghost use Rattle.std.specs.Prelude.{◌≡◌, ◌++◌, ◌∷◌, [], IfOk, OnOk, map};
ghost use Rattle.std.specs.List.{flat_map};
ghost use Rattle.f66_tree.specs.Views.{formula_of, declared_of, act_of};
ghost use Rattle.f66_names.specs.ActViews.{act_said};
ghost use Rattle.f66_names.specs.DeclarationViews.{context_in};
ghost use Rattle.f66_names.specs.Uses.{usage, uses_of_target};
ghost use Rattle.f66_names.specs.UseViews.{use_of};
ghost use Rattle.unit_rules.specs.Listed.{uses_of_listed, uses_of_place, more_names, more_uses};
ghost use Rattle.unit_rules.specs.ListViews.{AreLists};

use crate::called::passed_in;
use crate::listed::{Lists, lists_of};
use f66_names::{
    Declarations, Manner, Saying, Use, collect_all, collect_pars, collect_target, is_array,
};
use f66_tree::{Declared, Expr, Name, StmtKind};
use std::alloc::{AllocError, Global};

/// The names whose lengths and types count besides those of crate f66_names (X3.9-1966, sections 3.5 and 5.3).
pub fn more_names<'a>(
    alloc: Global,
    kind: &'a StmtKind,
    lists: &Lists<'a>,
) -> Result<Vec<Use<'a>>, AllocError>
    requires { AreLists lists.now (act_of kind.now) }
    ensures { IfOk result (λ v. map use_of v.items ≡ more_names (act_of kind.now)) }
{
    let mut uses = Vec::new(alloc);
    collect_all(passed_in(kind), &mut uses)?;
    collect_listed(&lists.common, &mut uses)?;
    collect_targets(&lists.equated, &mut uses)?;
    collect_targets(&lists.preset, &mut uses)?;
    Ok(uses)
}

/// The names whose classes and counts do (sections 5.1.3 and 10.1).
pub fn more_uses<'a>(
    alloc: Global,
    declarations: &Declarations<'a>,
    kind: &'a StmtKind,
    lists: &Lists<'a>,
) -> Result<Vec<Use<'a>>, AllocError>
    requires { AreLists lists.now (act_of kind.now) }
    ensures { IfOk result (λ v. map use_of v.items ≡ more_uses (context_in declarations.now) (act_of kind.now)) }
{
    let mut uses = Vec::new(alloc);
    collect_all(passed_in(kind), &mut uses)?;
    collect_listed(&lists.common, &mut uses)?;
    collect_places(declarations, &lists.equated, &mut uses)?;
    collect_places(declarations, &lists.preset, &mut uses)?;
    Ok(uses)
}

/// The same of a statement or a part of one.
pub fn more_uses_of_saying<'a>(
    alloc: Global,
    declarations: &Declarations<'a>,
    saying: &Saying<'a>,
) -> Result<Vec<Use<'a>>, AllocError>
    ensures { IfOk result (λ v. map use_of v.items ≡ more_uses (context_in declarations.now) (act_said saying.now)) }
{
    match *saying {
        Saying::Act(kind) => {
            let lists = lists_of(alloc, kind)?;
            more_uses(alloc, declarations, kind, &lists)
        }
        Saying::Condition(_)
        | Saying::Value(_)
        | Saying::Counting(_, _, _, _)
        | Saying::Returned(_, _) => Ok(Vec::new(alloc)),
    }
}

fn add<'a>(name: &'a Name, manner: Manner, uses: &mut Vec<Use<'a>>) -> Result<(), AllocError>
    ensures { OnOk result (map use_of uses.new.items ≡ map use_of uses.old.items ++ usage name.now manner ∷ []) }
{
    uses.push(Use { name, manner })?;
    Ok(())
}

/// Adds a name in a common block, and those in its dimensions.
fn collect_declared<'a>(declared: &'a Declared, uses: &mut Vec<Use<'a>>) -> Result<(), AllocError>
    ensures { OnOk result (map use_of uses.new.items ≡ map use_of uses.old.items ++ uses_of_listed (declared_of declared.now)) }
{
    add(&declared.name, Manner::Alone, uses)?;
    collect_pars(&declared.sizes, uses)
}

fn collect_listed<'a>(list: &[&'a Declared], uses: &mut Vec<Use<'a>>) -> Result<(), AllocError>
    ensures { OnOk result
        (map use_of uses.new.items ≡ map use_of uses.old.items ++ flat_map uses_of_listed (map (λ d. declared_of d.now) list.now)) }
{
    for declared in list {
        collect_declared(declared, uses)?;
    }
    Ok(())
}

fn collect_targets<'a>(list: &[&'a Expr], uses: &mut Vec<Use<'a>>) -> Result<(), AllocError>
    ensures { OnOk result
        (map use_of uses.new.items ≡ map use_of uses.old.items ++ flat_map uses_of_target (map (λ e. formula_of e.now) list.now)) }
{
    for e in list {
        collect_target(e, uses)?;
    }
    Ok(())
}

/// Adds the names of a place whose classes and counts count.
fn collect_place<'a>(
    declarations: &Declarations<'a>,
    e: &'a Expr,
    uses: &mut Vec<Use<'a>>,
) -> Result<(), AllocError>
    ensures { OnOk result
        (map use_of uses.new.items ≡ map use_of uses.old.items ++ uses_of_place (context_in declarations.now) (formula_of e.now)) }
{
    match e {
        Expr::Item(item) => {
            let (name, list) = &**item;
            if is_array(declarations, name) {
                return collect_all(list, uses);
            }
            Ok(())
        }
        e => collect_target(e, uses),
    }
}

fn collect_places<'a>(
    declarations: &Declarations<'a>,
    list: &[&'a Expr],
    uses: &mut Vec<Use<'a>>,
) -> Result<(), AllocError>
    ensures { OnOk result
        (map use_of uses.new.items
        ≡ map use_of uses.old.items ++ flat_map (uses_of_place (context_in declarations.now)) (map (λ e. formula_of e.now) list.now)) }
{
    for e in list {
        collect_place(declarations, e, uses)?;
    }
    Ok(())
}
