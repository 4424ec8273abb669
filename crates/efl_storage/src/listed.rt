// The names of variables that a part lists.
ghost use Rattle.std.specs.Prelude.{◌≡◌, ◌++◌, List, IfOk, OnOk};
ghost use Rattle.efl_tree.specs.Syntax.{Text};
ghost use Rattle.efl_tree.specs.Views.{vars_of, groups_of, decl_kind_of};
ghost use Rattle.efl_scope.specs.Parts.{Declares, names_of};
ghost use Rattle.efl_scope.specs.Marks.{variables_listed, variables_by};
ghost use Rattle.efl_storage.specs.Named.{texts_of};

use efl_tree::{EflDeclKind, EflGroup, EflName, EflVar};
use std::alloc::{AllocError, Global};

/// The names of the variables that a declaration lists.
pub fn listed_by_declaration<'t>(
    alloc: Global,
    kind: &'t EflDeclKind,
) -> Result<Vec<&'t [u8]>, AllocError>
    ensures { IfOk result (λ names. (before : List Text) → texts_of names.items ≡ variables_by (Declares before (decl_kind_of kind.now))) }
{
    let mut names = Vec::new(alloc);
    match kind {
        EflDeclKind::Variables(_, _, list) => list_variables(list, &mut names)?,
        EflDeclKind::Area(_, groups) => list_groups(groups, &mut names)?,
        _ => {}
    }
    Ok(names)
}

/// The names of formals.
pub fn listed_by_header<'t>(
    alloc: Global,
    formals: &'t [EflName],
) -> Result<Vec<&'t [u8]>, AllocError>
    ensures { IfOk result (λ names. texts_of names.items ≡ formals.now) }
{
    let mut names = Vec::new(alloc);
    for formal in formals {
        names.push(formal.as_bytes())?;
    }
    Ok(names)
}

#[tactic(auto, using(crate::proofs::NamedLemmas::named_steps))]
fn list_groups<'t>(groups: &'t [EflGroup], names: &mut Vec<&'t [u8]>) -> Result<(), AllocError>
    ensures { OnOk result (texts_of names.new.items ≡ texts_of names.old.items ++ variables_listed (groups_of groups.now)) }
{
    for group in groups {
        list_variables(&group.variables, names)?;
    }
    Ok(())
}

#[tactic(auto, using(crate::proofs::NamedLemmas::named_steps))]
fn list_variables<'t>(list: &'t [EflVar], names: &mut Vec<&'t [u8]>) -> Result<(), AllocError>
    ensures { OnOk result (texts_of names.new.items ≡ texts_of names.old.items ++ names_of (vars_of list.now)) }
{
    for variable in list {
        names.push(variable.name.as_bytes())?;
    }
    Ok(())
}
