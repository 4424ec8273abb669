// Numbers in groups, which have numbers too.
ghost use Rattle.std.specs.Prelude.{◌≡◌, [], ◌∷◌, IfOk, OnOk, map, replicate};
ghost use Rattle.efl_tree.specs.Views.{procedure_of};
ghost use Rattle.efl_units.specs.Groups.{called_in, group_at, groups_of, is_kind, owned_in, put_all, put_in};

use crate::gives;
use call_cycles::Edge;
use efl_tree::EflProcedure;
use efl_variables::Variable;
use ground::{Kind, List};
use std::alloc::{AllocError, Global};

/// The variables of each procedure that are scalars of this type, in order.
pub fn owned(
    alloc: Global,
    count: usize,
    variables: &[Variable],
    kind: Kind,
) -> Result<List<List<usize>>, AllocError>
    ensures { IfOk result (λ groups. groups_of groups.items ≡ put_all (owned_in kind 0 variables.now) (replicate count [])) }
{
    let mut groups = empty_groups(alloc, count)?;
    for (number, variable) in variables.iter().enumerate() {
        put_owned(&mut groups, variable, kind, number)?;
    }
    Ok(groups)
}

// A variable more in the group of its procedure, where it is a scalar of this type.
fn put_owned(
    groups: &mut [List<usize>],
    variable: &Variable,
    kind: Kind,
    number: usize,
) -> Result<(), AllocError>
    ensures { OnOk result (groups_of groups.new ≡ put_all (owned_in kind number (variable.now ∷ [])) (groups_of groups.old)) }
{
    if is_of(variable, kind) {
        put(groups, variable.unit, number)
    } else {
        Ok(())
    }
}

// Whether a variable is a scalar of this type.
fn is_of(variable: &Variable, kind: Kind) -> bool
    ensures { result ≡ is_kind kind variable.now.kind }
{
    variable.kind == Some(kind)
}

/// The callers of each procedure, once for each call.
pub fn callers(alloc: Global, count: usize, edges: &[Edge]) -> Result<List<List<usize>>, AllocError>
    ensures { IfOk result (λ groups. groups_of groups.items ≡ put_all (map (λ e. (e.to, e.from)) edges.now) (replicate count [])) }
{
    let mut groups = empty_groups(alloc, count)?;
    for edge in edges {
        put(&mut groups, edge.to, edge.from)?;
    }
    Ok(groups)
}

/// The functions of this type that each procedure calls, in order, once for each call.
pub fn called(
    alloc: Global,
    count: usize,
    callers: &[List<usize>],
    procedures: &[EflProcedure],
    kind: Kind,
) -> Result<List<List<usize>>, AllocError>
    ensures { IfOk result (λ groups. groups_of groups.items ≡ put_all (called_in kind (groups_of callers.now) 0 (map procedure_of procedures.now)) (replicate count [])) }
{
    let mut groups = empty_groups(alloc, count)?;
    for (number, procedure) in procedures.iter().enumerate() {
        put_called(&mut groups, callers, procedure, kind, number)?;
    }
    Ok(groups)
}

// A procedure more in the groups of its callers, where it is a function of this type.
fn put_called(
    groups: &mut [List<usize>],
    callers: &[List<usize>],
    procedure: &EflProcedure,
    kind: Kind,
    number: usize,
) -> Result<(), AllocError>
    ensures { OnOk result (groups_of groups.new ≡ put_all (called_in kind (groups_of callers.now) number (procedure_of procedure.now ∷ [])) (groups_of groups.old)) }
{
    if gives(kind, procedure) {
        put_each(groups, callers, number)
    } else {
        Ok(())
    }
}

// So many groups without a number.
fn empty_groups(alloc: Global, count: usize) -> Result<List<List<usize>>, AllocError>
    ensures { IfOk result (λ groups. groups_of groups.items ≡ replicate count []) }
{
    let mut groups = Vec::new(alloc);
    for _ in 0..count {
        groups.push(Vec::new(alloc))?;
    }
    Ok(groups)
}

// A procedure more in the group of each of its callers.
fn put_each(
    groups: &mut [List<usize>],
    callers: &[List<usize>],
    number: usize,
) -> Result<(), AllocError>
    ensures { OnOk result (groups_of groups.new ≡ put_all (map (λ n. (n, number)) (group_at (groups_of callers.now) number)) (groups_of groups.old)) }
{
    match callers.get(number) {
        None => Ok(()),
        Some(list) => put_each_of(groups, list, number),
    }
}

// A number more in each of these groups.
fn put_each_of(groups: &mut [List<usize>], list: &[usize], number: usize) -> Result<(), AllocError>
    ensures { OnOk result (groups_of groups.new ≡ put_all (map (λ n. (n, number)) list.now) (groups_of groups.old)) }
{
    for group in list {
        put(groups, *group, number)?;
    }
    Ok(())
}

// A number more in a group, where there is one.
fn put(groups: &mut [List<usize>], group: usize, number: usize) -> Result<(), AllocError>
    ensures { OnOk result (groups_of groups.new ≡ put_in (groups_of groups.old) group number) }
{
    if group < groups.len() {
        groups[group].push(number)?;
    }
    Ok(())
}
