// The lists of the areas of a procedure.
ghost use Rattle.std.specs.Prelude.{◌≡◌, IfOk, OnOk, Some, None, option_map, if◌then◌else◌};
ghost use Rattle.std.specs.Option.{option_or};
ghost use Rattle.std.specs.List.{list_any};
ghost use Rattle.std.specs.Str.{bytes_eq};
ghost use Rattle.rule_table.specs.Words.{is_some_and};
ghost use Rattle.efl_tree.specs.Syntax.{Text as Word, Variables, Area};
ghost use Rattle.efl_tree.specs.Views.{type_of, groups_of, vars_of, decl_kind_of, decls_of};
ghost use Rattle.efl_scope.specs.DataTypes.{DataType};
ghost use Rattle.efl_scope.specs.ScopeRules.{is_of, area_of as area_seen};
ghost use Rattle.efl_scope.specs.AreaViews.{sorts_of};
ghost use Rattle.efl_scoped.specs.Numbers.{Table, Grows};
ghost use Rattle.efl_scoped.specs.Told.{Tells, TellsSort, TellAreas, sorts_in, first_if};
ghost use Rattle.efl_scoped.specs.Seen.{table_of, AddsSorts, ListsVariables, ListsGroups, SeesAlone, SeesStructure, SeesDeclaration};

use crate::numbers::Pairs;
use crate::shapes::{Shapes, see_members, see_type};
use crate::summaries::{Summary, bounded};
use efl_scope::{AreaLists, Sort};
use efl_tree::{EflDecl, EflDeclKind, EflGroup, EflName, EflType, EflVar};
use ground::Text;
use std::alloc::{AllocError, Global};
use std::collections::HashMap;

/// No lists. It takes no memory.
pub fn no_lists<'a>(alloc: Global) -> AreaLists<'a>
    ensures { (q : Word) → sorts_of result q ≡ None }
{
    AreaLists {
        table: HashMap::new(alloc),
    }
}

/// The lists of the areas of a procedure with these declarations.
pub fn own_lists<'a>(
    alloc: Global,
    declarations: &'a [EflDecl],
    numbers: &mut Pairs,
) -> Result<AreaLists<'a>, AllocError>
    ensures kept { OnOk result (Grows (table_of numbers.old) (table_of numbers.new)) }
    ensures told { IfOk result (λ lists. TellAreas (table_of numbers.new) (decls_of declarations.now) lists) }
{
    let mut known = Shapes::new(alloc);
    let mut lists = no_lists(alloc);
    for declaration in declarations {
        see_declaration(alloc, &declaration.kind, &mut known, numbers, &mut lists)?;
    }
    Ok(lists)
}

fn see_declaration<'a>(
    alloc: Global,
    kind: &'a EflDeclKind,
    known: &mut Shapes<'a>,
    numbers: &mut Pairs,
    lists: &mut AreaLists<'a>,
) -> Result<(), AllocError>
    ensures { OnOk result
        (SeesDeclaration (table_of numbers.old) known.old lists.old (decl_kind_of kind.now) (table_of numbers.new) known.new lists.new) }
{
    match kind {
        EflDeclKind::Implicit(_, kind) => see_alone(kind, known, numbers),
        EflDeclKind::Initial(_) => Ok(()),
        EflDeclKind::Variables(area, kind, list) => {
            see_variables(alloc, area, kind, list, known, numbers, lists)
        }
        EflDeclKind::Area(area, groups) => see_area(alloc, area, groups, known, numbers, lists),
        EflDeclKind::Structure(name, groups) => see_structure(name, groups, known, numbers),
    }
}

/// Variables, in an area where it is named.
fn see_variables<'a>(
    alloc: Global,
    area: &'a Option<Text>,
    kind: &'a EflType,
    list: &[EflVar],
    known: &mut Shapes<'a>,
    numbers: &mut Pairs,
    lists: &mut AreaLists<'a>,
) -> Result<(), AllocError>
    ensures { OnOk result
        (SeesDeclaration (table_of numbers.old) known.old lists.old (Variables area.now (type_of kind.now) (vars_of list.now)) (table_of numbers.new) known.new lists.new) }
{
    match area {
        None => see_alone(kind, known, numbers),
        Some(area) => see_area_variables(alloc, area, kind, list, known, numbers, lists),
    }
}

fn see_area_variables<'a>(
    alloc: Global,
    area: &'a Text,
    kind: &'a EflType,
    list: &[EflVar],
    known: &mut Shapes<'a>,
    numbers: &mut Pairs,
    lists: &mut AreaLists<'a>,
) -> Result<(), AllocError>
    ensures { OnOk result
        (SeesDeclaration (table_of numbers.old) known.old lists.old (Variables (Some area.now) (type_of kind.now) (vars_of list.now)) (table_of numbers.new) known.new lists.new) }
{
    let mut sorts = take_list(alloc, area.as_bytes(), lists);
    list_variables(kind, list, known, numbers, &mut sorts)?;
    put_list(area.as_bytes(), sorts, lists)
}

/// An area.
fn see_area<'a>(
    alloc: Global,
    area: &'a Text,
    groups: &'a [EflGroup],
    known: &mut Shapes<'a>,
    numbers: &mut Pairs,
    lists: &mut AreaLists<'a>,
) -> Result<(), AllocError>
    ensures { OnOk result
        (SeesDeclaration (table_of numbers.old) known.old lists.old (Area area.now (groups_of groups.now)) (table_of numbers.new) known.new lists.new) }
{
    let mut sorts = take_list(alloc, area.as_bytes(), lists);
    list_groups(groups, known, numbers, &mut sorts)?;
    put_list(area.as_bytes(), sorts, lists)
}

/// A structure.
fn see_structure<'a>(
    name: &'a EflName,
    groups: &'a [EflGroup],
    known: &mut Shapes<'a>,
    numbers: &mut Pairs,
) -> Result<(), AllocError>
    ensures { OnOk result
        (SeesStructure (table_of numbers.old) known.old name.now (groups_of groups.now) (table_of numbers.new) known.new) }
{
    let shape = see_members(groups, known, numbers)?;
    known.know(name.as_bytes(), shape)
}

/// A type whose variables are in no area.
fn see_alone<'a>(
    kind: &'a EflType,
    known: &mut Shapes<'a>,
    numbers: &mut Pairs,
) -> Result<(), AllocError>
    ensures { OnOk result (SeesAlone (table_of numbers.old) known.old (type_of kind.now) (table_of numbers.new) known.new) }
{
    see_type(kind, known, numbers)?;
    Ok(())
}

/// The sorts of variables of a type come.
fn list_variables<'a>(
    kind: &'a EflType,
    list: &[EflVar],
    known: &mut Shapes<'a>,
    numbers: &mut Pairs,
    sorts: &mut Vec<Sort>,
) -> Result<(), AllocError>
    ensures { OnOk result
        (ListsVariables (table_of numbers.old) known.old (type_of kind.now) (vars_of list.now) sorts.old.items (table_of numbers.new) known.new sorts.new.items) }
{
    let kind = see_type(kind, known, numbers)?;
    add_sorts(kind, list, numbers, sorts)
}

fn add_sorts(
    kind: Summary,
    list: &[EflVar],
    numbers: &mut Pairs,
    sorts: &mut Vec<Sort>,
) -> Result<(), AllocError>
    ensures { OnOk result (AddsSorts (table_of numbers.old) kind (vars_of list.now) sorts.old.items (table_of numbers.new) sorts.new.items) }
{
    for variable in list {
        let one = bounded(kind, &variable.bounds, numbers)?;
        sorts.push(sort(one))?;
    }
    Ok(())
}

fn sort(summary: Summary) -> Sort
    ensures { (f : Table) (t : DataType) → Tells f t summary → TellsSort f t result }
{
    Sort {
        number: summary.number,
        faulty: !summary.sound || summary.places > 32767,
    }
}

/// The sorts of an area's groups come.
fn list_groups<'a>(
    groups: &'a [EflGroup],
    known: &mut Shapes<'a>,
    numbers: &mut Pairs,
    sorts: &mut Vec<Sort>,
) -> Result<(), AllocError>
    ensures { OnOk result
        (ListsGroups (table_of numbers.old) known.old (groups_of groups.now) sorts.old.items (table_of numbers.new) known.new sorts.new.items) }
{
    for group in groups {
        list_variables(&group.kind, &group.variables, known, numbers, sorts)?;
    }
    Ok(())
}

/// Takes an area's list out, which is to come back.
fn take_list<'a>(alloc: Global, area: &[u8], lists: &mut AreaLists<'a>) -> Vec<Sort>
    ensures taken { result.items ≡ sorts_in lists.old area.now }
    ensures others { (q : Word) → sorts_of lists.new q ≡ (if bytes_eq area.now q then None else sorts_of lists.old q) }
{
    match lists.table.remove(area) {
        Some(list) => list,
        None => Vec::new(alloc),
    }
}

fn put_list<'a>(
    area: &'a [u8],
    list: Vec<Sort>,
    lists: &mut AreaLists<'a>,
) -> Result<(), AllocError>
    ensures { OnOk result ((q : Word) → sorts_of lists.new q ≡ (if bytes_eq area.now q then Some list.items else sorts_of lists.old q)) }
{
    lists.table.insert(area, list)?;
    Ok(())
}

/// Where an area of these declarations has no list yet, its own is the first.
pub fn add_firsts<'a>(
    alloc: Global,
    declarations: &'a [EflDecl],
    own: &AreaLists<'a>,
    firsts: &mut AreaLists<'a>,
) -> Result<(), AllocError>
    ensures { OnOk result ((q : Word) →
        sorts_of firsts.new q ≡ option_or (sorts_of firsts.old q) (first_if own.now (list_any (λ d. is_of q d.kind) (decls_of declarations.now)) q)) }
{
    for declaration in declarations {
        add_first_if_any(alloc, area_of(&declaration.kind), own, firsts)?;
    }
    Ok(())
}

/// The area of a declaration.
fn area_of(kind: &EflDeclKind) -> Option<&[u8]>
    ensures { option_map (λ q. q.now) result ≡ area_seen (decl_kind_of kind.now) }
{
    match kind {
        EflDeclKind::Variables(Some(area), _, _) => Some(area.as_bytes()),
        EflDeclKind::Area(area, _) => Some(area.as_bytes()),
        _ => None,
    }
}

fn add_first_if_any<'a>(
    alloc: Global,
    area: Option<&'a [u8]>,
    own: &AreaLists<'a>,
    firsts: &mut AreaLists<'a>,
) -> Result<(), AllocError>
    ensures { OnOk result ((q : Word) →
        sorts_of firsts.new q ≡ option_or (sorts_of firsts.old q) (first_if own.now (is_some_and (bytes_eq q) (option_map (λ x. x.now) area.entry)) q)) }
{
    match area {
        None => Ok(()),
        Some(area) => add_first(alloc, area, own, firsts),
    }
}

fn add_first<'a>(
    alloc: Global,
    area: &'a [u8],
    own: &AreaLists<'a>,
    firsts: &mut AreaLists<'a>,
) -> Result<(), AllocError>
    ensures { OnOk result ((q : Word) → sorts_of firsts.new q ≡ option_or (sorts_of firsts.old q) (first_if own.now (bytes_eq q area.now) q)) }
{
    if !firsts.table.contains_key(area) {
        let list = copy_of(alloc, area, &*own)?;
        put_list(area, list, firsts)?;
    }
    Ok(())
}

fn copy_of<'a>(alloc: Global, area: &[u8], own: &AreaLists<'a>) -> Result<Vec<Sort>, AllocError>
    ensures { IfOk result (λ list. list.items ≡ sorts_in own.now area.now) }
{
    let mut list = Vec::new(alloc);
    if let Some(sorts) = own.table.get(area) {
        list.extend_from_slice(sorts)?;
    }
    Ok(list)
}
