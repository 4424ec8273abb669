// What COMMON, EQUIVALENCE and DATA list.
ghost use Rattle.std.specs.Prelude.{◌≡◌, ◌++◌, [], IfOk, OnOk, map};
ghost use Rattle.std.specs.List.{flat_map};
ghost use Rattle.f66_tree.specs.Views.{formula_of, declared_of, area_of, preset_of, act_of};
ghost use Rattle.f66_names.specs.ActViews.{act_said};
ghost use Rattle.f66_names.specs.Declaring.{declared_in as declared_by, listed_in as listed_by};
ghost use Rattle.unit_rules.specs.Listed.{common_in, equated_in, preset_in};
ghost use Rattle.unit_rules.specs.ListViews.{AreLists};

use f66_names::{Saying, declared_in};
use f66_tree::{Area, Declared, Expr, PresetPart, StmtKind};
use ground::List;
use std::alloc::{AllocError, Global};

/// What a statement lists: the names in common blocks, the members of the groups of EQUIVALENCE, and the places of DATA
/// (X3.9-1966, sections 7.2.1.3, 7.2.1.4 and 7.2.2).
#[derive(Drop)]
pub struct Lists<'a> {
    pub common: Vec<&'a Declared>,
    pub equated: Vec<&'a Expr>,
    pub preset: Vec<&'a Expr>,
}

/// What a statement lists.
pub fn lists_of<'a>(alloc: Global, kind: &'a StmtKind) -> Result<Lists<'a>, AllocError>
    ensures { IfOk result (λ l. AreLists l (act_of kind.now)) }
{
    let common = common_in(alloc, kind)?;
    let equated = equated_in(alloc, kind)?;
    let preset = preset_in(alloc, kind)?;
    Ok(Lists {
        common,
        equated,
        preset,
    })
}

/// The names that a statement or a part of one declares or lists in common blocks.
pub fn listed_in_saying<'a>(
    alloc: Global,
    saying: &Saying<'a>,
) -> Result<Vec<&'a Declared>, AllocError>
    ensures { IfOk result (λ v. map (λ d. declared_of d.now) v.items ≡ listed_by (act_said saying.now)) }
{
    match *saying {
        Saying::Act(kind) => listed_in(alloc, kind),
        Saying::Condition(_)
        | Saying::Value(_)
        | Saying::Counting(_, _, _, _)
        | Saying::Returned(_, _) => Ok(Vec::new(alloc)),
    }
}

/// The names that it lists in common blocks alone.
pub fn common_in_saying<'a>(
    alloc: Global,
    saying: &Saying<'a>,
) -> Result<Vec<&'a Declared>, AllocError>
    ensures { IfOk result (λ v. map (λ d. declared_of d.now) v.items ≡ common_in (act_said saying.now)) }
{
    match *saying {
        Saying::Act(kind) => common_in(alloc, kind),
        Saying::Condition(_)
        | Saying::Value(_)
        | Saying::Counting(_, _, _, _)
        | Saying::Returned(_, _) => Ok(Vec::new(alloc)),
    }
}

/// The names that a statement declares or lists in common blocks.
pub fn listed_in<'a>(alloc: Global, kind: &'a StmtKind) -> Result<Vec<&'a Declared>, AllocError>
    ensures { IfOk result (λ v. map (λ d. declared_of d.now) v.items ≡ listed_by (act_of kind.now)) }
{
    match kind {
        StmtKind::Typed(_, list) => whole(alloc, list),
        StmtKind::Dimension(list) => whole(alloc, list),
        StmtKind::Common(areas) => areas_in(alloc, areas),
        _ => Ok(Vec::new(alloc)),
    }
}

fn common_in<'a>(alloc: Global, kind: &'a StmtKind) -> Result<Vec<&'a Declared>, AllocError>
    ensures { IfOk result (λ v. map (λ d. declared_of d.now) v.items ≡ common_in (act_of kind.now)) }
{
    match kind {
        StmtKind::Common(areas) => areas_in(alloc, areas),
        _ => Ok(Vec::new(alloc)),
    }
}

fn equated_in<'a>(alloc: Global, kind: &'a StmtKind) -> Result<Vec<&'a Expr>, AllocError>
    ensures { IfOk result (λ v. map (λ e. formula_of e.now) v.items ≡ equated_in (act_of kind.now)) }
{
    match kind {
        StmtKind::Equivalence(groups) => groups_in(alloc, groups),
        _ => Ok(Vec::new(alloc)),
    }
}

fn preset_in<'a>(alloc: Global, kind: &'a StmtKind) -> Result<Vec<&'a Expr>, AllocError>
    ensures { IfOk result (λ v. map (λ e. formula_of e.now) v.items ≡ preset_in (act_of kind.now)) }
{
    match kind {
        StmtKind::Preset(parts) => parts_in(alloc, parts),
        _ => Ok(Vec::new(alloc)),
    }
}

fn add_declared<'a>(list: &'a [Declared], all: &mut Vec<&'a Declared>) -> Result<(), AllocError>
    ensures { OnOk result
        (map (λ d. declared_of d.now) all.new.items ≡ map (λ d. declared_of d.now) all.old.items ++ map declared_of list.now) }
{
    for declared in list {
        all.push(declared)?;
    }
    Ok(())
}

fn add_places<'a>(list: &'a [Expr], all: &mut Vec<&'a Expr>) -> Result<(), AllocError>
    ensures { OnOk result
        (map (λ e. formula_of e.now) all.new.items ≡ map (λ e. formula_of e.now) all.old.items ++ map formula_of list.now) }
{
    for e in list {
        all.push(e)?;
    }
    Ok(())
}

fn whole<'a>(alloc: Global, list: &'a [Declared]) -> Result<Vec<&'a Declared>, AllocError>
    ensures { IfOk result (λ v. map (λ d. declared_of d.now) v.items ≡ map declared_of list.now) }
{
    let mut all = Vec::new(alloc);
    add_declared(list, &mut all)?;
    Ok(all)
}

fn areas_in<'a>(alloc: Global, areas: &'a [Area]) -> Result<Vec<&'a Declared>, AllocError>
    ensures { IfOk result (λ v. map (λ d. declared_of d.now) v.items ≡ flat_map (λ a. a.list) (map area_of areas.now)) }
{
    let mut all = Vec::new(alloc);
    for area in areas {
        add_declared(&area.list, &mut all)?;
    }
    Ok(all)
}

fn groups_in<'a>(alloc: Global, groups: &'a [List<Expr>]) -> Result<Vec<&'a Expr>, AllocError>
    ensures { IfOk result
        (λ v. map (λ e. formula_of e.now) v.items ≡ flat_map (λ g. g) (map (λ group. map formula_of group.items) groups.now)) }
{
    let mut all = Vec::new(alloc);
    for group in groups {
        add_places(group, &mut all)?;
    }
    Ok(all)
}

fn parts_in<'a>(alloc: Global, parts: &'a [PresetPart]) -> Result<Vec<&'a Expr>, AllocError>
    ensures { IfOk result (λ v. map (λ e. formula_of e.now) v.items ≡ flat_map (λ p. p.places) (map preset_of parts.now)) }
{
    let mut all = Vec::new(alloc);
    for part in parts {
        add_places(&part.places, &mut all)?;
    }
    Ok(all)
}
