// The names of a unit's source.
ghost use Rattle.std.specs.Prelude.{◌≡◌, ◌≤◌, [], true, map, length, IfOk, OnOk};
ghost use Rattle.std.specs.List.{flat_map};
ghost use Rattle.f66_tree.specs.Views.{act_of, area_of, declared_of, formula_of, formulas_of, header_of, preset_of};
ghost use Rattle.f66_names.specs.ActViews.{act_said, acts_of};
ghost use Rattle.f66_names.specs.Uses.{uses_of_all, uses_of_target};
ghost use Rattle.f66_names.specs.UseViews.{use_of};
ghost use Rattle.unit_rules.specs.Listed.{uses_of_listed};
ghost use Rattle.name_alloc.specs.Numbers.{starting};
ghost use Rattle.name_alloc.specs.MadeNames.{next_name, unused, keeping_all};
ghost use Rattle.rat_tree.specs.Views.{commands, rat_routine_of};
ghost use Rattle.rat_lower.specs.Code.{have_switch};
ghost use Rattle.rat_lower.specs.Emitted.{further_names, header_names, named_in, names_used, spare_name, unit_names};

use crate::have_switch;
use f66_names::{
    Saying, Use, collect_all, collect_pars, collect_target, declared_in_saying, uses_of_saying,
};
use f66_tree::{Area, Declared, Expr, Header, Name, PresetPart, StmtKind};
use ground::List;
use name_alloc::Names;
use rat_check::sayings;
use rat_tree::RatUnit;
use std::alloc::{AllocError, Global};

/// Names of which the next one holds the values of a unit's switches: where it has one, those of the unit are kept, so that it is none
/// of them.
pub fn names_for(alloc: Global, unit: &RatUnit) -> Result<Names, AllocError>
    ensures spare { IfOk result (λ names. have_switch (commands unit.now.body.items) ≡ true → next_name names ≡ spare_name (rat_routine_of unit.now)) }
    ensures few { IfOk result (λ names. length names.kept ≤ length (unit_names (rat_routine_of unit.now))) }
    ensures made { IfOk result (λ names. names.numbers.made ≡ []) }
    ensures labels { IfOk result (λ names. names.labels ≡ starting 23000) }
{
    if have_switch(&unit.body) {
        return names_in(alloc, unit);
    }
    Ok(Names::new(alloc))
}

/// The names of a unit are kept: those in its header, and those that its statements declare, use, call or list.
fn names_in(alloc: Global, unit: &RatUnit) -> Result<Names, AllocError>
    ensures { IfOk result (λ names. names ≡ keeping_all (unit_names (rat_routine_of unit.now)) unused) }
{
    let mut names = Names::new(alloc);
    keep_unit(alloc, &mut names, unit)?;
    Ok(names)
}

fn keep_unit(alloc: Global, names: &mut Names, unit: &RatUnit) -> Result<(), AllocError>
    ensures { OnOk result (names.new ≡ keeping_all (unit_names (rat_routine_of unit.now)) names.old) }
{
    keep_header(names, &unit.header)?;
    let sayings = sayings(alloc, &unit.header, &unit.body)?;
    keep_all(alloc, names, &sayings)?;
    Ok(())
}

fn keep_header(names: &mut Names, header: &Header) -> Result<(), AllocError>
    ensures { OnOk result (names.new ≡ keeping_all (header_names (header_of header.now)) names.old) }
{
    match header {
        Header::Sub(name, dummies) | Header::Func(_, name, dummies) => {
            names.keep_name(name)?;
            keep_names(names, dummies)
        }
        Header::Main | Header::Block => Ok(()),
    }
}

fn keep_names(names: &mut Names, list: &[Name]) -> Result<(), AllocError>
    ensures { OnOk result (names.new ≡ keeping_all list.now names.old) }
{
    for name in list {
        names.keep_name(name)?;
    }
    Ok(())
}

#[tactic(auto, using(crate::proofs::Emitting::SpareNames::name_steps))]
fn keep_all(alloc: Global, names: &mut Names, sayings: &[Saying]) -> Result<(), AllocError>
    ensures { OnOk result (names.new ≡ keeping_all (flat_map named_in (acts_of sayings.now)) names.old) }
{
    for saying in sayings {
        keep_said(alloc, names, saying)?;
    }
    Ok(())
}

#[tactic(auto, using(crate::proofs::Emitting::SpareNames::name_steps))]
fn keep_said(alloc: Global, names: &mut Names, saying: &Saying) -> Result<(), AllocError>
    ensures { OnOk result (names.new ≡ keeping_all (named_in (act_said saying.now)) names.old) }
{
    keep_declared(names, declared_in_saying(saying))?;
    let uses = uses_of_saying(alloc, saying)?;
    keep_used(names, &uses)?;
    match *saying {
        Saying::Act(kind) => keep_further(alloc, names, kind),
        Saying::Condition(_)
        | Saying::Value(_)
        | Saying::Counting(_, _, _, _)
        | Saying::Returned(_, _) => Ok(()),
    }
}

// The names that a CALL calls and hands over, and those that COMMON, EQUIVALENCE and DATA list.
#[tactic(auto, using(crate::proofs::Emitting::SpareNames::name_steps))]
fn keep_further(alloc: Global, names: &mut Names, kind: &StmtKind) -> Result<(), AllocError>
    ensures { OnOk result (names.new ≡ keeping_all (further_names (act_of kind.now)) names.old) }
{
    match kind {
        StmtKind::Invoke(name, list) => {
            names.keep_name(name)?;
            keep_passed(alloc, names, list)
        }
        StmtKind::When(_, inner) => keep_further(alloc, names, inner),
        StmtKind::Common(areas) => keep_areas(alloc, names, areas),
        StmtKind::Equivalence(groups) => keep_groups(alloc, names, groups),
        StmtKind::Preset(parts) => keep_parts(alloc, names, parts),
        _ => Ok(()),
    }
}

fn keep_passed(alloc: Global, names: &mut Names, list: &[Expr]) -> Result<(), AllocError>
    ensures { OnOk result (names.new ≡ keeping_all (names_used (uses_of_all (formulas_of list.now))) names.old) }
{
    let mut uses = Vec::new(alloc);
    collect_all(list, &mut uses)?;
    keep_used(names, &uses)
}

#[tactic(auto, using(crate::proofs::Emitting::SpareNames::name_steps))]
fn keep_areas(alloc: Global, names: &mut Names, areas: &[Area]) -> Result<(), AllocError>
    ensures { OnOk result (names.new ≡ keeping_all (flat_map (λ a. flat_map (λ d. names_used (uses_of_listed d)) a.list) (map area_of areas.now)) names.old) }
{
    for area in areas {
        keep_listed(alloc, names, &area.list)?;
    }
    Ok(())
}

#[tactic(auto, using(crate::proofs::Emitting::SpareNames::name_steps))]
fn keep_listed(alloc: Global, names: &mut Names, list: &[Declared]) -> Result<(), AllocError>
    ensures { OnOk result (names.new ≡ keeping_all (flat_map (λ d. names_used (uses_of_listed d)) (map declared_of list.now)) names.old) }
{
    for declared in list {
        keep_one(alloc, names, declared)?;
    }
    Ok(())
}

// A name in a common block, and those in its dimensions.
fn keep_one(alloc: Global, names: &mut Names, declared: &Declared) -> Result<(), AllocError>
    ensures { OnOk result (names.new ≡ keeping_all (names_used (uses_of_listed (declared_of declared.now))) names.old) }
{
    names.keep_name(&declared.name)?;
    let mut uses = Vec::new(alloc);
    collect_pars(&declared.sizes, &mut uses)?;
    keep_used(names, &uses)
}

#[tactic(auto, using(crate::proofs::Emitting::SpareNames::name_steps))]
fn keep_groups(alloc: Global, names: &mut Names, groups: &[List<Expr>]) -> Result<(), AllocError>
    ensures { OnOk result (names.new ≡ keeping_all (flat_map (λ g. flat_map (λ e. names_used (uses_of_target e)) g) (map (λ group. map formula_of group.items) groups.now)) names.old) }
{
    for group in groups {
        keep_places(alloc, names, group)?;
    }
    Ok(())
}

#[tactic(auto, using(crate::proofs::Emitting::SpareNames::name_steps))]
fn keep_parts(alloc: Global, names: &mut Names, parts: &[PresetPart]) -> Result<(), AllocError>
    ensures { OnOk result (names.new ≡ keeping_all (flat_map (λ p. flat_map (λ e. names_used (uses_of_target e)) p.places) (map preset_of parts.now)) names.old) }
{
    for part in parts {
        keep_places(alloc, names, &part.places)?;
    }
    Ok(())
}

#[tactic(auto, using(crate::proofs::Emitting::SpareNames::name_steps))]
fn keep_places(alloc: Global, names: &mut Names, list: &[Expr]) -> Result<(), AllocError>
    ensures { OnOk result (names.new ≡ keeping_all (flat_map (λ e. names_used (uses_of_target e)) (map formula_of list.now)) names.old) }
{
    for e in list {
        keep_place(alloc, names, e)?;
    }
    Ok(())
}

fn keep_place(alloc: Global, names: &mut Names, e: &Expr) -> Result<(), AllocError>
    ensures { OnOk result (names.new ≡ keeping_all (names_used (uses_of_target (formula_of e.now))) names.old) }
{
    let mut uses = Vec::new(alloc);
    collect_target(e, &mut uses)?;
    keep_used(names, &uses)
}

fn keep_declared(names: &mut Names, list: &[Declared]) -> Result<(), AllocError>
    ensures { OnOk result (names.new ≡ keeping_all (map (λ d. d.name) (map declared_of list.now)) names.old) }
{
    for declared in list {
        names.keep_name(&declared.name)?;
    }
    Ok(())
}

fn keep_used(names: &mut Names, list: &[Use]) -> Result<(), AllocError>
    ensures { OnOk result (names.new ≡ keeping_all (names_used (map use_of list.now)) names.old) }
{
    for used in list {
        names.keep_name(used.name)?;
    }
    Ok(())
}
