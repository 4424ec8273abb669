// The names in statements.
ghost use Rattle.std.specs.Prelude.{◌≡◌, ◌++◌, ◌∷◌, [], true, map, OnOk};
ghost use Rattle.std.specs.List.{flat_map};
ghost use Rattle.f66_tree.specs.Evaluation.{is_array, sort_of};
ghost use Rattle.f66_tree.specs.Syntax as f66;
ghost use Rattle.f66_tree.specs.Views.{formula_of, formulas_of, par_of, declared_of, area_of, preset_of, entry_of, entries_of, act_of};
ghost use Rattle.f66_program.specs.Mentions.{AVariable, ACall, applied, mentions_of, mentions_of_all, mentions_of_par, mentions_of_counting, mentions_of_entry, mentions_of_entries, mentions_of_sizes, mentions_in};
ghost use Rattle.f66_mentions.specs.UnitViews.{context_in, mention_of};

use crate::names::{is_intrinsic, sizes_of};
use crate::unit_names::UnitNames;
use f66_tree::{Area, Counting, Declared, Entry, Expr, Name, Par, PresetPart, StmtKind};
use ground::List;
use std::alloc::AllocError;

/// A name where it stands in a statement: as a variable or array; as a unit that is called with its actuals, by a CALL or not;
/// or as an intrinsic function.
#[derive(Clone, Copy, Drop)]
pub enum Mention<'a> {
    Variable(&'a Name),
    Call(bool, &'a Name, &'a [Expr]),
    Known(&'a Name),
}

/// The names in a statement, in reading order, into a list that has had those of another: whoever goes over a unit needs one list.
pub fn mentions_into<'a>(
    names: &UnitNames<'a>,
    kind: &'a StmtKind,
    mentions: &mut Vec<Mention<'a>>,
) -> Result<(), AllocError>
    ensures { OnOk result (map mention_of mentions.new.items ≡ mentions_in (context_in names.now) (act_of kind.now)) }
{
    mentions.clear();
    collect_in(names, kind, mentions)
}

/// Adds the names in a statement.
fn collect_in<'a>(
    names: &UnitNames<'a>,
    kind: &'a StmtKind,
    mentions: &mut Vec<Mention<'a>>,
) -> Result<(), AllocError>
    ensures { OnOk result (map mention_of mentions.new.items ≡ map mention_of mentions.old.items ++ mentions_in (context_in names.now) (act_of kind.now)) }
{
    match kind {
        StmtKind::Assign(target, value) => {
            collect(names, target, mentions)?;
            collect(names, value, mentions)
        }
        StmtKind::Computed(_, index) => add(mentions, Mention::Variable(index)),
        StmtKind::Sign(e, _, _, _) => collect(names, e, mentions),
        StmtKind::When(test, inner) => {
            collect(names, test, mentions)?;
            collect_in(names, inner, mentions)
        }
        StmtKind::Loop(_, counting) => {
            let Counting {
                variable,
                first,
                last,
                step,
            } = &**counting;
            collect_counting(variable, first, last, step, mentions)
        }
        StmtKind::Invoke(name, list) => collect_call(names, name, list, mentions),
        StmtKind::Read(unit, _, list) => collect_transfer(names, unit, list, mentions),
        StmtKind::Write(unit, _, list) => collect_transfer(names, unit, list, mentions),
        StmtKind::Typed(_, list) => collect_sizes(list, mentions),
        StmtKind::Dimension(list) => collect_sizes(list, mentions),
        StmtKind::Common(areas) => collect_areas(areas, mentions),
        StmtKind::Equivalence(groups) => collect_groups(names, groups, mentions),
        StmtKind::Preset(parts) => collect_presets(names, parts, mentions),
        _ => Ok(()),
    }
}

fn add<'a>(mentions: &mut Vec<Mention<'a>>, mention: Mention<'a>) -> Result<(), AllocError>
    ensures { OnOk result (map mention_of mentions.new.items ≡ map mention_of mentions.old.items ++ mention_of mention.entry ∷ []) }
{
    mentions.push(mention)?;
    Ok(())
}

/// What a name with a list behind it is: an element of an array, an intrinsic function, or a function of the program.
fn applied<'a>(names: &UnitNames<'a>, name: &'a Name, list: &'a [Expr]) -> Mention<'a>
    ensures { mention_of result ≡ applied name.now (formulas_of list.now) (sort_of (context_in names.now) name.now) }
{
    if !sizes_of(names, name.as_bytes()).is_empty() {
        Mention::Variable(name)
    } else if is_intrinsic(name) {
        Mention::Known(name)
    } else {
        Mention::Call(false, name, list)
    }
}

/// Adds the names in an expression.
#[cycle(collect)]
fn collect<'a>(
    names: &UnitNames<'a>,
    e: &'a Expr,
    mentions: &mut Vec<Mention<'a>>,
) -> Result<(), AllocError>
    ensures { OnOk result (map mention_of mentions.new.items ≡ map mention_of mentions.old.items ++ mentions_of (context_in names.now) (formula_of e.now)) }
{
    match e {
        Expr::Int(_) | Expr::Truth(_) | Expr::Letter(_) => Ok(()),
        Expr::Ref(name) => add(mentions, Mention::Variable(name)),
        Expr::Item(item) => {
            let (name, list) = &**item;
            collect_item(names, name, list, mentions)
        }
        Expr::Group(a) => collect(names, a, mentions),
        Expr::Plus(a) => collect(names, a, mentions),
        Expr::Minus(a) => collect(names, a, mentions),
        Expr::Not(a) => collect(names, a, mentions),
        Expr::Pair(_, operands) => {
            let (a, b) = &**operands;
            collect(names, a, mentions)?;
            collect(names, b, mentions)
        }
    }
}

#[cycle(collect)]
fn collect_item<'a>(
    names: &UnitNames<'a>,
    name: &'a Name,
    list: &'a [Expr],
    mentions: &mut Vec<Mention<'a>>,
) -> Result<(), AllocError>
    ensures { OnOk result (map mention_of mentions.new.items ≡ map mention_of mentions.old.items ++ mentions_of (context_in names.now) (f66.Item name.now (formulas_of list.now))) }
{
    add(mentions, applied(names, name, list))?;
    collect_all(names, list, mentions)
}

#[cycle(collect)]
fn collect_all<'a>(
    names: &UnitNames<'a>,
    list: &'a [Expr],
    mentions: &mut Vec<Mention<'a>>,
) -> Result<(), AllocError>
    ensures { OnOk result (map mention_of mentions.new.items ≡ map mention_of mentions.old.items ++ mentions_of_all (context_in names.now) (formulas_of list.now)) }
{
    for e in list {
        collect(names, e, mentions)?;
    }
    Ok(())
}

/// Adds a CALL and the names in its actuals.
fn collect_call<'a>(
    names: &UnitNames<'a>,
    name: &'a Name,
    list: &'a [Expr],
    mentions: &mut Vec<Mention<'a>>,
) -> Result<(), AllocError>
    ensures { OnOk result (map mention_of mentions.new.items
        ≡ map mention_of mentions.old.items ++ ACall true name.now (formulas_of list.now) ∷ mentions_of_all (context_in names.now) (formulas_of list.now)) }
{
    add(mentions, Mention::Call(true, name, list))?;
    collect_all(names, list, mentions)
}

fn collect_par<'a>(par: &'a Par, mentions: &mut Vec<Mention<'a>>) -> Result<(), AllocError>
    ensures { OnOk result (map mention_of mentions.new.items ≡ map mention_of mentions.old.items ++ mentions_of_par (par_of par.now)) }
{
    match par {
        Par::Number(_) => Ok(()),
        Par::Variable(name) => add(mentions, Mention::Variable(name)),
    }
}

/// Adds the variable and the parameters of a DO.
fn collect_counting<'a>(
    variable: &'a Name,
    first: &'a Par,
    last: &'a Par,
    step: &'a Par,
    mentions: &mut Vec<Mention<'a>>,
) -> Result<(), AllocError>
    ensures { OnOk result (map mention_of mentions.new.items
        ≡ map mention_of mentions.old.items ++ mentions_of_counting variable.now (par_of first.now) (par_of last.now) (par_of step.now)) }
{
    add(mentions, Mention::Variable(variable))?;
    collect_par(first, mentions)?;
    collect_par(last, mentions)?;
    collect_par(step, mentions)
}

#[cycle(collect_entries)]
fn collect_entry<'a>(
    names: &UnitNames<'a>,
    entry: &'a Entry,
    mentions: &mut Vec<Mention<'a>>,
) -> Result<(), AllocError>
    ensures { OnOk result (map mention_of mentions.new.items ≡ map mention_of mentions.old.items ++ mentions_of_entry (context_in names.now) (entry_of entry.now)) }
{
    match entry {
        Entry::Item(e) => collect(names, e, mentions),
        Entry::Many(list, variable, first, last, step) => {
            collect_entries(names, list, mentions)?;
            collect_counting(variable, first, last, step, mentions)
        }
    }
}

#[cycle(collect_entries)]
fn collect_entries<'a>(
    names: &UnitNames<'a>,
    list: &'a [Entry],
    mentions: &mut Vec<Mention<'a>>,
) -> Result<(), AllocError>
    ensures { OnOk result (map mention_of mentions.new.items ≡ map mention_of mentions.old.items ++ mentions_of_entries (context_in names.now) (entries_of list.now)) }
{
    for entry in list {
        collect_entry(names, entry, mentions)?;
    }
    Ok(())
}

/// Adds the names in the unit number and the list of a READ or WRITE.
fn collect_transfer<'a>(
    names: &UnitNames<'a>,
    unit: &'a Par,
    list: &'a [Entry],
    mentions: &mut Vec<Mention<'a>>,
) -> Result<(), AllocError>
    ensures { OnOk result (map mention_of mentions.new.items
        ≡ map mention_of mentions.old.items ++ (mentions_of_par (par_of unit.now) ++ mentions_of_entries (context_in names.now) (entries_of list.now))) }
{
    collect_par(unit, mentions)?;
    collect_entries(names, list, mentions)
}

fn collect_pars<'a>(list: &'a [Par], mentions: &mut Vec<Mention<'a>>) -> Result<(), AllocError>
    ensures { OnOk result (map mention_of mentions.new.items ≡ map mention_of mentions.old.items ++ flat_map mentions_of_par (map par_of list.now)) }
{
    for par in list {
        collect_par(par, mentions)?;
    }
    Ok(())
}

/// Adds the names in dimensions.
fn collect_sizes<'a>(
    list: &'a [Declared],
    mentions: &mut Vec<Mention<'a>>,
) -> Result<(), AllocError>
    ensures { OnOk result (map mention_of mentions.new.items ≡ map mention_of mentions.old.items ++ mentions_of_sizes (map declared_of list.now)) }
{
    for declared in list {
        collect_pars(&declared.sizes, mentions)?;
    }
    Ok(())
}

/// Adds the names that a list declares.
fn collect_names<'a>(
    list: &'a [Declared],
    mentions: &mut Vec<Mention<'a>>,
) -> Result<(), AllocError>
    ensures { OnOk result (map mention_of mentions.new.items ≡ map mention_of mentions.old.items ++ map (λ d. AVariable d.name) (map declared_of list.now)) }
{
    for declared in list {
        add(mentions, Mention::Variable(&declared.name))?;
    }
    Ok(())
}

/// Adds the names in the list of a common block.
fn collect_area<'a>(area: &'a Area, mentions: &mut Vec<Mention<'a>>) -> Result<(), AllocError>
    ensures { OnOk result (map mention_of mentions.new.items
        ≡ map mention_of mentions.old.items ++ (map (λ d. AVariable d.name) (map declared_of area.now.list.items) ++ mentions_of_sizes (map declared_of area.now.list.items))) }
{
    collect_names(&area.list, mentions)?;
    collect_sizes(&area.list, mentions)
}

fn collect_areas<'a>(areas: &'a [Area], mentions: &mut Vec<Mention<'a>>) -> Result<(), AllocError>
    ensures { OnOk result (map mention_of mentions.new.items
        ≡ map mention_of mentions.old.items ++ flat_map (λ a. map (λ d. AVariable d.name) a.list ++ mentions_of_sizes a.list) (map area_of areas.now)) }
{
    for area in areas {
        collect_area(area, mentions)?;
    }
    Ok(())
}

/// Adds the names in the places of a list.
fn collect_places<'a>(
    names: &UnitNames<'a>,
    list: &'a [Expr],
    mentions: &mut Vec<Mention<'a>>,
) -> Result<(), AllocError>
    ensures { OnOk result (map mention_of mentions.new.items ≡ map mention_of mentions.old.items ++ flat_map (mentions_of (context_in names.now)) (map formula_of list.now)) }
{
    for e in list {
        collect(names, e, mentions)?;
    }
    Ok(())
}

fn collect_groups<'a>(
    names: &UnitNames<'a>,
    groups: &'a [List<Expr>],
    mentions: &mut Vec<Mention<'a>>,
) -> Result<(), AllocError>
    ensures { OnOk result (map mention_of mentions.new.items
        ≡ map mention_of mentions.old.items ++ flat_map (λ es. flat_map (mentions_of (context_in names.now)) es) (map (λ group. map formula_of group.items) groups.now)) }
{
    for group in groups {
        collect_places(names, group, mentions)?;
    }
    Ok(())
}

/// Adds the names in the places that DATA fills.
fn collect_presets<'a>(
    names: &UnitNames<'a>,
    parts: &'a [PresetPart],
    mentions: &mut Vec<Mention<'a>>,
) -> Result<(), AllocError>
    ensures { OnOk result (map mention_of mentions.new.items
        ≡ map mention_of mentions.old.items ++ flat_map (λ p. flat_map (mentions_of (context_in names.now)) p.places) (map preset_of parts.now)) }
{
    for part in parts {
        collect_places(names, &part.places, mentions)?;
    }
    Ok(())
}
