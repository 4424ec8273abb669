// The dimensions that the statements of a unit give its names.
ghost use Rattle.std.specs.Prelude.{◌≡◌, ℕ, List, OnOk, IfOk, map, option_map};
ghost use Rattle.std.specs.HashMap.{get_by};
ghost use Rattle.std.specs.List.{flat_map};
ghost use Rattle.std.specs.Option.{option_or};
ghost use Rattle.std.specs.Str.{bytes_eq};
ghost use Rattle.rule_table.specs.Words.{find_map};
ghost use Rattle.f66_tree.specs.Views.{act_of, area_of, declared_of, par_of};
ghost use Rattle.f66_mentions.specs.Dimensions.{dims_in, given_by};

use f66_tree::{Area, Declared, Par, Stmt, StmtKind};
use rule_table::note;
use std::alloc::{AllocError, Global};
use std::collections::HashMap;

/// The dimensions of the names of a unit with these statements, by the first that gives some.
pub(crate) fn dimensions_of<'a>(
    alloc: Global,
    statements: &'a [Stmt],
) -> Result<HashMap<&'a [u8], &'a [Par]>, AllocError>
    ensures { IfOk result (λ t. (q : List ℕ) → option_map (λ ps. map par_of ps.now) (get_by (λ k. bytes_eq q k.now) t)
        ≡ find_map (dims_in q) (map (λ s. act_of s.kind) statements.now)) }
{
    let mut dims = HashMap::new(alloc);
    for statement in statements {
        note_in(&mut dims, &statement.kind)?;
    }
    Ok(dims)
}

/// Notes the dimensions that a statement gives.
fn note_in<'a>(
    dims: &mut HashMap<&'a [u8], &'a [Par]>,
    kind: &'a StmtKind,
) -> Result<(), AllocError>
    ensures { OnOk result ((q : List ℕ) → option_map (λ ps. map par_of ps.now) (get_by (λ k. bytes_eq q k.now) dims.new)
        ≡ option_or (option_map (λ ps. map par_of ps.now) (get_by (λ k. bytes_eq q k.now) dims.old)) (dims_in q (act_of kind.now))) }
{
    match kind {
        StmtKind::Typed(_, list) => note_list(dims, list),
        StmtKind::Dimension(list) => note_list(dims, list),
        StmtKind::Common(areas) => note_areas(dims, areas),
        _ => Ok(()),
    }
}

fn note_areas<'a>(
    dims: &mut HashMap<&'a [u8], &'a [Par]>,
    areas: &'a [Area],
) -> Result<(), AllocError>
    ensures { OnOk result ((q : List ℕ) → option_map (λ ps. map par_of ps.now) (get_by (λ k. bytes_eq q k.now) dims.new)
        ≡ option_or (option_map (λ ps. map par_of ps.now) (get_by (λ k. bytes_eq q k.now) dims.old))
        (find_map (given_by q) (flat_map (λ a. a.list) (map area_of areas.now)))) }
{
    for area in areas {
        note_list(dims, &area.list)?;
    }
    Ok(())
}

fn note_list<'a>(
    dims: &mut HashMap<&'a [u8], &'a [Par]>,
    list: &'a [Declared],
) -> Result<(), AllocError>
    ensures { OnOk result ((q : List ℕ) → option_map (λ ps. map par_of ps.now) (get_by (λ k. bytes_eq q k.now) dims.new)
        ≡ option_or (option_map (λ ps. map par_of ps.now) (get_by (λ k. bytes_eq q k.now) dims.old)) (find_map (given_by q) (map declared_of list.now))) }
{
    for declared in list {
        note_sizes(dims, declared)?;
    }
    Ok(())
}

/// Notes the dimensions of a name that has some.
fn note_sizes<'a>(
    dims: &mut HashMap<&'a [u8], &'a [Par]>,
    declared: &'a Declared,
) -> Result<(), AllocError>
    ensures { OnOk result ((q : List ℕ) → option_map (λ ps. map par_of ps.now) (get_by (λ k. bytes_eq q k.now) dims.new)
        ≡ option_or (option_map (λ ps. map par_of ps.now) (get_by (λ k. bytes_eq q k.now) dims.old)) (given_by q (declared_of declared.now))) }
{
    if declared.sizes.is_empty() {
        return Ok(());
    }
    note(dims, declared.name.as_bytes(), declared.sizes.as_slice())
}
