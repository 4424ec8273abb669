// The procedures of a program.
ghost use Rattle.std.specs.Prelude.{OnOk, map};
ghost use Rattle.efl_tree.specs.Views.{procedure_of};
ghost use Rattle.efl_checks.specs.Walks.{AddsHeader, ReadsOuter, ReadsProcedure, ReadsAll};

use crate::sites::{procedure_at, site_at};
use crate::statements::check_inside;
use efl_blocks::{Homes, Outer, Position, Types, outcome_of};
use efl_declarations::check_declarations;
use efl_expressions::{Block, Blocks};
use efl_initial_values::areas_of;
use efl_names::{Letters, Units};
use efl_reading::{Procedure, Walk, count_header};
use efl_statements::header_rule;
use efl_tree::EflProcedure;
use std::alloc::{AllocError, Global};

/// The procedures of a program, with their outer blocks.
pub fn check_procedures<'a>(
    alloc: Global,
    list: &'a [EflProcedure],
    outers: Vec<Outer<'a>>,
    units: &Units<'a>,
    types: &mut Types<'a>,
    walk: &mut Walk,
) -> Result<(), AllocError>
    ensures { OnOk result (ReadsAll types.old (map procedure_of list.now) outers.entry.items units.now walk.old types.new walk.new) }
{
    let mut rest = outers.into_iter();
    for (unit, procedure) in list.iter().enumerate() {
        if let Some(outer) = rest.next() {
            check_procedure(alloc, unit, procedure, outer, units, types, walk)?;
        }
    }
    Ok(())
}

/// A procedure with all that it holds.
fn check_procedure<'a>(
    alloc: Global,
    unit: usize,
    procedure: &'a EflProcedure,
    outer: Outer<'a>,
    units: &Units<'a>,
    types: &mut Types<'a>,
    walk: &mut Walk,
) -> Result<(), AllocError>
    ensures { OnOk result (ReadsProcedure types.old unit (procedure_of procedure.now) outer.entry units.now walk.old types.new walk.new) }
{
    let letters = outer.letters;
    note_header(alloc, unit, procedure, &letters, &outer.block, walk)?;
    let areas = areas_of(alloc, &procedure.declarations)?;
    let own = procedure_at(
        unit,
        &procedure.formals,
        &letters,
        units,
        outcome_of(&procedure.result),
        &areas,
    );
    check_outer(alloc, procedure, outer.block, &own, types, walk)
}

/// The header of the procedure with this number and this outer block.
fn note_header(
    alloc: Global,
    unit: usize,
    procedure: &EflProcedure,
    letters: &Letters,
    block: &Block,
    walk: &mut Walk,
) -> Result<(), AllocError>
    ensures { OnOk result (AddsHeader unit (procedure_of procedure.now) letters.now block.now walk.old walk.new) }
{
    let rule = header_rule(alloc, procedure, letters)?;
    walk.progress.note(procedure.place, rule);
    count_header(alloc, unit, &procedure.formals, block, &mut walk.storage)
}

/// The declarations and statements of a procedure, of which this is the outer block.
fn check_outer<'a>(
    alloc: Global,
    procedure: &'a EflProcedure,
    block: Block<'a>,
    own: &Procedure<'_, 'a>,
    types: &mut Types<'a>,
    walk: &mut Walk,
) -> Result<(), AllocError>
    ensures { OnOk result (ReadsOuter types.old (procedure_of procedure.now) block.entry own.now walk.old types.new walk.new) }
{
    let mut known = block;
    let site = site_at(
        own,
        &Position::Top,
        &procedure.formals,
        &Blocks::Outside,
        &Homes::Outside,
    );
    check_declarations(
        alloc,
        &procedure.declarations,
        &site,
        &mut known,
        types,
        walk,
    )?;
    check_inside(alloc, &procedure.body, &known, &site, types, walk)
}
