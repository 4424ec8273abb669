// The places of variables, counted where a walk reads the parts that list and meet them.
ghost use Rattle.std.specs.Prelude.{◌≡◌, List, [], ◌∷◌, Some, option_map, IfOk, OnOk};
ghost use Rattle.efl_tree.specs.Syntax.{Text, EflProcedure as ProcedureSeen};
ghost use Rattle.efl_tree.specs.Views.{decl_kind_of, expr_of, kind_of};
ghost use Rattle.efl_scope.specs.Parts.{Around, States, Until};
ghost use Rattle.efl_scope.specs.Scopes.{Blocks as BlocksSeen, Variable, meaning, variable_if};
ghost use Rattle.efl_types.specs.Storage.{counted};
ghost use Rattle.efl_scoped.specs.Numbers.{Table};
ghost use Rattle.efl_scoped.specs.Seen.{table_of};
ghost use Rattle.efl_expressions.specs.declared.types.Structure as structures;
ghost use Rattle.efl_expressions.specs.NameViews.{Know};
ghost use Rattle.efl_variables.specs.Numbered.{scalar_kind as kind_seen};
ghost use Rattle.efl_storage.specs.Named.{texts_of};
ghost use Rattle.efl_storage.specs.Parts.{Sees};
ghost use Rattle.efl_blocks.specs.declared.types.Types.{Types};
ghost use Rattle.efl_blocks.specs.HomeViews.{position_of};
ghost use Rattle.efl_initial_values.specs.Owners.{shared_in};
ghost use Rattle.efl_reading.specs.Reading.{IsSite};
ghost use Rattle.efl_reading.specs.Counting.{CountsAt, CountsDeclaration, CountsHeader, ArePlaces, TakesFormals, TakesListed, IsPlace};

use crate::Site;
use efl_blocks::{Position, home_of};
use efl_expressions::{Block, Blocks, nothing, variable_type};
use efl_initial_values::Areas;
use efl_storage::{
    Firsts, Sight, Storage, is_formal, listed_by_declaration, listed_by_header, scalar_kind,
    take_condition, take_statement, take_uses,
};
use efl_tree::{EflDeclKind, EflExpr, EflKind, EflName};
use ground::Kind;
use std::alloc::{AllocError, Global};

/// The number of the place of a procedure's outer block.
const TOP: usize = 0;

/// A statement comes, without those in it.
pub fn count_statement(
    alloc: Global,
    kind: &EflKind,
    site: &Site,
    storage: &mut Storage,
) -> Result<(), AllocError>
    ensures { OnOk result ((y : Types) (labels : List Text) → CountsAt y site.now (States labels (kind_of kind.now)) storage.old storage.new) }
{
    take_statement(alloc, kind, &sight_of(site), storage)
}

/// The condition of an `until` comes.
pub fn count_condition(
    alloc: Global,
    e: &EflExpr,
    site: &Site,
    storage: &mut Storage,
) -> Result<(), AllocError>
    ensures { OnOk result ((y : Types) → CountsAt y site.now (Until (expr_of e.now)) storage.old storage.new) }
{
    take_condition(alloc, e, &sight_of(site), storage)
}

/// The header of a procedure with this number and this outer block comes.
pub fn count_header(
    alloc: Global,
    unit: usize,
    formals: &[EflName],
    block: &Block,
    storage: &mut Storage,
) -> Result<(), AllocError>
    ensures { OnOk result (CountsHeader unit formals.now block.now storage.old storage.new) }
{
    let names = listed_by_header(alloc, formals)?;
    let blocks = Blocks::Inside(block, &Blocks::Outside);
    meet_formals(alloc, unit, &names, &blocks, storage)
}

/// A declaration comes, with its block and those around it known.
pub fn count_declaration(
    alloc: Global,
    kind: &EflDeclKind,
    site: &Site,
    firsts: &Firsts,
    storage: &mut Storage,
) -> Result<(), AllocError>
    ensures { OnOk result ((y : Types) → CountsDeclaration y site.now firsts.now (decl_kind_of kind.now) storage.old storage.new) }
{
    let names = listed_by_declaration(alloc, kind)?;
    meet_listed(alloc, &names, site, firsts, storage)?;
    take_uses(alloc, kind, &sight_of(site), storage)
}

/// What a part sees of its procedure.
fn sight_of<'s, 'a>(site: &Site<'s, 'a>) -> Sight<'s, 'a>
    ensures unit { result.unit ≡ site.now.procedure.now.unit }
    ensures sees { (y : Types) (us : List ProcedureSeen) (u : ProcedureSeen) (a : Around) → IsSite y us u a site.now →
        Sees (table_of y.numbers) y.structures.list.items us u a.blocks result }
{
    let procedure = site.procedure;
    Sight {
        unit: procedure.unit,
        formals: procedure.formals,
        letters: procedure.letters,
        blocks: site.blocks,
    }
}

/// All formals of a procedure come, of which these are the blocks. They have no places.
fn meet_formals(
    alloc: Global,
    unit: usize,
    names: &[&[u8]],
    blocks: &Blocks,
    storage: &mut Storage,
) -> Result<(), AllocError>
    ensures { OnOk result (TakesFormals unit (texts_of names.now) blocks.now (texts_of names.now) storage.old storage.new) }
{
    for name in names {
        let kind = declared_kind(name, blocks);
        storage.meet_named(alloc, unit, TOP, name, kind, 0)?;
    }
    Ok(())
}

/// Names that a declaration lists come.
fn meet_listed(
    alloc: Global,
    names: &[&[u8]],
    site: &Site,
    firsts: &Firsts,
    storage: &mut Storage,
) -> Result<(), AllocError>
    ensures { OnOk result ((y : Types) → TakesListed y site.now firsts.now (texts_of names.now) storage.old storage.new) }
{
    for name in names {
        meet_name(alloc, name, site, firsts, storage)?;
    }
    Ok(())
}

/// A name that a declaration lists comes.
fn meet_name(
    alloc: Global,
    name: &[u8],
    site: &Site,
    firsts: &Firsts,
    storage: &mut Storage,
) -> Result<(), AllocError>
    ensures { OnOk result ((y : Types) → TakesListed y site.now firsts.now (name.now ∷ []) storage.old storage.new) }
{
    match home_of(site.homes, name) {
        None => Ok(()),
        Some(position) => {
            let places = places_at(position, name, site, firsts);
            let kind = declared_kind(name, site.blocks);
            let home = number_place(position, storage)?;
            storage.meet_named(alloc, site.procedure.unit, home, name, kind, places)
        }
    }
}

/// The number of a place in a procedure.
fn number_place(position: &Position, storage: &mut Storage) -> Result<usize, AllocError>
    ensures { IfOk result (λ n. IsPlace storage.old (position_of position.now) storage.new n) }
{
    match position {
        Position::Top => Ok(TOP),
        Position::Inside(step, outside) => {
            let home = number_place(outside, storage)?;
            storage.place_within(*step, home)
        }
    }
}

/// How many places count of a variable whose block stands at this position.
fn places_at(position: &Position, name: &[u8], site: &Site, firsts: &Firsts) -> u64
    ensures { (y : Types) → ArePlaces y site.now firsts.now name.now (position_of position.now) result }
{
    match position {
        Position::Inside(_, _) => declared_places(name, site.blocks),
        Position::Top => outer_places(name, site, firsts),
    }
}

/// Of a variable of the outer block, where it is no formal, and its procedure is the first that has the area.
fn outer_places(name: &[u8], site: &Site, firsts: &Firsts) -> u64
    ensures { (y : Types) → ArePlaces y site.now firsts.now name.now [] result }
{
    let procedure = site.procedure;
    if is_formal(name, procedure.formals) {
        return 0;
    }
    if !firsts.is_first(procedure.unit, area_of(name, procedure.areas)) {
        return 0;
    }
    declared_places(name, site.blocks)
}

/// The area of a variable of the outer block.
fn area_of<'a>(name: &[u8], areas: &Areas<'a>) -> Option<&'a [u8]>
    ensures { option_map (λ q. q.now) result ≡ option_map (λ s. s.0) (shared_in areas.now name.now) }
{
    match areas.get(name) {
        None => None,
        Some(shared) => Some(shared.area),
    }
}

/// The places of a variable that is declared.
fn declared_places(name: &[u8], blocks: &Blocks) -> u64
    ensures { (f : Table) (ss : List structures.Structure) (bs : BlocksSeen) (v : Variable) → Know f ss bs blocks.now → variable_if (meaning bs name.now) ≡ Some v → result ≡ counted v.kind }
{
    variable_type(blocks, name, &nothing()).summary.places
}

/// The type of a variable that is declared, where it is a scalar.
fn declared_kind(name: &[u8], blocks: &Blocks) -> Option<Kind>
    ensures { (f : Table) (ss : List structures.Structure) (bs : BlocksSeen) (v : Variable) → Know f ss bs blocks.now → variable_if (meaning bs name.now) ≡ Some v → kind_seen v.kind ≡ result }
{
    scalar_kind(&variable_type(blocks, name, &nothing()))
}
