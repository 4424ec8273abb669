// Where parts stand.
ghost use Rattle.std.specs.Prelude.{List};
ghost use Rattle.efl_tree.specs.Syntax.{EflProcedure};
ghost use Rattle.efl_scope.specs.Parts.{Around};
ghost use Rattle.efl_scoped.specs.Seen.{table_of};
ghost use Rattle.efl_names.specs.NameViews.{Stands};
ghost use Rattle.efl_reading.specs.Reading.{IsSite};
ghost use Rattle.efl_checks.specs.Walks.{names_around, IsKnown, IsMade};

use efl_blocks::{Homes, Position, Types, names_within};
use efl_expressions::Blocks;
use efl_initial_values::Areas;
use efl_names::{Letters, Names, Outcome, Units};
use efl_reading::{Procedure, Site};
use efl_tree::EflName;

/// A procedure of the program, as its parts see it.
pub fn procedure_at<'c, 'a>(
    unit: usize,
    formals: &'c [EflName],
    letters: &'c Letters<'a>,
    units: &'c Units<'a>,
    outcome: Outcome,
    areas: &'c Areas<'a>,
) -> Procedure<'c, 'a>
    ensures { IsKnown unit formals.now letters.now units.now outcome areas.now result }
{
    Procedure {
        unit,
        formals,
        letters,
        units,
        outcome,
        areas,
    }
}

/// A part of a procedure that stands there, with these blocks around it.
pub fn site_at<'c, 'a>(
    procedure: &'c Procedure<'c, 'a>,
    position: &'c Position<'c>,
    formals: &'c [EflName],
    blocks: &'c Blocks<'c, 'a>,
    homes: &'c Homes<'c, 'a>,
) -> Site<'c, 'a>
    ensures { IsMade procedure.now position.now formals.now blocks.now homes.now result }
{
    Site {
        procedure,
        position,
        formals,
        blocks,
        homes,
    }
}

/// The names of a part that stands there.
pub fn names_at<'c, 'a>(site: &Site<'c, 'a>, types: &'c Types<'a>) -> Names<'c, 'a>
    ensures { (us : List EflProcedure) (u : EflProcedure) (a : Around) → IsSite types.now us u a site.now → Stands (table_of types.now.numbers) (names_around us u a) result }
{
    let own = site.procedure;
    names_within(types, site.blocks, own.letters, own.units, own.outcome)
}
