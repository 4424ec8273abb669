// The first form of a program that is not built yet.
ghost use Rattle.std.specs.Prelude.{◌≡◌, map};
ghost use Rattle.efl_tree.specs.Views.{procedure_of, program_of};
ghost use Rattle.efl_built.specs.Unbuilt.{first_unbuilt as first_unbuilt_seen};
ghost use Rattle.efl_built.specs.Walks.{first_in_procedure as first_in_procedure_seen, first_in_procedures as first_in_procedures_seen};

use crate::declarations::first_declared;
use crate::statements::first_listed;
use efl_tree::{EflProcedure, EflProgram};
use ground::Place;

/// Where the first part of a program stands that has a form which is not built yet, in reading order.
pub fn first_unbuilt(program: &EflProgram) -> Option<Place>
    ensures { result ≡ first_unbuilt_seen (program_of program.now) }
{
    first_in_procedures(&program.procedures)
}

fn first_in_procedures(list: &[EflProcedure]) -> Option<Place>
    ensures { result ≡ first_in_procedures_seen (map procedure_of list.now) }
{
    for procedure in list {
        if let Some(place) = first_in_procedure(procedure) {
            return Some(place);
        }
    }
    None
}

fn first_in_procedure(procedure: &EflProcedure) -> Option<Place>
    ensures { result ≡ first_in_procedure_seen (procedure_of procedure.now) }
{
    if let Some(place) = first_declared(&procedure.declarations) {
        return Some(place);
    }
    first_listed(&procedure.body)
}
