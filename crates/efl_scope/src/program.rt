// The first fault of procedures, whose areas are known.
ghost use Rattle.std.specs.Prelude.{◌≡◌, IfOk, length, map};
ghost use Rattle.efl_tree.specs.Views.{procedure_of, program_of};
ghost use Rattle.efl_scope.specs.AreaViews.{agreeing_in, AreAgreements, first_along};
ghost use Rattle.efl_scope.specs.FirstFault.{first_fault};
ghost use Rattle.efl_scope.specs.Sights.{procedure_seen};

use crate::{AreaLists, Areas, procedure_fault};
use efl_tree::{EflProcedure, EflProgram};
use ground::Fault;
use std::alloc::{AllocError, Global};

/// The first fault of a program, where lists tell of each procedure which of its areas agree.
pub fn program_fault<'a>(
    alloc: Global,
    firsts: &AreaLists<'a>,
    lists: &[AreaLists<'a>],
    program: &EflProgram,
) -> Result<Option<Fault>, AllocError>
    requires { AreAgreements firsts.now (program_of program.now).procedures lists.now (program_of program.now).procedures }
    ensures { IfOk result (λ fault. fault ≡ first_fault (program_of program.now)) }
{
    first_fault_along(alloc, &*firsts, lists, &program.procedures)
}

/// The first fault of procedures, each with the lists of its areas, where these are the first ones.
fn first_fault_along<'a>(
    alloc: Global,
    firsts: &AreaLists<'a>,
    lists: &[AreaLists<'a>],
    procedures: &[EflProcedure],
) -> Result<Option<Fault>, AllocError>
    requires { length lists.now ≡ length procedures.now }
    ensures { IfOk result (λ fault. fault ≡ first_along firsts.now lists.now (map procedure_of procedures.now)) }
{
    for i in 0..procedures.len() {
        let fault = fault_with(alloc, &*firsts, &lists[i], &procedures[i])?;
        if fault.is_some() {
            return Ok(fault);
        }
    }
    Ok(None)
}

fn fault_with<'c, 'a>(
    alloc: Global,
    firsts: &'c AreaLists<'a>,
    own: &'c AreaLists<'a>,
    procedure: &EflProcedure,
) -> Result<Option<Fault>, AllocError>
    ensures { IfOk result (λ fault. fault ≡ (procedure_seen (agreeing_in firsts.now own.now) (procedure_of procedure.now)).fault) }
{
    let areas = Areas { firsts, own };
    procedure_fault(alloc, &areas, procedure)
}
