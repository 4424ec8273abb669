// The check of scopes.
ghost use Rattle.std.specs.Prelude.{◌≡◌, IfOk, IfErr, OnOk};
ghost use Rattle.efl_tree.specs.Views.{program_of};
ghost use Rattle.efl_scope.specs.FirstFault.{first_fault as first_fault_of};
ghost use Rattle.efl_scoped.specs.Answers.{IsScoped, IsRightRefusal};

use crate::areas::areas_of;
use efl_scope::program_fault;
use efl_tree::EflProgram;
use ground::{Fault, Refusal};
use std::alloc::{AllocError, Global};
use std::marker::Model;

/// A program whose scopes have no fault. Contracts see it as the program that it was made of.
#[derive(Drop)]
pub struct Scoped {
    program: EflProgram,
}

impl Model for Scoped {
    ghost use Rattle.efl_tree.specs.declared.procedure.EflProgram.{EflProgram};
    ghost use Rattle.efl_tree.specs.Views.{program_of};
    ghost use Rattle.efl_scoped.specs.Answers.{IsScoped};
    ghost use Rattle.efl_tree.specs.contracts.procedure.EflProgram as program_type;

    ghost Value = { EflProgram };

    ghost coded = { program_type.the_row.coded };

    ghost view = { λ s. s.program };

    ghost invariant = { λ s. IsScoped (program_of s.program) };
}

impl Scoped {
    /// The program, no part of which breaks a rule of scopes.
    pub fn program(&self) -> &EflProgram
        ensures program { result.now ≡ self.now }
        ensures scoped { IsScoped (program_of self.now) }
    {
        &self.program
    }
}

/// The program, exactly where its scopes have no fault (Feldman, The Programming Language EFL: program form; declarations); else
/// exactly the first fault.
pub fn scope(alloc: Global, program: EflProgram) -> Result<Scoped, Refusal>
    ensures accepted { IfOk result (λ s. s ≡ program) }
    ensures scoped { OnOk result (IsScoped (program_of program)) }
    ensures refused { IfErr result (IsRightRefusal (program_of program)) }
{
    match first_fault(alloc, &program) {
        Err(_) => Err(Refusal::Memory),
        Ok(Some(fault)) => Err(Refusal::Fault(fault)),
        Ok(None) => Ok(Scoped { program }),
    }
}

fn first_fault(alloc: Global, program: &EflProgram) -> Result<Option<Fault>, AllocError>
    ensures { IfOk result (λ fault. fault ≡ first_fault_of (program_of program.now)) }
{
    let areas = areas_of(alloc, &program.procedures)?;
    program_fault(alloc, &areas.firsts, &areas.lists, program)
}
