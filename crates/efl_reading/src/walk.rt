// What a walk over the parts of a program knows.
ghost use Rattle.std.specs.Prelude.{[], map, IfOk};
ghost use Rattle.efl_tree.specs.Views.{procedure_of};
ghost use Rattle.efl_reading.specs.Walked.{Read};

use crate::progress::Progress;
use efl_storage::{Firsts, Storage, first_areas};
use efl_tree::EflProcedure;
use std::alloc::{AllocError, Global};

/// What a walk over the parts of a program knows behind those that it has read: the first fault, and the places that count. Contracts
/// see it by `Read`.
#[derive(Drop)]
pub struct Walk<'a> {
    pub progress: Progress,
    pub storage: Storage,
    pub firsts: Firsts<'a>,
}

impl<'a> Walk<'a> {
    /// Before the first part of a program.
    pub fn new(alloc: Global, procedures: &'a [EflProcedure]) -> Result<Walk<'a>, AllocError>
        ensures { IfOk result (λ walk. Read (map procedure_of procedures.now) [] walk) }
    {
        let storage = Storage::new(alloc, procedures.len())?;
        let firsts = first_areas(alloc, procedures)?;
        Ok(Walk {
            progress: Progress::new(alloc),
            storage,
            firsts,
        })
    }
}
