// The places of a program's variables, counted part by part.
ghost use Rattle.std.specs.Prelude.{◌≡◌, List, [], length, map, IfOk, OnOk};
ghost use Rattle.efl_tree.specs.Syntax.{EflProcedure as ProcedureSeen, EflProgram as ProgramSeen};
ghost use Rattle.efl_tree.specs.Views.{procedure_of};
ghost use Rattle.efl_scope.specs.Parts.{program_parts};
ghost use Rattle.efl_types.specs.Storage.{storage_fault};
ghost use Rattle.efl_storage.specs.Counted.{Counted, AddsPlaces};
ghost use Rattle.efl_storage.specs.Meets.{MeetsNamed, IsWithin};

use crate::limit::passed;
use efl_tree::EflProcedure;
use efl_variables::Variables;
use ground::{Fault, Kind};
use std::alloc::{AllocError, Global};

/// How many places count of a procedure, which are one more than a program may have.
const PASSED: u64 = 1_000_001;

/// The variables that were met, and the places of each procedure. Contracts see by `Counted` behind which parts.
#[derive(Drop)]
pub struct Storage {
    pub variables: Variables,
    pub places: Vec<u64>,
}

impl Storage {
    /// Before the first part of a program that has so many procedures.
    pub fn new(alloc: Global, many: usize) -> Result<Storage, AllocError>
        ensures { IfOk result (λ storage. (us : List ProcedureSeen) → length us ≡ many → Counted us [] storage) }
    {
        let places = vec![in alloc; 0; many]?;
        Ok(Storage {
            variables: Variables::new(alloc),
            places,
        })
    }

    /// The fault of a program whose parts are all counted: where its variables pass the limit.
    pub fn fault(&self, procedures: &[EflProcedure]) -> Option<Fault>
        ensures { (p : ProgramSeen) → p.procedures ≡ map procedure_of procedures.now → Counted p.procedures (program_parts p) self.now → result ≡ storage_fault p }
    {
        passed(&self.places, procedures)
    }

    /// A variable of a procedure is met, of which so many places count, by the number of the place of its block, with its type where it is a
    /// scalar.
    pub fn meet_named(
        &mut self,
        alloc: Global,
        unit: usize,
        home: usize,
        name: &[u8],
        kind: Option<Kind>,
        many: u64,
    ) -> Result<(), AllocError>
        ensures { OnOk result (MeetsNamed self.old unit home name.now kind many self.new) }
    {
        if self.variables.meet(alloc, unit, home, name, kind)? {
            add_places(&mut self.places, unit, many);
        }
        Ok(())
    }

    /// The number of the place with this number in its list within another place, of which the outermost has 0.
    pub fn place_within(&mut self, step: usize, outside: usize) -> Result<usize, AllocError>
        ensures { IfOk result (λ n. IsWithin self.old step outside self.new n) }
    {
        self.variables.place_within(step, outside)
    }
}

fn add_places(places: &mut Vec<u64>, unit: usize, many: u64)
    ensures { AddsPlaces places.old.items unit many places.new.items }
{
    if unit < places.len() {
        places[unit] = places[unit].saturating_add(many).min(PASSED);
    }
}
