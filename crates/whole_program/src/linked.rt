// A linked program.
ghost use Rattle.std.specs.Prelude.{◌≡◌, IfOk};
ghost use Rattle.program_storage.specs.Numbers.{number_in_program, spot_in_program};
ghost use Rattle.whole_program.specs.Linked.{found_in, initial_in};

use f66_tree::Unit;
use ground::Value;
use linker::Calls;
use program_storage::{ProgramStorage, Spot};
use std::alloc::{AllocError, Global};
use storage_rules::Preset;

/// The units of a whole program with their calls, the numbers of their storage units, the number of the main, and the places that
/// DATA fills with their numbers.
#[derive(Drop)]
pub struct Linked<'a> {
    pub calls: Calls<'a>,
    pub storage: ProgramStorage<'a>,
    pub main: usize,
    pub presets: Vec<Preset<'a>>,
    pub numbers: Vec<usize>,
}

impl<'a> Linked<'a> {
    /// The units, which count from 0 on.
    pub fn units(&self) -> &'a [Unit]
        ensures { result.now ≡ self.now.calls.units.now }
    {
        self.calls.units
    }

    /// The number of the first subroutine or function of this name, where there is one.
    pub fn find(&self, name: &[u8]) -> Option<usize>
        ensures { result ≡ found_in self.now name.now }
    {
        match self.calls.numbers.get(name) {
            Some(number) => Some(*number),
            None => None,
        }
    }

    /// The places of a name of a unit, where it has any of its own: the number of the first, which the others follow.
    pub fn spot(&self, unit: usize, name: &[u8]) -> Option<Spot>
        ensures { result ≡ spot_in_program self.now.storage unit name.now }
    {
        self.storage.spot_of(unit, name)
    }

    /// The number of the storage unit of a place of a name of a unit, where it has one. Places count from 0 on.
    pub fn number(&self, unit: usize, name: &[u8], place: usize) -> Option<usize>
        ensures { result ≡ number_in_program self.now.storage unit name.now place }
    {
        self.storage.number_of(unit, name, place)
    }

    /// How many storage units there are.
    pub fn total(&self) -> usize
        ensures { result ≡ self.now.storage.total }
    {
        self.storage.total
    }

    /// The numbers of the storage units that DATA fills, with their values, in reading order. A constant that is no value gives none.
    pub fn initial(&self, alloc: Global) -> Result<Vec<(usize, Option<Value>)>, AllocError>
        ensures { IfOk result (λ v. v.items ≡ initial_in self.now.numbers.items self.now.presets.items) }
    {
        let mut pairs = Vec::new(alloc);
        for (k, preset) in self.presets.iter().enumerate() {
            let Some(number) = self.numbers.get(k) else {
                return Ok(pairs);
            };
            pairs.push((*number, preset.value))?;
        }
        Ok(pairs)
    }
}
