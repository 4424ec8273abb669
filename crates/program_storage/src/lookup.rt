// The storage units of a name of a unit.
ghost use Rattle.std.specs.Prelude.{◌≡◌};
ghost use Rattle.program_storage.specs.Numbers.{number_in_program, spot_in_program};
ghost use Rattle.program_storage.specs.Parts.{find_in, row_in};

use crate::program::ProgramStorage;
use crate::spot::Spot;
use crate::unit_rows::UnitRows;

impl<'a> UnitRows<'a> {
    /// The row of a name in the program, where the name has places of the unit's own.
    pub fn row_of(&self, name: &[u8]) -> Option<usize>
        ensures { result ≡ row_in self.now name.now }
    {
        let row = *self.rows.get(name)?;
        let whole = self.whole.as_slice();
        Some(whole[row])
    }
}

impl<'a> ProgramStorage<'a> {
    /// The row of a name of a unit, where it has places of its own.
    fn row_of(&self, unit: usize, name: &[u8]) -> Option<usize>
        ensures { result ≡ find_in self.now.units.items unit name.now }
    {
        let rows = self.units.get(unit)?;
        rows.row_of(name)
    }

    /// The places of a name of a unit, where it has any of its own. Units count from 0 on.
    pub fn spot_of(&self, unit: usize, name: &[u8]) -> Option<Spot>
        ensures { result ≡ spot_in_program self.now unit name.now }
    {
        let row = self.row_of(unit, name)?;
        let sizes = self.sizes.as_slice();
        let firsts = self.firsts.as_slice();
        Some(Spot {
            first: firsts[row],
            size: sizes[row],
        })
    }

    /// The number of the storage unit of a place of a name of a unit, where it has one. Units and places count from 0 on.
    pub fn number_of(&self, unit: usize, name: &[u8], place: usize) -> Option<usize>
        ensures { result ≡ number_in_program self.now unit name.now place }
    {
        let row = self.row_of(unit, name)?;
        let sizes = self.sizes.as_slice();
        let firsts = self.firsts.as_slice();
        if place < sizes[row] {
            Some(firsts[row] + place)
        } else {
            None
        }
    }
}
