// The number of a place.
ghost use Rattle.std.specs.Prelude.{◌≡◌};
ghost use Rattle.storage_assoc.specs.PlaceNumbers.{number_at};

use crate::association::Association;

impl<'a> Association<'a> {
    /// The number of the storage unit of a place of a name, where it has one. Places count from 0 on.
    pub fn number_of(&self, name: &[u8], place: usize) -> Option<usize>
        ensures { result ≡ number_at self.now name.now place }
    {
        let row = *self.rows.get(name)?;
        let sizes = self.sizes.as_slice();
        let firsts = self.firsts.as_slice();
        if place < sizes[row] {
            Some(firsts[row] + place)
        } else {
            None
        }
    }
}
