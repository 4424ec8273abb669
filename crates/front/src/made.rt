// What becomes of an accepted text.
use f66_tree::Unit;
use ground::{List, Place};

/// The units of a program of FORTRAN, each in the place of a unit of its source, and where the source ends.
#[derive(Drop)]
pub struct Made {
    pub units: List<Unit>,
    pub finish: Place,
}
