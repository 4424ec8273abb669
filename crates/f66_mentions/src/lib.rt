//! Where names stand in the statements of a unit: as variables, in calls, as intrinsic functions; and their dimensions.
#![tactic(auto)]

mod dimensions;
mod dummies;
mod mentions;
mod names;
mod unit_names;

pub use mentions::{Mention, mentions_into};
pub use names::{is_dummy, is_intrinsic, sizes_of};
pub use unit_names::{UnitNames, names_of};
