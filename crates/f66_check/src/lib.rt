//! Which units of FORTRAN 66 are sound, and exactly the first fault of those that are not.
#![tactic(auto)]

mod parts;
mod sound;

pub use sound::{SoundUnit, check_unit};
