//! The laws of sound units of FORTRAN 66: they never go wrong.
#![tactic(auto)]

mod laws;

pub use laws::{sound_by_acts, sound_never_wrong};
