//! The records of a source, one at a time: it is read only where one is asked for that the bytes at hand do not hold.
#![tactic(auto)]

mod intake;

pub use intake::{Found, Intake};
