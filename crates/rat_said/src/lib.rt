//! The unit of FORTRAN that says what a unit of Ratfor says, statement by statement in reading order.
#![tactic(auto)]

mod brief;
mod said;
mod variables;

pub use brief::brief_unit;
pub use said::said_unit;
