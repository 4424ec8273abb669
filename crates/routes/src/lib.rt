//! A small language between a source's statements and those of FORTRAN: lists, rings that a statement may leave, and cycles; and why the
//! statements of FORTRAN that it becomes do the same.
#![tactic(auto)]

mod laws;

pub use laws::units_reach_routes;
