//! From the tree of an accepted program of EFL to its units of FORTRAN.
#![tactic(auto)]

mod laws;
mod program;

pub use laws::accepted_serves;
pub use program::lower;
