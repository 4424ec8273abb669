//! The units of FORTRAN that a program of EFL becomes, as definitions, and the laws that they do what it means.
#![tactic(auto)]

mod laws;

pub use laws::{accepted_is_ready, scalar_units_agree};
