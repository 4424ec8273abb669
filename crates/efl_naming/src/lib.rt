//! The names of FORTRAN that are chosen for what is in a program of EFL, and the laws that they are apart.
#![tactic(auto)]

mod laws;

pub use laws::{names_are_apart, naming_has_room};
