//! The routes that EFL's expressions and statements become, and why a program agrees with the units of FORTRAN that these become.
#![tactic(auto)]

mod laws;

pub use laws::scalar_programs_agree;
