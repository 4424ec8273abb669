//! The check of EFL's types: one walk over the parts of a program, in reading order, that tells the first fault.
#![tactic(auto)]

mod checking;
mod procedures;
mod sites;
mod statements;

pub use checking::check;
