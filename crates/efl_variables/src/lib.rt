//! The variables of an EFL program by their numbers: the same procedure, block and name alone share one.
#![tactic(auto)]

mod keys;
mod variables;

pub use variables::{Variable, Variables};
