//! Whole EFL programs: procedures have names of their own, there is one main, and no call leads back to its procedure.
#![tactic(auto)]

mod calls;
mod checking;
mod expressions;
mod listing;
mod names;
mod numbers;
mod procedures;
mod program_calls;
mod roles;
mod statements;

pub use checking::whole;
pub use numbers::{Numbers, numbers_of};
pub use program_calls::edges;
