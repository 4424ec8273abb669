//! Which forms of EFL are not built yet, and the first that a program has.
#![tactic(auto)]

mod declarations;
mod expressions;
mod procedures;
mod statements;

pub use procedures::first_unbuilt;
