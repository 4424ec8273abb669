//! An accepted program of EFL whose forms are built has the shape that its lowering asks for.
#![tactic(auto)]

mod laws;

pub use laws::{built_is_over_scalars, grammar_is_shaped};
