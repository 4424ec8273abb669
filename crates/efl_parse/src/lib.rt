//! The grammar of EFL: from the tokens of a text to its tree, or to its first fault.
#![tactic(auto)]

mod build;
mod language;
mod laws;
mod phrases;

pub use language::{Efl, parse};
pub use laws::one_tree;
