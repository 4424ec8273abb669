//! The grammar of Ratfor: the first fault of a text, and that it has at most one tree.
#![tactic(auto)]

mod language;
mod laws;

pub use language::refusal_of;
pub use laws::one_tree;
