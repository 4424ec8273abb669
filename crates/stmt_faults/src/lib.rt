//! What the faults of a statement's text ask of its tokens, and of the numbers and names of its tree.
#![tactic(auto)]

mod asking;
mod expressions;
mod statements;
mod tokens;

pub use asking::Asked;
pub use statements::{act_has, header_has_long_name};
pub use tokens::{has_large, is_too_deep};
