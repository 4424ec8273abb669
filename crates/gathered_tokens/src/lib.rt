//! What is gathered of a text has at most 200,000 tokens, with numbers in their range, names and characters that a card may have.
#![tactic(auto)]

mod laws;

pub use laws::{gathered_are_few, gathered_are_written};
