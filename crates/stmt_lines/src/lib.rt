//! Statements and headers from the lines of a deck.
#![tactic(auto)]

mod acts;
mod lines;

pub use lines::{read_header, read_statement};
