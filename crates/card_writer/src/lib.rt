//! The cards of one statement, of 72 columns each.
#![tactic(auto)]

mod writer;

pub use writer::cards_of;
