//! Decks: units as cards, and the laws that these are read as what was written.
#![tactic(auto)]

mod laws;
mod writer;

pub use laws::{
    blanks_are_nothing, decks_are_read, expressions_are_read, hollerith_texts_are_read,
    keywords_are_taken, mains_are_read, statement_lines_are_read, statements_are_read,
};
pub use writer::{push_unit, write_deck};
