//! Whole decks read: from the bytes of cards to units, or to sound units, or the first fault.
#![tactic(auto)]

mod reader;
mod units;

pub use reader::{read_deck, read_units};
