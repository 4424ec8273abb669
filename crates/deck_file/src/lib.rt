//! A deck in a file: units that link, or the deck's first fault.
#![tactic(auto)]

mod deck;
mod load;

pub use deck::Deck;
pub use load::load_deck;
