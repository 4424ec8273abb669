//! Decks whose units link, or their first fault: of their cards, of their statements, of their units one by one, or of linking.
#![tactic(auto)]

mod checking;
mod ending;
mod laws;
mod linking;

pub use ending::end_of;
pub use laws::{accepted_has_none, one_first_fault};
pub use linking::{linked_deck, linked_units};
