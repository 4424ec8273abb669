//! The cards of a deck, as statements with their labels.
#![tactic(auto)]

mod cards;
mod counts;
mod reader;
mod records;

pub use cards::CardKind;
pub use counts::Counts;
pub use reader::{Line, lines_of};
