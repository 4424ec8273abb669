//! Units that say what others say, but for a spare variable: they link where the others do.
#![tactic(auto)]

mod laws;

pub use laws::{spared_is_well, spared_is_whole, twins_link};
