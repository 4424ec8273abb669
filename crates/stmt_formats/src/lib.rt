//! FORMAT statements from the tokens behind their word.
#![tactic(auto)]

mod commas;
mod fields;
mod items;
mod places;

pub use fields::read_format;
