//! Macros and includes: a text becomes its whole token list, up to the first fault.
#![tactic(auto)]

mod defines;
mod fetches;
mod files;
mod gathering;
mod macros;
mod output;
mod plain;
mod refusal;
mod uses;
mod whole_text;

pub use refusal::TextRefusal;
pub use whole_text::{Gathered, gather};
