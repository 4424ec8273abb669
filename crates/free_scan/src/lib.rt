//! The scanner of Ratfor and EFL: a text becomes its tokens, up to the first fault.
#![tactic(auto)]

mod characters;
mod include_names;
mod lexemes;
mod lines;
mod quotes;
mod scanner;
mod spellings;
mod text_tokens;

pub use text_tokens::{Scanned, Scanner, scan};
