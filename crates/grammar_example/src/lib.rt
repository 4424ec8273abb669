//! An example of a language over crate `grammar`: outlines, with names, braces, choices, and limits on nesting and names.
#![tactic(auto)]

mod outline;
mod parse_table;
mod symbols;
mod table;

pub use outline::{Outline, read};
pub use table::{Nonterminal, Production, Terminal};

#[cfg(test)]
mod tests;
