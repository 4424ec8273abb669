//! The printed text of stack code.
#![tactic(auto)]

mod fields;
mod lines;
mod operands;
mod words;
mod writer;

pub use lines::list_code;
