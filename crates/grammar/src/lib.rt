//! The parsing machine, for every language whose grammar is a table with one token of lookahead.
#![tactic(auto)]

mod counts;
mod language;
mod machine;
mod parser;
mod rows;
mod stack;

pub use counts::one_more;
pub use language::{Event, Language, Symbol};
pub use parser::parse;
pub use rows::row;
