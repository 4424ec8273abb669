//! Ratfor by recursive descent: the tree of a text that is a program within its limits, at the speed of one pass.
#![tactic(auto)]

mod aliases;
mod control;
mod declarations;
mod expressions;
mod formats;
mod language;
mod parser;
mod plain;
mod reader;
mod statements;
mod tokens;
mod transfers;
mod units;

pub use parser::parse;
