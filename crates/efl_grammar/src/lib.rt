//! The published grammar of EFL: its parser, and that the parse table gives the same trees.
#![tactic(auto)]

mod laws;
mod parser;

pub use laws::{
    answers_are_published, declared_parts_are_published, expressions_are_published,
    programs_are_published,
};
pub use parser::parse;
