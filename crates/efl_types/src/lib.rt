//! The types of an EFL tree: the first fault of its places, expressions, statements and initial values, and those of whole programs.
#![tactic(auto)]

mod rule;

pub use rule::TypeRule;
