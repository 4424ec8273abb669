//! The tree of an EFL program that is made of written tokens is written.
#![tactic(auto)]

mod laws;

pub use laws::grammar_is_written;
