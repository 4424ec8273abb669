//! What the parser of Ratfor accepts becomes statements of FORTRAN without more than 102 open parentheses, and whole ones.
#![tactic(auto)]

mod laws;

pub use laws::{parsed_is_shallow, parsed_is_whole};
