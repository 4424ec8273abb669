//! The units of FORTRAN that Ratfor units became link where their sources do.
#![tactic(auto)]

mod laws;

pub use laws::{clean_is_proper, made_are_well, made_are_whole, source_links};
