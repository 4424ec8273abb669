//! The units of a program without recursion can be ranked, so that each call leads to a unit of lesser rank.
#![tactic(auto)]

mod laws;

pub use laws::{calls_have_ranks, whole_has_ranks};
