//! A unit has at most one first fault of its association, and units have at most one first fault of linking.
#![tactic(auto)]

mod laws;

pub use laws::{one_bad_fault, one_link_fault};
