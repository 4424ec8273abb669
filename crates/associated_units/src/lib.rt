//! The storage of units one by one: whether the association of each is good, and within the limit.
#![tactic(auto)]

mod checking;

pub use checking::check_storage;
