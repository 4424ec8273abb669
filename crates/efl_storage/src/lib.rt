//! The storage of an EFL program: how many places its variables have, counted part by part.
#![tactic(auto)]

mod firsts;
mod kinds;
mod limit;
mod listed;
mod met;
mod named;
mod storage;

pub use firsts::{Firsts, first_areas};
pub use kinds::scalar_kind;
pub use listed::{listed_by_declaration, listed_by_header};
pub use met::{Sight, is_formal, take_condition, take_statement, take_uses};
pub use storage::Storage;
