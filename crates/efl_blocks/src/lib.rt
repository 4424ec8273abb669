//! The types and blocks in memory that EFL's declarations make.
#![tactic(auto)]

mod blocks;
mod declared;
mod homes;
mod outer;
mod procedures;
mod types;

pub use blocks::{know, know_if_any, named};
pub use declared::{declare, know_structure, name_declared, open_block};
pub use homes::{Homes, Position, home_of};
pub use outer::{Outer, open_outer};
pub use procedures::{Procedures, names_within, open_procedures, outcome_of};
pub use types::{Types, add_structure, make_structure, make_type, take_members, with_bounds};
