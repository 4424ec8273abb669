//! Whole FORTRAN programs: units that link, with the numbers of their storage units, their calls and their first contents.
#![tactic(auto)]

mod laws;
mod linked;
mod linking;
mod main_unit;

pub use laws::linked_is_linkage;
pub use linked::Linked;
pub use linking::link;
