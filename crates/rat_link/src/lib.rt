//! What Ratfor programs are refused for behind the checks of their units: bad association, too much storage, and the rules of linking,
//! all told by the source.
#![tactic(auto)]

mod association;
mod checking;
mod laws;
mod limit;
mod linking;

pub use association::check_association;
pub use checking::check_program;
pub use laws::said_is_ready;
pub use linking::link_said;
