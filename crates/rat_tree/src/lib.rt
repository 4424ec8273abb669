//! The trees of Ratfor, and what its programs mean.
#![tactic(auto)]

mod laws;
mod program;

pub use laws::{meanings_extend, places_tell_traps_alone, unasked_change_nothing};
pub use program::{ForHead, RatCase, RatKind, RatProgram, RatStmt, RatUnit};
