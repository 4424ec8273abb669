//! The names of a part of an EFL program in memory: what they mean in the blocks around it, the types that letters give, the procedures
//! that can be called, and what its own procedure gives.
#![tactic(auto)]

mod letters;
mod names;
mod units;

pub use letters::Letters;
pub use names::{Names, is_large};
pub use units::{Callee, Outcome, Signature, Units};
