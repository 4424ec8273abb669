//! Stack code: its instructions, the machine that runs them, and which code is valid.
#![tactic(auto)]

mod ahead;
mod effect;
mod fact;
mod facts;
mod laws;
mod op;
mod ranges;
mod shape;
mod valid;
mod ways;

pub use effect::Effect;
pub use fact::Fact;
pub use laws::{runs_once, valid_is_safe};
pub use op::Op;
pub use shape::{EntryKind, Shape};
pub use valid::{Code, verify};
