//! What Ratfor's grammar makes of the parts of a text is made of parts of the right kinds.
#![tactic(auto)]

mod laws;

pub use laws::each_is_meant;
