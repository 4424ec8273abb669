//! What the checks of a unit give the storage association.
#![tactic(auto)]

mod laws;

pub use laws::{checked_is_ready, sound_is_ready};
