//! What an accepted EFL text means: its tree with numbers for names, its storage, and its run.
#![tactic(auto)]

mod laws;

pub use laws::{
    accepted_is_scoped, accepted_never_lost, paths_have_their_numbers, places_have_their_numbers,
};
