//! EFL's typed programs as plain data, and what they mean.
#![tactic(auto)]

mod laws;

pub use laws::{
    meanings_extend, places_tell_traps_alone, scoped_never_lost, unasked_change_nothing,
};
