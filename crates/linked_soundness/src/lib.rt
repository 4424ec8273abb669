//! The law of whole programs of FORTRAN 66: linked sound units never go wrong.
#![tactic(auto)]

mod laws;

pub use laws::{complete_never_wrong, linked_never_wrong};
