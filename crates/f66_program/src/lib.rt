//! What units of a FORTRAN program share and call: storage association, calls, initial values, and what linking asks.
#![tactic(auto)]

mod laws;

pub use laws::{one_count, well_together};
