//! Linked units of FORTRAN become stack code, which is listed, or gets the memory of its run; what the run does over a source and a sink is what they do.
#![tactic(auto)]

mod code;
mod laws;
mod listings;
mod loading;

pub use laws::loaded_runs;
pub use listings::listing;
pub use loading::load;
