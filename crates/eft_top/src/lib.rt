//! The whole program as one call: from the words of the command line to what out and diag get and the exit code.
#![tactic(auto)]

mod answer;
mod laws;
mod lines;
mod numbers;
mod octal;
mod puts;
mod report;
mod status;
mod top;
mod words;

pub use laws::{a_run_misses_nothing, a_run_shows_the_meaning, a_told_input_is_whole};
pub use status::Status;
pub use top::eft;
