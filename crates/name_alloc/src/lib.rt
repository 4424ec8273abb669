//! Names and labels that no unit of a source has.
#![tactic(auto)]

mod names;
mod number_set;
mod numbers;

pub use names::Names;
use number_set::NumberSet;
use numbers::Numbers;
