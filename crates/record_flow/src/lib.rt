//! READ and WRITE over a source and a sink: a record is got where it is asked for, and put where it is complete.
#![tactic(auto)]

mod flow;

pub use flow::{Break, Flow, Stop};
