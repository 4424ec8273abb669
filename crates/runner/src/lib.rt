//! Runs stack code over a stack, a store and counters that are taken before: a run itself takes no memory.
#![tactic(auto)]

mod branches;
mod elements;
mod frames;
mod intrinsics;
mod items;
mod letters;
mod loops;
mod places;
mod records;
mod rows;
mod run;
mod runner;
mod slots;
mod subscripts;
mod values;
mod words;

pub use frames::Resume;
pub use run::{End, Ran};
pub use runner::Runner;
pub use slots::Slot;
pub use words::{Cell, Word};
