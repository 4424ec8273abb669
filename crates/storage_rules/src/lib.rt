//! The rules of linking on storage: one size for each labelled common block, and one initial value for each storage unit.
#![tactic(auto)]

mod blocks;
mod constants;
mod ends;
mod gathering;
mod mismatch;
mod preset;
mod repeats;
mod twice;

pub use gathering::presets_of;
pub use mismatch::common_mismatch;
pub use preset::Preset;
pub use twice::{initial_twice, numbers_of};
