//! Whole programs: what linking asks of units together, rule by rule, each at the first part that breaks it.
#![tactic(auto)]

mod agreement;
mod call_rules;
mod calls;
mod clashes;
mod duplicates;
mod kinds;
mod linking;
mod mains;
mod missing;
mod numbers;
mod recursion;
mod rule;
mod site;
mod sites;
mod tells;
mod types;

pub use calls::{Calls, calls_of};
pub use clashes::type_clash;
pub use duplicates::duplicate_unit;
pub use linking::link_calls;
pub use mains::main_count;
pub use missing::{missing_unit, wrong_count};
pub use recursion::first_recursion;
pub use site::Site;
pub use types::words_of;
