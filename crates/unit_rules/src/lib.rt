//! The rules of names, types, counts, constants and stores in a unit of FORTRAN 66 of any kind: of its header, and statement by
//! statement.
#![tactic(auto)]

mod again;
mod called;
mod constants;
mod counts;
mod forms;
mod heads;
mod judged;
mod listed;
mod more_uses;
mod presets;
mod roles;
mod rules;
mod sayings;
mod shapes;
mod tables;
mod types;
mod unit_names;
mod used;

pub use heads::header_rule;
pub use roles::Role;
pub use rules::broken_rule;
pub use sayings::saying_rule;
pub use unit_names::{UnitNames, unit_names_of};
