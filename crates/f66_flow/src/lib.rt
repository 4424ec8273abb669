//! The rules of FORTRAN on the order of statements, on labels and on DO ranges, statement by statement.
#![tactic(auto)]

mod flow;
mod forms;
mod labels;
mod order;
mod ranges;
mod rows;
mod scope;

pub use flow::{Flow, flow_of};
pub use forms::{is_format, is_specification};
pub use labels::Labels;
pub use rows::{broken_rule, header_rule};
pub use scope::Scope;
