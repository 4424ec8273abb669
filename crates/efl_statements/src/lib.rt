//! The first rule of types that a part of an EFL procedure breaks by itself: a header, variables by their bounds, a statement, or a clause of
//! a switch.
#![tactic(auto)]

mod acts;
mod clauses;
mod headers;
mod items;
mod sizes;
mod statements;
mod truths;
mod variables;

pub use clauses::{Chosen, clause_rule};
pub use headers::header_rule;
pub use sizes::size_rule;
pub use statements::statement_rule;
pub use variables::variables_rule;
