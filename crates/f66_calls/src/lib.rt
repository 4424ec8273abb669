//! The public calls of the crates over FORTRAN once more, under the same contracts: on them wrong bodies are tried.
#![tactic(auto)]

mod checks;
mod edits;
mod flow;
mod made_names;
mod names;
mod ratfor;
mod trees;
mod units;

pub use checks::checked;
pub use edits::{end, integer_in, letter_out, plan_of, turn};
pub use flow::{header_breaks, line_breaks};
pub use made_names::{kept_or_made, made_label};
pub use names::{built, names_in, saying_breaks};
pub use ratfor::labels_of;
pub use trees::{constant_of, copied, copied_expression};
pub use units::{head_breaks, statement_breaks};
