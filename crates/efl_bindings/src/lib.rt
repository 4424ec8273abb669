//! What names mean in a program of EFL whose variables are scalars, and its expressions as typed trees.
#![tactic(auto)]

mod blocks;
mod expressions;
mod homes;
mod letters;
mod operators;
mod outer;
mod procedures;
mod scopes;
mod sites;

pub use blocks::block_table;
pub use expressions::{
    typed_action, typed_action_if_any, typed_expression, typed_expressions, typed_if_any,
};
pub use letters::{Letters, letters_of};
pub use outer::outer_table;
pub use procedures::{Procedures, procedures_of};
pub use scopes::{Scopes, Table};
pub use sites::{Site, into, typed_target, variable_number, within};
