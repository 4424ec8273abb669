//! The check of EFL's expressions: places with their subscripts and steps, calls and their actuals, what is stored into, and whole
//! expressions, each with its type and the first rule that it breaks.
#![tactic(auto)]

mod actuals;
mod expressions;
mod places;
mod stores;
mod typed;

pub use actuals::{called_type, gives_value};
pub use expressions::{check, check_actuals, check_place, check_value};
pub use places::Placed;
pub use stores::{store_rule, stored_form};
pub use typed::{Typed, checked};
