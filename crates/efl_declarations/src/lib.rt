//! The walk over the declarations of a block of an EFL procedure, by the rules of types.
#![tactic(auto)]

mod declarations;
mod groups;
mod types;

pub use declarations::check_declarations;
