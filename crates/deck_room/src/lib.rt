//! What is printed of a Ratfor text within its limits passes no limit of a deck.
#![tactic(auto)]

mod laws;

pub use laws::{
    cards_pass_no_limit, printed_are_few, printed_are_short, serving_units_pass_no_limit,
};
