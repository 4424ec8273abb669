//! What the parser of Ratfor accepts has room for its labels and names, becomes few statements, and has few units.
#![tactic(auto)]

mod laws;

pub use laws::{parsed_has_few_units, parsed_has_room, parsed_is_few};
