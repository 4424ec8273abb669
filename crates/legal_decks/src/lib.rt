//! Legal decks of FORTRAN: units that are sound and well associated, link, are printed within twenty cards a statement, and whose deck
//! passes no limit of decks.
#![tactic(auto)]

mod laws;

pub use laws::{legal_has_linkage, legal_is_whole};
