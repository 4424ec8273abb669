//! The grammar of Ratfor as a table: its terminals and productions, its parse table, and what is counted against the limits.
#![tactic(auto)]

mod counts;
mod parse_table;
mod symbols;
mod table;
mod terminals;

pub use counts::{Counts, first_counts, next_counts, passed};
pub use parse_table::predict;
pub use symbols::symbol_at;
pub use table::{Nonterminal, Production, Terminal};
pub use terminals::{is_spelled, terminal_at};
