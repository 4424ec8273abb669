//! What EFL's statements, records, lists and procedures make of their parts.
#![tactic(auto)]

pub mod lists;
pub mod procedures;
pub mod records;
pub mod statements;
