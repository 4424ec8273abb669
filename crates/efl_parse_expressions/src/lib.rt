//! What expressions, acts, types and declarations make of their parts.
#![tactic(auto)]

pub mod acts;
pub mod declarations;
pub mod expressions;
pub mod parts;
pub mod types;
