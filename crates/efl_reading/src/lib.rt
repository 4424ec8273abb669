//! What a walk over the parts of an EFL program knows: the procedure and what is around a part, and behind the parts that it has read.
#![tactic(auto)]

mod counting;
mod presets;
mod progress;
mod sites;
mod walk;

pub use counting::{count_condition, count_declaration, count_header, count_statement};
pub use progress::{Progress, fault_by};
pub use sites::{Procedure, Site};
pub use walk::Walk;
