//! Which places of FORTRAN's names are one storage unit.
#![tactic(auto)]

mod associating;
mod association;
mod blocks;
mod commons;
mod equivalences;
mod laws;
mod listing;
mod number;
mod placed;
mod sizes;
mod table;
mod units;
mod walk;

pub use associating::{associate, limit_fault};
pub use association::Association;
pub use blocks::add_labels;
pub use equivalences::shift;
pub use laws::lists_serve;
pub use listing::{Listing, no_names};
pub use table::{Table, table_of};
pub use units::number_units;
pub use walk::{UnitLinks, unit_links};
