//! Which EFL programs have no fault in their scopes, and exactly the first fault of those that have one: the lists of their areas, and
//! the public call.
#![tactic(auto)]

mod areas;
mod checking;
mod lists;
mod numbers;
mod shapes;
mod summaries;

pub use checking::{Scoped, scope};
pub use numbers::Pairs;
pub use shapes::{integer, logical, no_type};
pub use summaries::{Summary, bounded, with_members};
