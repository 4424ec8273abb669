//! How many temporaries of FORTRAN the statements of a typed body of EFL need at once.
#![tactic(auto)]

mod counts;
mod parts;
mod statements;

use counts::made_for;
pub use counts::{made, place_in, plus};
use parts::{of_action, of_any, of_if_any, of_items, of_taken, of_value};
pub use statements::needs;
