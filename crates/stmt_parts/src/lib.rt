//! Statements from the tokens behind their keywords.
#![tactic(auto)]

mod acts;
mod declarations;
mod entries;
mod entry_stack;
mod equivalences;
mod lists;

pub use acts::{
    read_call, read_computed, read_condition, read_goto, read_loop, read_signs, read_stop,
};
pub use declarations::{read_common, read_dimension, read_types};
pub use entries::{read_entries, read_transfer};
pub use equivalences::{read_data, read_equivalence};
