//! Formatted records: the edits of a format, one item at a time, with no memory but that of `Edit::new`.
#![tactic(auto)]

mod between;
mod characters;
mod code;
mod edit;
mod format;
mod input;
mod laws;
mod layout;
mod output;
mod walk;

pub use code::{Op, Piece};
pub use edit::Edit;
pub use format::Plan;
pub use laws::editing_is_its_list;
pub use layout::plan;
