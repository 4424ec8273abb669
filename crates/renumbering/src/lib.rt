//! The law that the numbers of storage units do not matter to a run.
#![tactic(auto)]

mod laws;

pub use laws::{
    numbering_links, numbers_alone, own_are_named, ratfor_numbers_alone, whole_is_matched,
};
