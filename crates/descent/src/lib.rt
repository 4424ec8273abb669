//! Reading by recursive descent: what functions of a language read of a text, as the parsing machine reads it.
#![tactic(auto)]

mod reader;
mod tables;

pub use reader::{GiveUp, Reader, begin, close, last, open, take};
pub use tables::Tables;
