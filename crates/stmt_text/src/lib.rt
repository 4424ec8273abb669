//! The texts of statements, headers and expressions, as cards have them.
#![tactic(auto)]

mod declarations;
mod entries;
mod expressions;
mod formats;
mod headers;
mod lists;
mod statements;
mod writer;

pub use expressions::expression_text;
pub use headers::header_text;
pub use statements::{statement_text, write_statement};
pub use writer::StatementText;
