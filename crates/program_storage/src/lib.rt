//! The storage units of a whole FORTRAN program, numbered.
#![tactic(auto)]

mod gathering;
mod labels;
mod limit;
mod lookup;
mod numbering;
mod program;
mod program_rows;
mod spot;
mod unit_links;
mod unit_rows;
mod whole;

pub use limit::{first_large, storage_limit};
pub use numbering::number_program;
pub use program::ProgramStorage;
pub use spot::Spot;
pub use unit_rows::UnitRows;
