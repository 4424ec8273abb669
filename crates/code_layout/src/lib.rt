//! The stack code of linked programs: where their units keep what they keep, and the code that is made of them.
#![tactic(auto)]

mod calls;
mod checking;
mod compiling;
mod dummies;
mod entering;
mod extents;
mod implicit_types;
mod keeping;
mod laws;
mod linked_unit;
mod measures;
mod order;
mod ordered;
mod placing;
mod presets;
mod program_tables;
mod ranks;
mod rooms;
mod spread;
mod spreading;
mod sums;
mod tabling;
mod unit_tables;

pub use compiling::compile;
pub use extents::Extent;
pub use laws::{compiled_behaves, linked_is_ranked, tables_lay_out};
pub use linked_unit::LinkedUnit;
pub use program_tables::ProgramTables;
pub use spread::Spread;
pub use tabling::tables_of_program;
pub use unit_tables::UnitTables;
