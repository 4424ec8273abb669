//! The stack code of units of FORTRAN, made in memory.
#![tactic(auto)]

mod acts;
mod body;
mod coded_unit;
mod counting;
mod entries;
mod formats;
mod labels;
mod laws;
mod lists;
mod operators;
mod placed_unit;
mod places;
mod planned;
mod plans;
mod prologue;
mod records;
mod rooms;
mod sizes;
mod sorts;
mod statements;
mod turns;
mod units;
mod values;
mod variables;

pub use coded_unit::{Base, Callee, CodedUnit, NamedUnit, Turn};
pub use entries::entries_of;
pub use formats::program_plans;
pub use labels::{Labels, labels_of};
pub use laws::layout_is_ready;
pub use lists::entries_room;
pub use placed_unit::PlacedUnit;
pub use places::{Places, places_of};
pub use planned::{PlannedCode, code_program};
pub use plans::{Plans, plans_of};
pub use rooms::{room_of, rooms_to_hand};
pub use units::{program_code, put_unit, size_of};
