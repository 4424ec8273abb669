//! The units of FORTRAN that an accepted program of EFL over scalars in memory becomes.
#![tactic(auto)]

mod choice;
mod groups;
mod headers;
mod kept;
mod kinds;
mod labels;
mod lines;
mod made;
mod name_lists;
mod naming;
mod program;
mod results;
mod type_lines;

use choice::{callees, homes};
use groups::{called, callers, owned};
use headers::header;
use kept::is_kept;
use kinds::{OfKind, Typed, typed_program};
use labels::labels_in;
use lines::unit;
use made::{copied_name, made_name};
use name_lists::typed_names;
use naming::{name_unit, program_naming};
pub use program::units;
use results::{given_kind, gives, word_of};
use type_lines::put_types;
