//! The checks of a Ratfor tree: for units of every kind the rules of names, types, counts, constants and stores, and those of order,
//! labels, loops and clauses.
#![tactic(auto)]

mod before;
mod forms;
mod labels;
mod long_texts;
mod parts;
mod rules;
mod said;
mod short_texts;
mod survey;
mod targets;
mod unit_check;
mod visit;

use before::Before;
use forms::Around;
pub use forms::Form;
use labels::LabelSet;
pub use parts::Part;
use rules::{broken_rule, unit_header_rule};
use said::add_form;
pub use said::sayings_into;
use short_texts::{is_short_assignment, room_behind};
use survey::Survey;
use targets::add_targets;
pub use unit_check::{check, check_with, labels_of, parts_of, sayings};
use visit::visit_list;
