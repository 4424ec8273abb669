//! The types of EFL's expressions: types and names in memory, what operators and intrinsic functions take and give, and what is asked of a
//! type.
#![tactic(auto)]

mod checks;
mod forms;
mod intrinsics;
mod names;
mod operators;
mod rules;
mod types;

pub use checks::{Checked, grouped, negated, number, paired, signed, truth};
pub use forms::{Form, fit_sides, fits, is_same, is_single, lacks_type, value_form};
pub use intrinsics::{Arity, known, takes};
pub use names::{
    Applied, Block, Blocks, Meaning, before_parentheses, look_up, structure_named, variable_type,
};
pub use operators::{operand, outcome};
pub use rules::{lower, rule_if, wants, wants_single};
pub use types::{
    DataType, Element, Member, Structure, Structures, agrees, form, has_member, is_faulty, nothing,
    takes_subscripts,
};
