//! What the productions of Ratfor give, and what is read off its words, numbers and signs.
#![tactic(auto)]

mod fields;
mod range;
mod words;

pub use fields::word_field;
pub use range::Range;
pub use words::{
    capped_count, capped_label, integer_of_kind, is_minus, is_true, kind_is, octal_of_kind,
    operator_of, sign_of_kind,
};
