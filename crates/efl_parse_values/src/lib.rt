//! What the parts of an EFL text give, and how it is taken apart.
#![tactic(auto)]

mod counts;
mod declarations;
mod expressions;
mod lists;
mod procedures;
mod records;
mod statements;
mod value;
mod words;

pub use counts::{take_leaving, take_range, take_upper_if_any};
pub use declarations::{
    into_decl, into_groups_if_any, into_outline, into_type, into_values, take_constant,
    take_constant_if_any,
};
pub use expressions::{
    into_expr, into_expr_if_any, into_joins, into_path, into_rest, into_steps, ordered_steps,
};
pub use lists::{Item, longer, more_by, no_items, ordered, pop_value, skip};
pub use records::take_edit;
pub use statements::{clause, into_lists, into_statement};
pub use value::{
    CountValue, DeclarationValue, ExpressionValue, Header, Lists, Opening, ProcedureValue,
    RecordValue, Rest, StatementValue, Tail, TypeValue, Value,
};
pub use words::{
    NOWHERE, into_name, into_text, into_word, is_decrement, is_minus, is_word, operator_of,
    place_of, take_count_or_one, take_integer, take_letter, take_letter_if_any, take_number,
    take_place, take_sign, take_truth,
};
