//! What the names of a unit of FORTRAN 66 are, and the tests that its rules of names, types, counts, constants and stores are made of.
#![tactic(auto)]

mod built;
mod declarations;
mod formats;
mod kinds;
mod name_form;
mod name_rules;
mod repeats;
mod saying;
mod shapes;
mod sorts;
mod store_rules;
mod tables;
mod uses;

pub use built::{is_built, is_built_saying};
pub use declarations::{Declarations, declarations_of};
pub use formats::has_bad_format;
pub use kinds::{
    are_entries, are_subscripts, counts, is_counting, is_number, may_be, operand, outcome,
    same_kind, takes_kind,
};
pub use name_form::{Arity, Class, Manner, NameForm};
pub use name_rules::{
    has_long_name, has_long_use, has_many_sizes, has_other_type, has_other_use, has_wrong_count,
    has_wrong_use, is_long,
};
pub use repeats::{note_repeat, redeclares};
pub use saying::{Saying, declared_in_saying};
pub use shapes::{
    are_declared, has_shape, is_counting_form, is_name, is_place, is_printed, stands,
};
pub use sorts::{
    form_of, is_array, is_counter, is_foreign, is_integer, is_other, is_real_by_letter, kind_of,
    takes,
};
pub use store_rules::{
    has_bad_constant, has_bad_size, has_large_array, is_large, is_readable, stores_wrong,
};
pub use tables::{declared_in, typed_in};
pub use uses::{
    Use, collect_all, collect_in_saying, collect_pars, collect_target, uses_of_saying,
    uses_of_statement,
};
