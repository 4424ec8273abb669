//! The trees of FORTRAN 66, and what programs of it mean: values, statements, formatted editing, agreement.
#![tactic(auto)]

mod declaration;
mod editing;
mod expression;
mod format;
mod laws;
mod name;
mod statement;
mod unit;

pub use declaration::{
    Area, Declared, Par, PresetPart, TypeWord, copy_areas, copy_declarations, copy_groups,
    copy_par, copy_presets,
};
pub use editing::{EditKind, Mark, Turn, Way};
pub use expression::{Expr, Operator, applied, copy_expr, copy_exprs, eval_const, paired};
pub use format::{Field, copy_fields};
pub use laws::{
    places_tell_traps_alone, records_stay, runs_extend, store_keeps, unasked_change_nothing,
};
pub use name::Name;
pub use statement::{Counting, Entry, Stmt, StmtKind, copy_entries, copy_kind, copy_statement};
pub use unit::{Header, Unit};
