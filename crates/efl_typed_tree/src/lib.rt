//! The typed trees of EFL in memory, over scalar variables: each name is the number of what it means.
#![tactic(auto)]

mod expression;
mod statement;

pub use expression::{Intrinsic, Scalar, TypedExpr, TypedOp};
pub use statement::{
    TypedAction, TypedClause, TypedEdit, TypedKind, TypedRange, TypedReadItem, TypedStmt,
    TypedWriteItem,
};
