//! The trees of EFL.
#![tactic(auto)]

mod declaration;
mod expression;
mod name;
mod procedure;
mod statement;

pub use declaration::{
    EflBound, EflConst, EflDecl, EflDeclKind, EflGroup, EflPreset, EflType, EflVar,
};
pub use expression::{EflExpr, EflOperator, EflPlace, EflStep};
pub use name::EflName;
pub use procedure::{EflProcedure, EflProgram};
pub use statement::{EflCase, EflEdit, EflKind, EflStmt, LoopKind, ReadItem, WriteItem};
