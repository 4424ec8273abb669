// Procedures and programs.

use crate::{EflDecl, EflName, EflStmt, EflType};
use ground::{List, Place};

/// A program.
#[derive(Drop)]
pub struct EflProgram {
    pub procedures: List<EflProcedure>,
    /// Where the text ends.
    pub finish: Place,
}

/// A procedure. The main has no name.
#[derive(Drop)]
pub struct EflProcedure {
    pub result: Option<EflType>,
    pub name: Option<EflName>,
    pub formals: List<EflName>,
    pub declarations: List<EflDecl>,
    pub body: List<EflStmt>,
    pub place: Place,
    /// Where its `end` is.
    pub finish: Place,
}
