// Program units.

use crate::{Name, Stmt, TypeWord};
use ground::{List, Place};

/// A program unit (X3.9-1966, section 9).
#[derive(Drop)]
pub struct Unit {
    pub header: Header,
    pub statements: List<Stmt>,
    pub place: Place,
}

/// The first line of a unit; a main has none.
#[derive(Drop)]
pub enum Header {
    Main,
    Sub(Name, List<Name>),
    Func(Option<TypeWord>, Name, List<Name>),
    /// BLOCK DATA.
    Block,
}
