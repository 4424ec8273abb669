// Declarations.

use crate::{EflName, EflPlace};
use ground::{List, Place, Text};

/// A declaration, with the place of its first token.
#[derive(Drop)]
pub struct EflDecl {
    pub kind: EflDeclKind,
    pub place: Place,
}

/// What a declaration says.
#[derive(Drop)]
pub enum EflDeclKind {
    /// Ranges of letters, each by its first and its last, and their type.
    Implicit(List<(u8, u8)>, EflType),
    Initial(List<EflPreset>),
    /// Variables, in a common area where it is named.
    Variables(Option<Text>, EflType, List<EflVar>),
    /// A common area.
    Area(Text, List<EflGroup>),
    Structure(EflName, List<EflGroup>),
}

/// Members of a structure, or variables of a common area, of one type.
#[cycle(shape)]
#[derive(Drop)]
pub struct EflGroup {
    pub kind: EflType,
    pub variables: List<EflVar>,
    pub place: Place,
}

/// A type.
#[cycle(shape)]
#[derive(Drop)]
pub enum EflType {
    Integer,
    Logical,
    /// Whether it is long.
    Real(bool),
    /// Whether it is long.
    Complex(bool),
    /// A structure's name.
    Named(EflName),
    /// A structure's members, and its name where it has one.
    Shape(Option<EflName>, List<EflGroup>),
}

/// A variable or member with its bounds, of which a scalar has none.
#[derive(Drop)]
pub struct EflVar {
    pub name: EflName,
    pub bounds: List<EflBound>,
}

/// The bounds of a subscript. No upper one is `*`.
#[derive(Clone, Copy)]
pub struct EflBound {
    pub low: Option<i64>,
    pub high: Option<i64>,
}

/// The values that a place begins with, each with its count, and whether they stand in parentheses.
#[derive(Drop)]
pub struct EflPreset {
    pub place: EflPlace,
    pub values: List<(u32, EflConst)>,
    pub listed: bool,
}

/// A constant.
#[derive(Clone, Copy)]
pub enum EflConst {
    Int(i64),
    Truth(bool),
}
