// What names are, and how they stand in statements.

/// How many arguments an intrinsic function takes (X3.9-1966, section 8.2).
#[derive(Clone, Copy, Debug, PartialEq, Eq)]
pub enum Arity {
    One,
    Two,
    /// Two or more.
    More,
}

/// What a name of a unit is: an array with so many dimensions, an intrinsic function, or something else.
#[derive(Clone, Copy, Debug, PartialEq, Eq)]
pub enum NameForm {
    Array(usize),
    Intrinsic(Arity),
    Plain,
}

/// The classes of names that exclude each other (section 10.1).
#[derive(Clone, Copy, Debug, PartialEq, Eq)]
pub enum Class {
    Scalar,
    Function,
}

/// How a name stands: alone, with so many subscripts or arguments, or with them where a place is asked for.
#[derive(Clone, Copy, Debug, PartialEq, Eq)]
pub enum Manner {
    Alone,
    With(usize),
    Stored(usize),
}
