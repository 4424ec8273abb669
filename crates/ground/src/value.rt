// The two types of the profile and their values.

/// A type of X3.9-1966, section 4, that the profile has: one storage unit each.
#[derive(Clone, Copy, Debug, PartialEq, Eq)]
pub enum Kind {
    Integer,
    Logical,
}

/// A value. An integer has a magnitude of at most 2147483647.
#[derive(Clone, Copy, Debug, PartialEq, Eq)]
pub enum Value {
    Int(i64),
    Log(bool),
}
