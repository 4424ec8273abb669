// Which rules are asked for.

/// All rules, or those alone that do not speak of a unit's end: where a unit has its first statements only, the last
/// transfer, the ranges of DO and the label that a DO names are left out (X3.9-1966, sections 7.1.2.8 and 9.1).
#[derive(Clone, Copy, Debug, PartialEq, Eq)]
pub enum Scope {
    Whole,
    Part,
}
