// Where the units of a program keep what they keep, and where their code stands.

/// Of each unit the first of its spare storage units, the first of those of its DO statements, and the instruction that is its entry.
/// What is no unit has them at the bound of the names' storage units, and at the end of the code.
#[derive(Drop)]
pub struct Spread {
    pub bound: u32,
    pub spares: Vec<u32>,
    pub loops: Vec<u32>,
    pub starts: Vec<u32>,
    pub end: u32,
}
