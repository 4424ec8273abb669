// What is around a part.
use efl_blocks::{Homes, Position};
use efl_expressions::Blocks;
use efl_initial_values::Areas;
use efl_names::{Letters, Outcome, Units};
use efl_tree::EflName;

/// A procedure of the program, as its parts see it. Contracts see by `IsProcedure` which one it is.
#[derive(Clone, Copy, Drop)]
pub struct Procedure<'s, 'a> {
    /// Its number in the program.
    pub unit: usize,
    pub formals: &'s [EflName],
    pub letters: &'s Letters<'a>,
    pub units: &'s Units<'a>,
    pub outcome: Outcome,
    pub areas: &'s Areas<'a>,
}

/// What is around a part. Contracts see it by `IsSite`.
#[derive(Clone, Copy, Drop)]
pub struct Site<'s, 'a> {
    pub procedure: &'s Procedure<'s, 'a>,
    pub position: &'s Position<'s>,
    /// The formals of the procedure where the block is its outer one, and else none.
    pub formals: &'s [EflName],
    pub blocks: &'s Blocks<'s, 'a>,
    pub homes: &'s Homes<'s, 'a>,
}
