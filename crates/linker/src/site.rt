// A call of a program, and where it stands.

use f66_tree::{Expr, Name};
use ground::Place;

/// A call, by a CALL or as a function, in a statement of a unit, which go by numbers from 0 on.
#[derive(Clone, Copy, Drop)]
pub struct Site<'a> {
    pub unit: usize,
    pub line: usize,
    pub place: Place,
    pub by_call: bool,
    pub name: &'a Name,
    pub actuals: &'a [Expr],
}
