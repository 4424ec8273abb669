// The parts of a unit.

use crate::Form;
use ground::Place;

/// A part of a unit.
#[derive(Drop)]
pub struct Part<'a> {
    pub label: Option<u32>,
    pub place: Place,
    pub form: Form<'a>,
    /// Whether the loop that it names is there.
    pub inside: bool,
    /// Whether the labels that it jumps to are in reach.
    pub reached: bool,
}
