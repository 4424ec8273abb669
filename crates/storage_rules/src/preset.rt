// A place that DATA gives a value.

use f66_tree::Name;
use ground::Value;

/// A place of a name of a unit that a statement gives a value, which go by numbers from 0 on.
#[derive(Clone, Copy, Drop)]
pub struct Preset<'a> {
    pub unit: usize,
    pub part: usize,
    pub name: &'a Name,
    pub at: usize,
    pub value: Option<Value>,
}
