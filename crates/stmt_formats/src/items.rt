// What a FORMAT spells, as it is written.

use ground::{List, Text};

/// A part of a format.
#[derive(Drop)]
pub enum Item {
    /// A word, with the number before it.
    Edit(Option<u32>, Text),
    /// A Hollerith text.
    Words(Text),
    Stroke,
    Point,
    /// Parentheses, with the number before them.
    Nest(Option<u32>, List<Item>),
}
