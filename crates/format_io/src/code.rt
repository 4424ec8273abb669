// The flat code of a format.
use f66_tree::EditKind;
use ground::Text;

/// One edit.
#[derive(Drop)]
pub enum Piece {
    Takes(EditKind, u16),
    Blanks(u16),
    Chars(Text),
    Slash,
}

/// An edit with its count; the beginning of a group of a level, with its count and size; its end, with its size.
#[derive(Drop)]
pub enum Op {
    Once(u16, Piece),
    Enter(u8, u16, usize),
    Leave(u8, usize),
}

/// A format, ready to be walked: its code, where control goes back to, and whether an edit from there on takes an item.
#[derive(Drop)]
pub struct Laid {
    pub ops: Vec<Op>,
    pub start: usize,
    pub cycles: bool,
}
