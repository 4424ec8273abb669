// What the text of a statement is made of.

use f66_tree::Operator;
use ground::Text;

/// A part of a statement's text, in which blanks outside Hollerith texts mean nothing.
#[derive(Drop)]
pub enum Token {
    /// A letter, and the letters and digits behind it.
    Word(Text),
    /// Digits that no letter stands before. A number above 2147483647 stands as 2147483648.
    Number(u32),
    /// A Hollerith text, without its count and its H.
    Chars(Text),
    /// `.TRUE.` or `.FALSE.`.
    Truth(bool),
    /// `.NOT.`.
    Not,
    /// An operator that may stand between two operands.
    Joint(Operator),
    Open,
    Close,
    Comma,
    Equals,
    /// What no statement has.
    Strange,
}
