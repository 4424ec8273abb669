// The tokens of both languages.

use crate::{Place, Text};

/// The language of a text.
#[derive(Clone, Copy, Debug, PartialEq, Eq)]
pub enum Dialect {
    Ratfor,
    Efl,
}

/// A token, with the place of its first byte; one that came from a macro has the place of the use.
#[derive(Clone, Debug, Drop)]
pub struct Token {
    pub kind: TokenKind,
    pub place: Place,
}

/// What a token is.
#[derive(Clone, Debug, Drop)]
pub enum TokenKind {
    /// A letter followed by letters and digits, as written but for its underscores.
    Word(Text),
    /// A number of at most 2147483647.
    Number(i64),
    /// A text in quotes, without them.
    Quoted(Text),
    Sign(Sign),
    /// The end of a line that is not continued.
    LineEnd,
    Semicolon,
    /// The end of the text.
    TextEnd,
}

/// The signs of both languages. Spellings that a language makes one sign are one variant.
#[derive(Clone, Copy, Debug, PartialEq, Eq)]
pub enum Sign {
    Plus,
    Minus,
    Star,
    Slash,
    Power,
    Open,
    Close,
    Comma,
    OpenBrace,
    CloseBrace,
    Colon,
    Eq,
    Ne,
    Lt,
    Le,
    Gt,
    Ge,
    And,
    AndThen,
    Or,
    OrElse,
    Not,
    /// EFL's `^`, which no rule of its grammar takes.
    Caret,
    /// EFL's `^=`, which no rule of its grammar takes.
    CaretEqual,
    Point,
    /// Ratfor's `.TRUE.`.
    True,
    /// Ratfor's `.FALSE.`.
    False,
    Assign,
    AddAssign,
    SubAssign,
    MulAssign,
    DivAssign,
    PowerAssign,
    AndAssign,
    OrAssign,
    AndThenAssign,
    OrElseAssign,
    Increment,
    Decrement,
    Arrow,
    Dollar,
}
