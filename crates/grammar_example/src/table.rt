// The names of the grammar: what it sees of tokens, the parts of a text, and its productions. tools/grammar_tables.py writes it from outline.grammar.

/// What the grammar sees of a token.
#[derive(Clone, Copy, PartialEq, Eq)]
pub enum Terminal {
    Name,
    Then,
    Else,
    OpenBrace,
    CloseBrace,
    Semicolon,
    LineEnd,
    TextEnd,
    Other,
}

/// The parts of a text that the grammar names.
#[derive(Clone, Copy, PartialEq, Eq)]
pub enum Nonterminal {
    Outline,
    Items,
    Item,
    ElsePart,
    Stop,
}

/// The productions, each of one nonterminal.
#[derive(Clone, Copy, PartialEq, Eq)]
pub enum Production {
    Whole,
    Line,
    More,
    Done,
    Braces,
    Choice,
    Single,
    Otherwise,
    Nothing,
    StopLine,
    StopSign,
    StopNone,
}
