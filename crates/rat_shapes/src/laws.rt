// The laws of the statements that a text becomes. The functions do nothing: their contracts are the laws.
ghost use Rattle.rat_shapes.specs.Shapes.{ParsedIsShallow, ParsedIsWhole};

/// No statement that a program becomes has more than 102 open parentheses, where the parser accepts the program.
pub fn parsed_is_shallow()
    ensures { ParsedIsShallow }
{}

/// Its computed GO TO statements have labels, and in its formats only I, L, A and groups have counts, and A has a width of one.
pub fn parsed_is_whole()
    ensures { ParsedIsWhole }
{}
