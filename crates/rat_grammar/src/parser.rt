// The parser of Ratfor, by its published grammar.
ghost use Rattle.rat_grammar.specs.Answers.{Answers};
ghost use Rattle.rat_grammar.specs.Relation.{EndsText};

use ground::{List, Refusal, Token};
use rat_tree::RatProgram;
use std::alloc::Global;

/// The tree of a Ratfor text whose tokens end with the end of the text (Kernighan, Ratfor: A Preprocessor for a Rational Fortran,
/// 1975). A text that is no program is refused at the first token after which no tokens make one (Syntax); a token that passes a
/// limit before that is refused with the limit's number: 3 for nesting above 100, 5 for more than 500 units, 6 for more than
/// 20,000 tokens of a unit, 10 for more than 1,000 nodes of an expression.
pub fn parse(alloc: Global, tokens: &List<Token>) -> Result<RatProgram, Refusal>
    requires { EndsText tokens.now.items }
    ensures { Answers tokens.now.items result }
{
    rat_descent::parse(alloc, tokens)
}
