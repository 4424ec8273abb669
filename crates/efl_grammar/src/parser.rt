// The parser of EFL, by its published grammar.
ghost use Rattle.rat_grammar.specs.Relation.{EndsText};
ghost use Rattle.efl_grammar.specs.Answers.{Answers};

use efl_tree::EflProgram;
use ground::{List, Refusal, Token};
use std::alloc::Global;

/// The tree of an EFL text whose tokens end with the end of the text (Feldman, The Programming Language EFL, 1979). A text that is
/// no program is refused at the first token after which no tokens make one (Syntax); a token that passes a limit before that is
/// refused with the limit's number: 3 for nesting above 100, 5 for more than 500 procedures, 6 for more than 20,000 tokens of a
/// procedure, 10 for more than 1,000 nodes of an expression.
pub fn parse(alloc: Global, tokens: &List<Token>) -> Result<EflProgram, Refusal>
    requires { EndsText tokens.now.items }
    ensures { Answers tokens.now.items result }
{
    efl_parse::parse(alloc, tokens)
}
