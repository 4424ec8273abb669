// A whole text.

ghost use Rattle.std.specs.Prelude.{IfOk};
ghost use Rattle.grammar.specs.Grammar.{EndsWith};
ghost use Rattle.grammar.specs.Limits.{IsAccepted};
ghost use Rattle.grammar.specs.Answers.{Answers};
ghost use Rattle.rat_parse_table.specs.Limits.{meter};
ghost use Rattle.rat_parse_table.specs.Ratfor.{certificate};
ghost use Rattle.rat_parse.specs.Ratfor.{grammar as ratfor, whole};

use crate::language::Ratfor;
use crate::units::units;
use descent::{GiveUp, begin, last};
use grammar::Event;
use ground::{List, Refusal, Token};
use rat_parse::refusal_of;
use rat_parse_table::{Production, Terminal, first_counts, next_counts};
use rat_tree::RatProgram;
use std::alloc::Global;

/// The tree of a Ratfor text whose tokens end with the end of the text. A text that is no program is refused at the first
/// token after which no tokens make one (Syntax); a token that passes a limit before that is refused with the limit's
/// number: 3 for nesting above 100, 5 for more than 500 units, 6 for more than 20,000 tokens of a unit, 10 for more than
/// 1,000 nodes of an expression.
pub fn parse(alloc: Global, tokens: &List<Token>) -> Result<RatProgram, Refusal>
    requires { EndsWith ratfor certificate.end tokens.now.items }
    ensures { Answers ratfor meter whole tokens.now.items result }
{
    match program(alloc, tokens) {
        Ok(program) => Ok(program),
        // It gives up at a fault, and where memory is at its end.
        Err(GiveUp) => Err(refusal_of(alloc, tokens)),
    }
}

/// The tree of a text, where the descent reads it to its end.
fn program(alloc: Global, tokens: &[Token]) -> Result<RatProgram, GiveUp>
    ensures { IfOk result (λ p. IsAccepted ratfor meter tokens.now (whole p)) }
{
    let counts = next_counts(first_counts(), Event::Open(Production::Whole));
    let mut reader = begin::<Ratfor>(tokens, counts)?;
    let units = units(alloc, &mut reader)?;
    let token = last::<Ratfor>(&reader, Terminal::TextEnd)?;
    Ok(RatProgram {
        units,
        finish: token.place,
    })
}
