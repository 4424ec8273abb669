// The parser: from tokens to the value of the text, or to its first fault.

ghost use Rattle.std.specs.Prelude.{◌≡◌};
ghost use Rattle.grammar.specs.Grammar.{EndsWith};
ghost use Rattle.grammar.specs.Answers.{Answers};

use crate::language::{Event, Language};
use crate::machine::{finish, take_token};
use crate::stack::new_stack;
use ground::{Fault, FaultKind, Refusal, Token};
use std::alloc::Global;

/// Reads a text of tokens, in time linear in their number. It stops at the first token that no program goes on with
/// (Syntax), or at the first that passes a limit (Limit, with the limit's number).
pub fn parse<L: Language>(alloc: Global, tokens: &[Token]) -> Result<L::Value, Refusal>
    requires { EndsWith L.grammar L.certificate.end tokens.now }
    ensures { Answers L.grammar L.meter L.view tokens.now result }
{
    let start = L::start();
    let mut meters = L::next_meters(L::first_meters(), Event::Open(start));
    let mut stack = new_stack::<L>(alloc, start);
    for token in tokens {
        if !take_token::<L>(alloc, &mut stack, &mut meters, token)? {
            return Err(Refusal::Fault(Fault::new(token.place, FaultKind::Syntax)));
        }
        if let Some(number) = L::passed(meters) {
            return Err(Refusal::Fault(Fault::limit(token.place, number)));
        }
    }
    match finish::<L>(alloc, stack)? {
        Some(value) => Ok(value),
        None => unreachable!(),
    }
}
