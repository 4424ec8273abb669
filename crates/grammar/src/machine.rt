// The machine's steps at a token, and at the end of the text.

ghost use Rattle.std.specs.Prelude.{◌≡◌, [], IsTrue, IfOk, MatchBool};
ghost use Rattle.grammar.specs.Descent.{Takes, Refuses, Linked};
ghost use Rattle.grammar.specs.Stack.{items, Stepped, StaysLinked, ComesCloser, Finishes};

use crate::language::{Event, Language, Symbol};
use crate::stack::{Stack, awaited, close, make, open, push_value};
use ground::Token;
use std::alloc::{AllocError, Global};

/// What one step did.
#[derive(Clone, Copy, Debug, PartialEq, Eq)]
pub enum Step {
    /// The token was taken.
    Taken,
    /// A production was opened or closed before the token.
    Again,
    /// Nothing goes on with the token.
    Stuck,
}

/// One step at a token, of which the grammar sees this terminal.
pub fn step_at<L: Language>(
    alloc: Global,
    stack: &mut Stack<L::Production, L::Value>,
    meters: &mut L::Meters,
    token: &Token,
    seen: L::Terminal,
) -> Result<Step, AllocError>
    requires { seen ≡ L.grammar.terminal_of token.now }
    ensures steps { IfOk result (λ s. Stepped L.grammar L.certificate.predict L.meter s (items L.view stack.old) meters.old token.now (items L.view stack.new) meters.new) }
    ensures linked { IfOk result (λ s. StaysLinked L.grammar s (items L.view stack.old) (items L.view stack.new)) }
    ensures closer { IfOk result (λ s. ComesCloser L.grammar L.certificate s (items L.view stack.old) (items L.view stack.new)) }
{
    match awaited::<L>(stack) {
        None => {
            let Some(next) = stack.outer.pop() else {
                return Ok(Step::Stuck);
            };
            *meters = L::next_meters(*meters, Event::Close(stack.top.production));
            close::<L>(alloc, stack, next)?;
            Ok(Step::Again)
        }
        Some(Symbol::Terminal(terminal)) => {
            if !L::same_terminal(seen, terminal) {
                return Ok(Step::Stuck);
            }
            *meters = L::next_meters(*meters, Event::Take(terminal));
            let value = L::token_value(alloc, token)?;
            push_value::<L>(stack, value)?;
            Ok(Step::Taken)
        }
        Some(Symbol::Nonterminal(nonterminal)) => {
            let Some(production) = L::predict(nonterminal, seen) else {
                return Ok(Step::Stuck);
            };
            *meters = L::next_meters(*meters, Event::Open(production));
            open::<L>(stack, production)?;
            Ok(Step::Again)
        }
    }
}

/// Takes a token, or answers that nothing goes on with it.
pub fn take_token<L: Language>(
    alloc: Global,
    stack: &mut Stack<L::Production, L::Value>,
    meters: &mut L::Meters,
    token: &Token,
) -> Result<bool, AllocError>
    ensures takes { IfOk result (λ b. MatchBool b (Takes L.grammar L.certificate.predict L.meter (items L.view stack.old) meters.old token.now (items L.view stack.new) meters.new) (Refuses L.grammar L.certificate.predict L.meter (items L.view stack.old) meters.old token.now)) }
    ensures linked { IfOk result (λ b. IsTrue b → Linked L.grammar (items L.view stack.old) → Linked L.grammar (items L.view stack.new)) }
{
    let seen = L::terminal_of(token);
    loop {
        match step_at::<L>(alloc, stack, meters, token, seen)? {
            Step::Taken => return Ok(true),
            Step::Stuck => return Ok(false),
            Step::Again => {}
        }
    }
}

/// What the end of the text makes of the stack: the value, or nothing where it is not whole.
pub fn finish<L: Language>(
    alloc: Global,
    mut stack: Stack<L::Production, L::Value>,
) -> Result<Option<L::Value>, AllocError>
    ensures { IfOk result (Finishes L.grammar L.certificate.predict L.view (items L.view stack)) }
{
    while awaited::<L>(&stack).is_none() {
        match stack.outer.pop() {
            None => return Ok(Some(make::<L>(alloc, &mut stack)?)),
            Some(next) => close::<L>(alloc, &mut stack, next)?,
        }
    }
    Ok(None)
}
