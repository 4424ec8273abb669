// The stack of productions under way.

ghost use Rattle.std.specs.Prelude.{◌≡◌, ◌∷◌, [], length, min, IfOk, OnOk, MatchOption};
ghost use Rattle.grammar.specs.Descent.{left, behind, with_value, opened, whole};
ghost use Rattle.grammar.specs.Stack.{held, innermost, below, around, items, closed, IsSplit};

use crate::language::{Language, Symbol};
use std::alloc::{AllocError, Global};

/// A production under way, with how many of its symbols have their values.
#[derive(Drop)]
pub struct Frame<P> {
    pub production: P,
    pub count: usize,
}

/// The productions under way: the innermost, and those around it, the outermost first. All their values stand in one list, those of
/// the innermost last. `parts` takes those of a production that is closed, and is kept from one to the next for its memory alone.
#[derive(Drop)]
pub struct Stack<P, V> {
    pub top: Frame<P>,
    pub outer: Vec<Frame<P>>,
    pub values: Vec<V>,
    pub parts: Vec<V>,
}

/// One production alone.
pub fn new_stack<L: Language>(
    alloc: Global,
    production: L::Production,
) -> Stack<L::Production, L::Value>
    ensures { items L.view result ≡ opened production ∷ [] }
{
    Stack {
        top: Frame {
            production,
            count: 0,
        },
        outer: Vec::new(alloc),
        values: Vec::new(alloc),
        parts: Vec::new(alloc),
    }
}

/// The symbol that the innermost production waits for.
pub fn awaited<L: Language>(
    stack: &Stack<L::Production, L::Value>,
) -> Option<Symbol<L::Terminal, L::Nonterminal>>
    ensures { MatchOption result (left L.grammar (innermost L.view stack.now) ≡ []) (λ x. left L.grammar (innermost L.view stack.now) ≡ x ∷ behind L.grammar (innermost L.view stack.now)) }
{
    L::symbol_at(stack.top.production, done(&stack.top, &stack.values))
}

/// How many symbols of the innermost production have their values.
fn done<P, V>(top: &Frame<P>, values: &Vec<V>) -> usize
    ensures { result ≡ min top.now.count (length values.now.items) }
{
    top.count.min(values.len())
}

/// Gives a value to the innermost production.
pub fn push_value<L: Language>(
    stack: &mut Stack<L::Production, L::Value>,
    value: L::Value,
) -> Result<(), AllocError>
    ensures { OnOk result (items L.view stack.new ≡ with_value (innermost L.view stack.old) (L.view value) ∷ around L.view stack.old) }
{
    let count = done(&stack.top, &stack.values);
    stack.values.push(value)?;
    stack.top.count = count + 1;
    Ok(())
}

/// Opens a production.
pub fn open<L: Language>(
    stack: &mut Stack<L::Production, L::Value>,
    production: L::Production,
) -> Result<(), AllocError>
    ensures { OnOk result (items L.view stack.new ≡ opened production ∷ items L.view stack.old) }
{
    stack.outer.push(Frame {
        production: stack.top.production,
        count: stack.top.count,
    })?;
    stack.top = Frame {
        production,
        count: 0,
    };
    Ok(())
}

/// Takes the values of the innermost production away, and makes what it is of them.
pub fn make<L: Language>(
    alloc: Global,
    stack: &mut Stack<L::Production, L::Value>,
) -> Result<L::Value, AllocError>
    ensures made { IfOk result (λ v. L.view v ≡ whole L.grammar (innermost L.view stack.old)) }
    ensures below { OnOk result (held L.view stack.new ≡ below L.view stack.old) }
    ensures outer { OnOk result (stack.new.outer ≡ stack.old.outer) }
{
    take_parts::<L::Value>(&mut stack.values, &mut stack.parts, stack.top.count)?;
    let value = L::build(alloc, stack.top.production, &mut stack.parts)?;
    Ok(value)
}

/// Closes the innermost production, inside this one, which is given its value.
pub fn close<L: Language>(
    alloc: Global,
    stack: &mut Stack<L::Production, L::Value>,
    next: Frame<L::Production>,
) -> Result<(), AllocError>
    ensures { OnOk result (items L.view stack.new ≡ closed L.grammar L.view next stack.old) }
{
    let value = make::<L>(alloc, stack)?;
    stack.top = next;
    push_value::<L>(stack, value)?;
    Ok(())
}

/// Moves the last values, this many where there are as many.
fn take_parts<V: Drop>(
    values: &mut Vec<V>,
    parts: &mut Vec<V>,
    count: usize,
) -> Result<(), AllocError>
    ensures { OnOk result (IsSplit values.old.items count values.new.items parts.new.items) }
{
    parts.clear();
    for _ in 0..count {
        if let Some(value) = values.pop() {
            parts.push(value)?;
        }
    }
    parts.reverse();
    Ok(())
}
