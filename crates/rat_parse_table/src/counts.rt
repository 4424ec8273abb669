// What is counted against the limits.
ghost use Rattle.std.specs.Prelude.{◌≡◌};
ghost use Rattle.rat_parse_table.specs.Limits.{next, first, passed as passed_by, opened, begun, taken, nodes_with, nesting_with, closed, is_node as node};

use crate::table::{Production, Terminal};
use grammar::{Event, one_more};

/// The counts at a token.
#[derive(Clone, Copy)]
pub struct Counts {
    /// Blocks, control statements, parentheses and unary operators around the token.
    pub nesting: u64,
    /// Units begun.
    pub units: u64,
    /// Whether the token stands in a unit.
    pub within: bool,
    /// Tokens of the unit, the ends of lines before it among them.
    pub tokens: u64,
    /// Expressions around the token, of which the outermost counts.
    pub expressions: u64,
    /// Nodes of the outermost expression.
    pub nodes: u64,
}

pub fn first_counts() -> Counts
    ensures { result ≡ first }
{
    Counts {
        nesting: 0,
        units: 0,
        within: false,
        tokens: 0,
        expressions: 0,
        nodes: 0,
    }
}

const DEEPEST: u64 = 100;

const MOST_UNITS: u64 = 500;

const MOST_TOKENS: u64 = 20_000;

const MOST_NODES: u64 = 1_000;

/// The number of the limit that the counts pass, the smallest where they pass several.
pub fn passed(counts: Counts) -> Option<u64>
    ensures { result ≡ passed_by counts }
{
    if counts.nesting > DEEPEST {
        Some(3)
    } else if counts.units > MOST_UNITS {
        Some(5)
    } else if counts.within && counts.tokens > MOST_TOKENS {
        Some(6)
    } else if counts.nodes > MOST_NODES {
        Some(10)
    } else {
        None
    }
}

/// The counts after an event.
pub fn next_counts(counts: Counts, event: Event<Terminal, Production>) -> Counts
    ensures { result ≡ next event counts }
{
    match event {
        Event::Open(production) => open(counts, production),
        Event::Take(terminal) => take(counts, terminal),
        Event::Close(production) => close(counts, production),
    }
}

fn open(counts: Counts, production: Production) -> Counts
    ensures { result ≡ opened production counts }
{
    match production {
        Production::OneUnit => Counts {
            units: one_more(counts.units),
            within: true,
            ..counts
        },
        Production::Braces
        | Production::IfStatement
        | Production::WhileStatement
        | Production::ForStatement
        | Production::RepeatStatement
        | Production::DoStatement
        | Production::SwitchStatement
        | Production::Negated
        | Production::SignedTerm => Counts {
            nesting: one_more(counts.nesting),
            ..counts
        },
        Production::Expr | Production::Ref => begin(counts, 0),
        Production::Element => begin(counts, 1),
        Production::GroupPrime => Counts {
            nodes: one_more(counts.nodes),
            ..counts
        },
        _ => counts,
    }
}

/// An expression begins, of which some nodes were counted outside it.
fn begin(counts: Counts, nodes: u64) -> Counts
    ensures { result ≡ begun nodes counts }
{
    let expressions = one_more(counts.expressions);
    if counts.expressions == 0 {
        Counts {
            expressions,
            nodes,
            ..counts
        }
    } else {
        Counts {
            expressions,
            ..counts
        }
    }
}

fn close(counts: Counts, production: Production) -> Counts
    ensures { result ≡ closed production counts }
{
    match production {
        Production::OneUnit => Counts {
            within: false,
            tokens: 0,
            ..counts
        },
        Production::Braces
        | Production::IfStatement
        | Production::WhileStatement
        | Production::ForStatement
        | Production::RepeatStatement
        | Production::DoStatement
        | Production::SwitchStatement
        | Production::Negated
        | Production::SignedTerm => {
            let nesting = counts.nesting.saturating_sub(1);
            Counts { nesting, ..counts }
        }
        Production::Expr | Production::Ref | Production::Element => {
            let expressions = counts.expressions.saturating_sub(1);
            Counts {
                expressions,
                ..counts
            }
        }
        _ => counts,
    }
}

fn is_node(terminal: Terminal) -> bool
    ensures { result ≡ node terminal }
{
    match terminal {
        Terminal::Name
        | Terminal::FieldWord
        | Terminal::Octal
        | Terminal::Number
        | Terminal::Truth
        | Terminal::Adding
        | Terminal::Star
        | Terminal::Slash
        | Terminal::Power
        | Terminal::Relation
        | Terminal::And
        | Terminal::Or
        | Terminal::Not => true,
        _ => false,
    }
}

fn take(counts: Counts, terminal: Terminal) -> Counts
    ensures { result ≡ taken terminal counts }
{
    Counts {
        nesting: nesting_after(counts.nesting, terminal),
        tokens: one_more(counts.tokens),
        nodes: nodes_after(counts, terminal),
        ..counts
    }
}

fn nodes_after(counts: Counts, terminal: Terminal) -> u64
    ensures { result ≡ nodes_with terminal counts }
{
    if counts.expressions > 0 && is_node(terminal) {
        one_more(counts.nodes)
    } else {
        counts.nodes
    }
}

fn nesting_after(nesting: u64, terminal: Terminal) -> u64
    ensures { result ≡ nesting_with terminal nesting }
{
    match terminal {
        Terminal::Open => one_more(nesting),
        Terminal::Close => nesting.saturating_sub(1),
        _ => nesting,
    }
}
