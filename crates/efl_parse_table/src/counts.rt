// What is counted against the limits.
ghost use Rattle.std.specs.Prelude.{◌≡◌};
ghost use Rattle.efl_parse_table.specs.Limits.{next, first, passed as passed_by, opened, begun, taken, nodes_with, nesting_with, closed, is_node as node};

use crate::table::{Production, Terminal};
use grammar::{Event, one_more};

/// The counts at a token.
#[derive(Clone, Copy)]
pub struct Counts {
    /// Blocks, shapes, control statements, parentheses and unary operators around the token.
    pub nesting: u64,
    /// Procedures begun.
    pub procedures: u64,
    /// Whether the token stands in a procedure.
    pub within: bool,
    /// Tokens of the procedure, the ends of lines before it among them.
    pub tokens: u64,
    /// Whether the token stands in a whole expression.
    pub counting: bool,
    /// Nodes of the whole expression.
    pub nodes: u64,
}

pub fn first_counts() -> Counts
    ensures { result ≡ first }
{
    Counts {
        nesting: 0,
        procedures: 0,
        within: false,
        tokens: 0,
        counting: false,
        nodes: 0,
    }
}

const DEEPEST: u64 = 100;

const MOST_PROCEDURES: u64 = 500;

const MOST_TOKENS: u64 = 20_000;

const MOST_NODES: u64 = 1_000;

/// The number of the limit that the counts pass, the smallest where they pass several.
pub fn passed(counts: Counts) -> Option<u64>
    ensures { result ≡ passed_by counts }
{
    if counts.nesting > DEEPEST {
        Some(3)
    } else if counts.procedures > MOST_PROCEDURES {
        Some(5)
    } else if counts.within && counts.tokens > MOST_TOKENS {
        Some(6)
    } else if counts.nodes > MOST_NODES {
        Some(10)
    } else {
        None
    }
}

/// The counts after an event.
pub fn next_counts(counts: Counts, event: Event<Terminal, Production>) -> Counts
    ensures { result ≡ next event counts }
{
    match event {
        Event::Open(production) => open(counts, production),
        Event::Take(terminal) => take(counts, terminal),
        Event::Close(production) => close(counts, production),
    }
}

fn open(counts: Counts, production: Production) -> Counts
    ensures { result ≡ opened production counts }
{
    match production {
        Production::OneProcedure => Counts {
            procedures: one_more(counts.procedures),
            within: true,
            ..counts
        },
        Production::Braces
        | Production::Shape
        | Production::IfStatement
        | Production::WhileStatement
        | Production::ForStatement
        | Production::RepeatStatement
        | Production::DoStatement
        | Production::SwitchStatement
        | Production::Negated
        | Production::Signed
        | Production::Stepped => Counts {
            nesting: one_more(counts.nesting),
            ..counts
        },
        Production::StepDeed => Counts {
            nesting: one_more(counts.nesting),
            ..begin(counts, 0)
        },
        Production::WholeExpr | Production::WholePlace => begin(counts, 0),
        Production::DeedOpen | Production::DeedPlace => begin(counts, 1),
        Production::GroupAtom => Counts {
            nodes: one_more(counts.nodes),
            ..counts
        },
        _ => counts,
    }
}

/// A whole expression begins, of which some nodes stand before.
fn begin(counts: Counts, nodes: u64) -> Counts
    ensures { result ≡ begun nodes counts }
{
    Counts {
        counting: true,
        nodes,
        ..counts
    }
}

fn close(counts: Counts, production: Production) -> Counts
    ensures { result ≡ closed production counts }
{
    match production {
        Production::OneProcedure => Counts {
            within: false,
            tokens: 0,
            ..counts
        },
        Production::Braces
        | Production::Shape
        | Production::IfStatement
        | Production::WhileStatement
        | Production::ForStatement
        | Production::RepeatStatement
        | Production::DoStatement
        | Production::SwitchStatement
        | Production::Negated
        | Production::Signed
        | Production::Stepped => {
            let nesting = counts.nesting.saturating_sub(1);
            Counts { nesting, ..counts }
        }
        Production::StepDeed => {
            let nesting = counts.nesting.saturating_sub(1);
            Counts {
                nesting,
                counting: false,
                ..counts
            }
        }
        Production::WholeExpr
        | Production::WholePlace
        | Production::DeedOpen
        | Production::DeedPlace => Counts {
            counting: false,
            ..counts
        },
        _ => counts,
    }
}

fn is_node(terminal: Terminal) -> bool
    ensures { result ≡ node terminal }
{
    match terminal {
        Terminal::Name
        | Terminal::Letter
        | Terminal::WidthLetter
        | Terminal::CharLetter
        | Terminal::SkipLetter
        | Terminal::Number
        | Terminal::Truth
        | Terminal::Plus
        | Terminal::Minus
        | Terminal::Star
        | Terminal::Slash
        | Terminal::Power
        | Terminal::Relation
        | Terminal::And
        | Terminal::Or
        | Terminal::Not
        | Terminal::Assign
        | Terminal::OperatorAssign
        | Terminal::Stepper => true,
        _ => false,
    }
}

fn take(counts: Counts, terminal: Terminal) -> Counts
    ensures { result ≡ taken terminal counts }
{
    Counts {
        nesting: nesting_after(counts.nesting, terminal),
        tokens: one_more(counts.tokens),
        nodes: nodes_after(counts, terminal),
        ..counts
    }
}

fn nodes_after(counts: Counts, terminal: Terminal) -> u64
    ensures { result ≡ nodes_with terminal counts }
{
    if counts.counting && is_node(terminal) {
        one_more(counts.nodes)
    } else {
        counts.nodes
    }
}

fn nesting_after(nesting: u64, terminal: Terminal) -> u64
    ensures { result ≡ nesting_with terminal nesting }
{
    match terminal {
        Terminal::Open => one_more(nesting),
        Terminal::Close => nesting.saturating_sub(1),
        _ => nesting,
    }
}
