// Ratfor as a language of the parsing machine.

ghost use Rattle.std.specs.Prelude.{◌≡◌, IfOk, Err};
ghost use Rattle.grammar.specs.Grammar.{EndsWith};
ghost use Rattle.grammar.specs.Answers.{Answers};
ghost use Rattle.rat_parse_table.specs.Limits.{meter};
ghost use Rattle.rat_parse_table.specs.Ratfor.{certificate};
ghost use Rattle.rat_parse.specs.Ratfor.{grammar as ratfor, shape, whole};

use grammar::{Event, Language, Symbol};
use ground::{Refusal, Token};
use rat_parse_table::{
    Counts, Nonterminal, Production, Terminal, first_counts, next_counts, passed, predict,
    symbol_at, terminal_at,
};
use std::alloc::{AllocError, Global};

/// The tables of Ratfor (Kernighan, Ratfor: A Preprocessor for a Rational Fortran, 1975), which tell whether a text is a program. They
/// make no tree.
pub struct Ratfor;

impl Language for Ratfor {
    ghost use Rattle.rat_parse_table.specs.RatforSound.{sound as table_sound};

    type Terminal = Terminal;

    type Nonterminal = Nonterminal;

    type Production = Production;

    type Value = ();

    type Meters = Counts;

    ghost Val = { Unit {0} };

    ghost grammar = { shape };

    ghost view = { λ u. u };

    ghost meter = { meter };

    ghost certificate = { certificate };

    ghost sound = { table_sound (λ t. tt) (λ p us. tt) };

    fn start() -> Production {
        Production::Whole
    }

    fn terminal_of(token: &Token) -> Terminal {
        terminal_at(token)
    }

    fn same_terminal(one: Terminal, other: Terminal) -> bool {
        one == other
    }

    fn predict(nonterminal: Nonterminal, terminal: Terminal) -> Option<Production> {
        predict(nonterminal, terminal)
    }

    fn symbol_at(production: Production, place: usize) -> Option<Symbol<Terminal, Nonterminal>> {
        symbol_at(production, place)
    }

    fn token_value(alloc: Global, token: &Token) -> Result<(), AllocError> {
        Ok(())
    }

    fn build(alloc: Global, production: Production, parts: &mut Vec<()>) -> Result<(), AllocError>
        ensures { IfOk result (λ u. u ≡ tt) }
    {
        Ok(())
    }

    fn first_meters() -> Counts {
        first_counts()
    }

    fn next_meters(meters: Counts, event: Event<Terminal, Production>) -> Counts
        ensures { result ≡ meter.next event meters }
    {
        next_counts(meters, event)
    }

    fn passed(meters: Counts) -> Option<u64> {
        passed(meters)
    }
}

/// Why a text whose tokens end with the end of the text is refused: its first fault, or want of memory, which is the answer too where
/// it has no fault. A text that is no program is refused at the first token after which no tokens make one (Syntax); a token that
/// passes a limit before that is refused with the limit's number: 3 for nesting above 100, 5 for more than 500 units, 6 for more than
/// 20,000 tokens of a unit, 10 for more than 1,000 nodes of an expression.
pub fn refusal_of(alloc: Global, tokens: &[Token]) -> Refusal
    requires { EndsWith ratfor certificate.end tokens.now }
    ensures { Answers ratfor meter whole tokens.now (Err result) }
{
    match grammar::parse::<Ratfor>(alloc, tokens) {
        Ok(()) => Refusal::Memory,
        Err(refusal) => refusal,
    }
}
