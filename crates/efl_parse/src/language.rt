// EFL as a language of the parsing machine.

ghost use Rattle.std.specs.Prelude.{◌≡◌, [], IfOk};
ghost use Rattle.grammar.specs.Grammar.{EndsWith};
ghost use Rattle.grammar.specs.Answers.{Answers};
ghost use Rattle.grammar.specs.Stack.{piled};
ghost use Rattle.efl_tree.specs.Views.{program_of};
ghost use Rattle.efl_parse_values.specs.Values.{value};
ghost use Rattle.efl_parse_values.specs.Parts.{as_program};
ghost use Rattle.efl_parse.specs.Build.{build as built};
ghost use Rattle.efl_parse_table.specs.Limits.{meter};
ghost use Rattle.efl_parse_table.specs.Efl.{certificate};
ghost use Rattle.efl_parse.specs.Efl.{grammar as efl, whole};

use crate::build;
use efl_parse_table::{
    Counts, Nonterminal, Production, Terminal, first_counts, next_counts, passed, predict,
    symbol_at, terminal_at,
};
use efl_parse_values::{NOWHERE, ProcedureValue, Value};
use efl_tree::EflProgram;
use grammar::{Event, Language, Symbol};
use ground::{List, Refusal, Token};
use std::alloc::{AllocError, Global};

/// The grammar of EFL (Feldman, The Programming Language EFL, 1979).
pub struct Efl;

impl Language for Efl {
    ghost use Rattle.efl_parse_table.specs.EflSound.{sound as table_sound};
    ghost use Rattle.efl_parse_values.specs.Values.{Val, tok};

    type Terminal = Terminal;

    type Nonterminal = Nonterminal;

    type Production = Production;

    type Value = Value;

    type Meters = Counts;

    ghost Val = { Val };

    ghost grammar = { efl };

    ghost view = { value };

    ghost meter = { meter };

    ghost certificate = { certificate };

    ghost sound = { table_sound (λ t. tok t) built };

    fn start() -> Production {
        Production::Whole
    }

    fn terminal_of(token: &Token) -> Terminal {
        terminal_at(token)
    }

    fn same_terminal(one: Terminal, other: Terminal) -> bool {
        one == other
    }

    fn predict(nonterminal: Nonterminal, terminal: Terminal) -> Option<Production> {
        predict(nonterminal, terminal)
    }

    fn symbol_at(production: Production, place: usize) -> Option<Symbol<Terminal, Nonterminal>> {
        symbol_at(production, place)
    }

    fn token_value(alloc: Global, token: &Token) -> Result<Value, AllocError> {
        Ok(Value::Token(token.clone()?))
    }

    fn build(
        alloc: Global,
        production: Production,
        parts: &mut Vec<Value>,
    ) -> Result<Value, AllocError>
        ensures { IfOk result (λ v. value v ≡ efl.build production (piled value parts.old.items [])) }
    {
        build::build(alloc, production, parts)
    }

    fn first_meters() -> Counts {
        first_counts()
    }

    fn next_meters(meters: Counts, event: Event<Terminal, Production>) -> Counts
        ensures { result ≡ meter.next event meters }
    {
        next_counts(meters, event)
    }

    fn passed(meters: Counts) -> Option<u64> {
        passed(meters)
    }
}

fn into_program(alloc: Global, part: Value) -> EflProgram
    ensures { program_of result ≡ as_program (value part) }
{
    match part {
        Value::Procedure(ProcedureValue::Program(program)) => program,
        other => {
            drop(other);
            EflProgram {
                procedures: Vec::new(alloc),
                finish: NOWHERE,
            }
        }
    }
}

/// The tree of an EFL text whose tokens end with the end of the text. A text that is no program is refused at the first
/// token after which no tokens make one (Syntax); a token that passes a limit before that is refused with the limit's
/// number: 3 for nesting above 100, 5 for more than 500 procedures, 6 for more than 20,000 tokens of a procedure, 10 for more than
/// 1,000 nodes of an expression.
pub fn parse(alloc: Global, tokens: &List<Token>) -> Result<EflProgram, Refusal>
    requires { EndsWith efl certificate.end tokens.now.items }
    ensures { Answers efl meter whole tokens.now.items result }
{
    parse_all(alloc, tokens)
}

fn parse_all(alloc: Global, tokens: &[Token]) -> Result<EflProgram, Refusal>
    requires { EndsWith efl certificate.end tokens.now }
    ensures { Answers efl meter whole tokens.now result }
{
    match grammar::parse::<Efl>(alloc, tokens) {
        Ok(part) => Ok(into_program(alloc, part)),
        Err(refusal) => Err(refusal),
    }
}
