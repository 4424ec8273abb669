// Outlines as a language of the parsing machine.

ghost use Rattle.std.specs.Prelude.{◌≡◌, ◌++◌, [], IfOk, OnOk};
ghost use Rattle.grammar.specs.Grammar.{EndsWith};
ghost use Rattle.grammar.specs.Answers.{Answers};
ghost use Rattle.grammar_example.specs.Outline.{grammar as outlines, text_of, token_text, meter, certificate, seen, joined, written};
ghost use Rattle.grammar.specs.Stack.{piled};

use crate::parse_table::predict;
use crate::symbols::symbol_at;
use crate::table::{Nonterminal, Production, Terminal};
use grammar::{Event, Language, Symbol, one_more};
use ground::{Refusal, Sign, Text, Token, TokenKind};
use std::alloc::{AllocError, Global};

/// Outlines: `> s : t` is a choice, and `:` belongs to the nearest `>` that has none.
pub struct Outline;

/// What is counted: how deep braces and choices nest, and the names.
#[derive(Clone, Copy, Debug, PartialEq, Eq)]
pub struct Counts {
    pub nesting: u64,
    pub names: u64,
}

/// What the grammar sees of a token.
fn terminal_at(token: &Token) -> Terminal
    ensures { result ≡ seen token.now }
{
    match token.kind {
        TokenKind::Word(_) => Terminal::Name,
        TokenKind::Sign(Sign::Gt) => Terminal::Then,
        TokenKind::Sign(Sign::Colon) => Terminal::Else,
        TokenKind::Sign(Sign::OpenBrace) => Terminal::OpenBrace,
        TokenKind::Sign(Sign::CloseBrace) => Terminal::CloseBrace,
        TokenKind::Semicolon => Terminal::Semicolon,
        TokenKind::LineEnd => Terminal::LineEnd,
        TokenKind::TextEnd => Terminal::TextEnd,
        _ => Terminal::Other,
    }
}

/// Writes the texts one behind the other.
fn append_all(text: &mut Vec<u8>, values: &[Text]) -> Result<(), AllocError>
    ensures { OnOk result (text.new.items ≡ text.old.items ++ joined (piled text_of values.now [])) }
{
    for value in values {
        text.extend_from_slice(value.as_bytes())?;
    }
    Ok(())
}

/// The texts of the parts one behind the other, a choice in parentheses.
fn join(alloc: Global, production: Production, values: &[Text]) -> Result<Text, AllocError>
    ensures { IfOk result (λ v. v ≡ written production (piled text_of values.now [])) }
{
    let mut text = Vec::new(alloc);
    match production {
        Production::Choice => {
            text.push(b'(')?;
            append_all(&mut text, values)?;
            text.push(b')')?;
        }
        _ => append_all(&mut text, values)?,
    }
    Text::new(text)
}

impl Language for Outline {
    ghost use Rattle.grammar_example.specs.OutlineSound.{sound};
    ghost use Rattle.std.specs.Prelude.{List, ℕ};

    type Terminal = Terminal;

    type Nonterminal = Nonterminal;

    type Production = Production;

    type Value = Text;

    type Meters = Counts;

    ghost Val = { List ℕ };

    ghost grammar = { outlines };

    ghost view = { text_of };

    ghost meter = { meter };

    ghost certificate = { certificate };

    ghost sound = { sound token_text written };

    fn start() -> Production {
        Production::Whole
    }

    fn terminal_of(token: &Token) -> Terminal {
        terminal_at(token)
    }

    fn same_terminal(one: Terminal, other: Terminal) -> bool {
        one == other
    }

    fn predict(nonterminal: Nonterminal, terminal: Terminal) -> Option<Production> {
        predict(nonterminal, terminal)
    }

    fn symbol_at(production: Production, place: usize) -> Option<Symbol<Terminal, Nonterminal>> {
        symbol_at(production, place)
    }

    fn token_value(alloc: Global, token: &Token) -> Result<Text, AllocError> {
        match &token.kind {
            TokenKind::Word(word) => Text::from_slice(alloc, word.as_bytes()),
            _ => Ok(Text::empty()),
        }
    }

    fn build(
        alloc: Global,
        production: Production,
        parts: &mut Vec<Text>,
    ) -> Result<Text, AllocError>
        ensures { IfOk result (λ v. text_of v ≡ outlines.build production (piled text_of parts.old.items [])) }
    {
        join(alloc, production, parts)
    }

    fn first_meters() -> Counts {
        Counts {
            nesting: 0,
            names: 0,
        }
    }

    fn next_meters(meters: Counts, event: Event<Terminal, Production>) -> Counts
        ensures { result ≡ meter.next event meters }
    {
        counted(meters, event)
    }

    fn passed(meters: Counts) -> Option<u64> {
        if meters.nesting > 3 {
            Some(3)
        } else if meters.names > 5 {
            Some(5)
        } else {
            None
        }
    }
}

fn counted(meters: Counts, event: Event<Terminal, Production>) -> Counts
    ensures { result ≡ meter.next event meters }
{
    let Counts { nesting, names } = meters;
    match event {
        Event::Open(Production::Braces) | Event::Open(Production::Choice) => Counts {
            nesting: one_more(nesting),
            names,
        },
        Event::Close(Production::Braces) | Event::Close(Production::Choice) => Counts {
            nesting: nesting.saturating_sub(1),
            names,
        },
        Event::Take(Terminal::Name) => Counts {
            nesting,
            names: one_more(names),
        },
        _ => meters,
    }
}

/// Reads an outline: its names, a choice in parentheses.
pub fn read(alloc: Global, tokens: &[Token]) -> Result<Text, Refusal>
    requires { EndsWith outlines certificate.end tokens.now }
    ensures { Answers outlines meter text_of tokens.now result }
{
    grammar::parse::<Outline>(alloc, tokens)
}
