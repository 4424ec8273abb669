// The symbols of each production. tools/grammar_tables.py writes it from outline.grammar.

ghost use Rattle.std.specs.Prelude.{◌≡◌, slice_get};
ghost use Rattle.grammar_example.specs.Table.{symbols, all_symbols, symbol_starts};

use crate::table::{Nonterminal, Production, Terminal};
use grammar::{Symbol, row};

/// The symbol at a place of a production.
pub fn symbol_at(production: Production, place: usize) -> Option<Symbol<Terminal, Nonterminal>>
    ensures { result ≡ slice_get (symbols production) place }
{
    symbols_of(production).get(place).copied()
}

#[tactic(auto, using(crate::proofs::TableLemmas::symbols_stand, crate::proofs::TableLemmas::symbols_found))]
fn symbols_of(production: Production) -> &'static [Symbol<Terminal, Nonterminal>]
    ensures { result.now ≡ symbols production }
{
    row(all(), starts(), production as usize)
}

fn all() -> &'static [Symbol<Terminal, Nonterminal>]
    ensures { result.now ≡ all_symbols }
{
    &SYMBOLS
}

fn starts() -> &'static [usize]
    ensures { result.now ≡ symbol_starts }
{
    &STARTS
}

// Where the symbols of each production begin, and where the last end.
static STARTS: [usize; 13] = [0, 2, 4, 6, 6, 9, 12, 14, 16, 16, 17, 18, 18];

static SYMBOLS: [Symbol<Terminal, Nonterminal>; 18] = [
    // Whole
    Symbol::Nonterminal(Nonterminal::Items),
    Symbol::Terminal(Terminal::TextEnd),
    // Line
    Symbol::Terminal(Terminal::LineEnd),
    Symbol::Nonterminal(Nonterminal::Items),
    // More
    Symbol::Nonterminal(Nonterminal::Item),
    Symbol::Nonterminal(Nonterminal::Items),
    // Braces
    Symbol::Terminal(Terminal::OpenBrace),
    Symbol::Nonterminal(Nonterminal::Items),
    Symbol::Terminal(Terminal::CloseBrace),
    // Choice
    Symbol::Terminal(Terminal::Then),
    Symbol::Nonterminal(Nonterminal::Item),
    Symbol::Nonterminal(Nonterminal::ElsePart),
    // Single
    Symbol::Terminal(Terminal::Name),
    Symbol::Nonterminal(Nonterminal::Stop),
    // Otherwise
    Symbol::Terminal(Terminal::Else),
    Symbol::Nonterminal(Nonterminal::Item),
    // StopLine
    Symbol::Terminal(Terminal::LineEnd),
    // StopSign
    Symbol::Terminal(Terminal::Semicolon),
];
