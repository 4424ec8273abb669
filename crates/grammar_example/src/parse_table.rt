// The parse table: the production by which each nonterminal goes on at a terminal. tools/grammar_tables.py writes it from outline.grammar.

ghost use Rattle.std.specs.Prelude.{◌≡◌};
ghost use denote.Enum.Bare.{sameb};
ghost use Rattle.grammar.specs.Rows.{found};
ghost use Rattle.grammar_example.specs.contracts.table.Terminal.{the_type as terminal_type};
ghost use Rattle.grammar_example.specs.ParseTable.{predict_at, entries, rest, all_entries, entry_starts, all_rests};

use crate::table::{Nonterminal, Production, Terminal};
use grammar::row;

/// The production by which a nonterminal goes on at a terminal.
pub fn predict(nonterminal: Nonterminal, terminal: Terminal) -> Option<Production>
    ensures { result ≡ predict_at nonterminal terminal }
{
    chosen(entries_of(nonterminal), terminal, rest_of(nonterminal))
}

fn chosen(
    choices: &[(Terminal, Production)],
    seen: Terminal,
    other: Option<Production>,
) -> Option<Production>
    ensures { result ≡ found (sameb terminal_type) seen choices.now other }
{
    for (terminal, production) in choices {
        if *terminal == seen {
            return Some(*production);
        }
    }
    other
}

#[tactic(auto, using(crate::proofs::TableLemmas::entries_stand, crate::proofs::TableLemmas::entries_found))]
fn entries_of(nonterminal: Nonterminal) -> &'static [(Terminal, Production)]
    ensures { result.now ≡ entries nonterminal }
{
    row(all(), starts(), nonterminal as usize)
}

/// The production at any terminal that has no entry.
#[tactic(auto, using(crate::proofs::TableLemmas::rest_stands, crate::proofs::TableLemmas::rest_found))]
fn rest_of(nonterminal: Nonterminal) -> Option<Production>
    ensures { result ≡ rest nonterminal }
{
    rests()[nonterminal as usize]
}

fn all() -> &'static [(Terminal, Production)]
    ensures { result.now ≡ all_entries }
{
    &ENTRIES
}

fn starts() -> &'static [usize]
    ensures { result.now ≡ entry_starts }
{
    &STARTS
}

fn rests() -> &'static [Option<Production>]
    ensures { result.now ≡ all_rests }
{
    &RESTS
}

// Where the entries of each nonterminal begin, and where the last end.
static STARTS: [usize; 6] = [0, 5, 9, 12, 19, 23];

static RESTS: [Option<Production>; 5] = [None, Some(Production::Done), None, None, None];

static ENTRIES: [(Terminal, Production); 23] = [
    (Terminal::Name, Production::Whole),
    (Terminal::Then, Production::Whole),
    (Terminal::OpenBrace, Production::Whole),
    (Terminal::LineEnd, Production::Whole),
    (Terminal::TextEnd, Production::Whole),
    (Terminal::Name, Production::More),
    (Terminal::Then, Production::More),
    (Terminal::OpenBrace, Production::More),
    (Terminal::LineEnd, Production::Line),
    (Terminal::Name, Production::Single),
    (Terminal::Then, Production::Choice),
    (Terminal::OpenBrace, Production::Braces),
    (Terminal::Name, Production::Nothing),
    (Terminal::Then, Production::Nothing),
    (Terminal::Else, Production::Otherwise),
    (Terminal::OpenBrace, Production::Nothing),
    (Terminal::CloseBrace, Production::Nothing),
    (Terminal::LineEnd, Production::Nothing),
    (Terminal::TextEnd, Production::Nothing),
    (Terminal::CloseBrace, Production::StopNone),
    (Terminal::Semicolon, Production::StopSign),
    (Terminal::LineEnd, Production::StopLine),
    (Terminal::TextEnd, Production::StopNone),
];
