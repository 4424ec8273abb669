// Ratfor as a language that is read by descent.

ghost use Rattle.std.specs.Prelude.{◌≡◌};
ghost use Rattle.rat_parse_table.specs.Limits.{meter};
ghost use Rattle.rat_parse_table.specs.Ratfor.{certificate};
ghost use Rattle.rat_parse.specs.Ratfor.{grammar as ratfor};

use descent::Tables;
use grammar::Event;
use ground::Token;
use rat_parse_table::{
    Counts, Nonterminal, Production, Terminal, next_counts, passed, terminal_at,
};

/// The grammar of Ratfor (Kernighan, Ratfor: A Preprocessor for a Rational Fortran, 1975).
pub struct Ratfor;

impl Tables for Ratfor {
    ghost use Rattle.rat_parse_table.specs.RatforSound.{sound as table_sound};
    ghost use Rattle.rat_parse_values.specs.Values.{Val, tok};
    ghost use Rattle.rat_parse.specs.Build.{build as built};

    type Terminal = Terminal;

    type Nonterminal = Nonterminal;

    type Production = Production;

    type Meters = Counts;

    ghost Val = { Val };

    ghost grammar = { ratfor };

    ghost meter = { meter };

    ghost certificate = { certificate };

    ghost sound = { table_sound (λ t. tok t) built };

    fn terminal_of(token: &Token) -> Terminal {
        terminal_at(token)
    }

    fn same_terminal(one: Terminal, other: Terminal) -> bool {
        one == other
    }

    fn next_meters(meters: Counts, event: Event<Terminal, Production>) -> Counts
        ensures { result ≡ meter.next event meters }
    {
        next_counts(meters, event)
    }

    fn passed(meters: Counts) -> Option<u64> {
        passed(meters)
    }
}
