// What a descent needs of a language: its grammar as a table, and its meters.

ghost use Rattle.std.specs.Prelude.{◌≡◌};
ghost use Rattle.ground.specs.declared.token.Token.{Token};
ghost use Rattle.grammar.specs.Grammar.{Grammar};
ghost use Rattle.grammar.specs.Limits.{Meter};
ghost use Rattle.grammar.specs.Certificate.{Certificate, IsSound};

use grammar::Event;
use ground::Token;

/// A language that is read by descent: what its tables see of a token, and what is counted against its limits. What its productions
/// make of their parts is for the functions of the descent.
pub trait Tables {
    type Terminal: Copy;

    type Nonterminal: Copy;

    type Production: Copy;

    type Meters: Copy;

    ghost Val: { Type 0 };

    ghost grammar: { Grammar Token Self.Terminal Self.Nonterminal Self.Production Val };

    ghost meter: { Meter Self.Terminal Self.Production Self.Meters };

    ghost certificate: { Certificate Token Self.Terminal Self.Nonterminal Self.Production };

    /// What the grammar sees of a token.
    fn terminal_of(token: &Token) -> Self::Terminal
        ensures { result ≡ grammar.terminal_of token.now };

    fn same_terminal(one: Self::Terminal, other: Self::Terminal) -> bool
        ensures { result ≡ certificate.same_terminal one other };

    /// The meters after an event.
    fn next_meters(
        meters: Self::Meters,
        event: Event<Self::Terminal, Self::Production>,
    ) -> Self::Meters
        ensures { result ≡ meter.next event meters };

    /// The number of the limit that the meters pass, the smallest where they pass several.
    fn passed(meters: Self::Meters) -> Option<u64>
        ensures { result ≡ meter.passed meters };

    ghost sound: { IsSound grammar certificate };
}
