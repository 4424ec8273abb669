// What a language gives the parsing machine: its grammar as a table, its values, and its meters.

ghost use Rattle.std.specs.Prelude.{◌≡◌, [], IfOk, slice_get};
ghost use Rattle.grammar.specs.Grammar.{Grammar};
ghost use Rattle.grammar.specs.Limits.{Meter};
ghost use Rattle.grammar.specs.Certificate.{Certificate, IsSound};
ghost use Rattle.grammar.specs.Stack.{piled};
ghost use Rattle.ground.specs.declared.token.Token.{Token};

use ground::Token;
use std::alloc::{AllocError, Global};

/// A part of a production's right side.
#[derive(Clone, Copy, Debug, PartialEq, Eq)]
pub enum Symbol<T, N> {
    Terminal(T),
    Nonterminal(N),
}

/// What happens along a derivation, from left to right.
#[derive(Clone, Copy, Debug, PartialEq, Eq)]
pub enum Event<T, P> {
    Open(P),
    Take(T),
    Close(P),
}

/// A language: a grammar with its parse table, what each production makes, and meters against limits.
pub trait Language {
    type Terminal: Copy;

    type Nonterminal: Copy;

    type Production: Copy;

    type Value: Drop;

    type Meters: Copy;

    ghost Val: { Type 0 };

    ghost grammar: { Grammar Token Self.Terminal Self.Nonterminal Self.Production Val };

    ghost view: { Self.Value → Val };

    ghost meter: { Meter Self.Terminal Self.Production Self.Meters };

    ghost certificate: { Certificate Token Self.Terminal Self.Nonterminal Self.Production };

    /// The production that the text is derived from.
    fn start() -> Self::Production
        ensures { result ≡ grammar.start };

    /// What the grammar sees of a token.
    fn terminal_of(token: &Token) -> Self::Terminal
        ensures { result ≡ grammar.terminal_of token.now };

    fn same_terminal(one: Self::Terminal, other: Self::Terminal) -> bool
        ensures { result ≡ certificate.same_terminal one other };

    /// The parse table: the production by which a nonterminal goes on at a terminal.
    fn predict(nonterminal: Self::Nonterminal, terminal: Self::Terminal) -> Option<Self::Production>
        ensures { result ≡ certificate.predict nonterminal terminal };

    fn symbol_at(
        production: Self::Production,
        place: usize,
    ) -> Option<Symbol<Self::Terminal, Self::Nonterminal>>
        ensures { result ≡ slice_get (grammar.symbols production) place };

    /// What a token gives to the tree.
    fn token_value(alloc: Global, token: &Token) -> Result<Self::Value, AllocError>
        ensures { IfOk result (λ v. view v ≡ grammar.value token.now) };

    /// What a production makes of the values of its symbols. It may leave some of them.
    fn build(
        alloc: Global,
        production: Self::Production,
        parts: &mut Vec<Self::Value>,
    ) -> Result<Self::Value, AllocError>
        ensures { IfOk result (λ v. view v ≡ grammar.build production (piled view parts.old.items [])) };

    fn first_meters() -> Self::Meters
        ensures { result ≡ meter.first };

    /// The meters after an event.
    fn next_meters(
        meters: Self::Meters,
        event: Event<Self::Terminal, Self::Production>,
    ) -> Self::Meters
        ensures { result ≡ meter.next event meters };

    /// The number of the limit that the meters pass, the smallest where they pass several.
    fn passed(meters: Self::Meters) -> Option<u64>
        ensures { result ≡ meter.passed meters };

    ghost sound: { IsSound grammar certificate };
}
