// Counts of events.

ghost use Rattle.std.specs.Prelude.{◌≡◌};
ghost use Rattle.grammar.specs.Limits.{more};

/// One more. A count stays at its greatest number.
pub fn one_more(count: u64) -> u64
    ensures { result ≡ more count }
{
    count.saturating_add(1)
}
