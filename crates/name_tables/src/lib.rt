//! Tables by name, which have few names most of the time.
#![tactic(auto)]

ghost use Rattle.std.specs.Prelude.{◌≡◌};
ghost use Rattle.std.specs.HashMap.{get_by};
ghost use Rattle.std.specs.Option.{option_copied};
ghost use Rattle.std.specs.Str.{bytes_eq};

use std::collections::HashMap;

/// Up to so many names are looked through sooner than a name is hashed.
const FEW: usize = 16;

/// What a table has of a name.
pub fn value_of<'t, V>(table: &'t HashMap<&[u8], V>, name: &[u8]) -> Option<&'t V>
    ensures value { option_copied result ≡ get_by (λ k. bytes_eq name.now k.now) table.now }
{
    if table.len() <= FEW {
        return value_among(table, name);
    }
    table.get(name)
}

/// The same of a table that is looked through.
fn value_among<'t, V>(table: &'t HashMap<&[u8], V>, name: &[u8]) -> Option<&'t V>
    ensures value { option_copied result ≡ get_by (λ k. bytes_eq name.now k.now) table.now }
{
    for (key, value) in table.iter() {
        if are_same(name, key) {
            return Some(value);
        }
    }
    None
}

/// Whether two names are the same, byte by byte, since most of them differ in the first.
fn are_same(one: &[u8], other: &[u8]) -> bool
    ensures { result ≡ bytes_eq one.now other.now }
{
    match (one, other) {
        ([], []) => true,
        ([first, one @ ..], [second, other @ ..]) => first == second && are_same(one, other),
        _ => false,
    }
}
