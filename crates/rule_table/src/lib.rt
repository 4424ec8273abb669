//! Rules as a table, and the first fault by it: the words that rules and the code's tables share.
#![tactic(auto)]

mod rule;

ghost use Rattle.std.specs.Prelude.{◌≡◌, List, ℕ, OnOk, Some, None, nat_eq, if◌then◌else◌};
ghost use Rattle.std.specs.HashMap.{get, get_by};
ghost use Rattle.std.specs.Option.{option_or};
ghost use Rattle.std.specs.Str.{bytes_eq};
ghost use Rattle.rule_table.specs.Words.{is_below as is_below_seen};

pub use rule::{Rule, lesser};
use std::alloc::AllocError;
use std::collections::HashMap;

/// Notes a value of a name that has none yet.
pub fn note<'a, V: Drop>(
    table: &mut HashMap<&'a [u8], V>,
    name: &'a [u8],
    value: V,
) -> Result<(), AllocError>
    ensures { OnOk result
        ((q : List ℕ) → get_by (λ k. bytes_eq q k.now) table.new
        ≡ option_or (get_by (λ k. bytes_eq q k.now) table.old) (if bytes_eq q name.now then Some value else None)) }
{
    if table.contains_key(name) {
        return Ok(());
    }
    table.insert(name, value)?;
    Ok(())
}

/// Notes a value of a number that has none yet.
pub fn note_number<V: Drop>(
    table: &mut HashMap<u32, V>,
    number: u32,
    value: V,
) -> Result<(), AllocError>
    ensures { OnOk result
        ((q : ℕ) → get nat_eq table.new q ≡ option_or (get nat_eq table.old q) (if nat_eq q number then Some value else None)) }
{
    if table.contains_key(&number) {
        return Ok(());
    }
    table.insert(number, value)?;
    Ok(())
}

/// There is a place, and it is below n.
pub fn is_below(n: usize, place: Option<usize>) -> bool
    ensures { result ≡ is_below_seen n place }
{
    match place {
        Some(m) => m < n,
        None => false,
    }
}
