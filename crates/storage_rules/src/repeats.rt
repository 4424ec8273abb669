// Numbers that stand in a list more than once.
ghost use Rattle.std.specs.Prelude.{IfOk, MatchOption};
ghost use Rattle.storage_rules.specs.Repeats.{HasNoRepeat, IsFirstRepeat};

use std::alloc::{AllocError, Global};
use std::collections::HashSet;

/// Where the first number stands that stands before in the list.
pub(crate) fn first_repeat(alloc: Global, numbers: &[usize]) -> Result<Option<usize>, AllocError>
    ensures { IfOk result (λ o. MatchOption o (HasNoRepeat numbers.now) (IsFirstRepeat numbers.now)) }
{
    let mut seen = HashSet::new(alloc);
    for (k, number) in numbers.iter().enumerate() {
        if !seen.insert(*number)? {
            return Ok(Some(k));
        }
    }
    Ok(None)
}
