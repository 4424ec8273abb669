// The entries of units whose code stands one behind the other.
ghost use Rattle.std.specs.Prelude.{◌≡◌, IfOk};
ghost use Rattle.code_emit.specs.Entries.{entries_from};

use crate::rooms::plus;
use std::alloc::{AllocError, Global};

/// The entry of each of some units of these sizes, and the end of the last.
pub fn entries_of(alloc: Global, sizes: &[u32]) -> Result<Vec<u32>, AllocError>
    ensures { IfOk result (λ v. v.items ≡ entries_from 0 sizes.now) }
{
    let mut entries = Vec::new(alloc);
    let mut at = 0;
    for size in sizes {
        entries.push(at)?;
        at = plus(at, *size)?;
    }
    entries.push(at)?;
    Ok(entries)
}
