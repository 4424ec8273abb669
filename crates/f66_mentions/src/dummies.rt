// The dummies of a unit.
ghost use Rattle.std.specs.Prelude.{◌≡◌, ℕ, List, IfOk, Some, None, if◌then◌else◌};
ghost use Rattle.std.specs.HashMap.{get_by};
ghost use Rattle.std.specs.List.{list_any};
ghost use Rattle.std.specs.Str.{bytes_eq};
ghost use Rattle.f66_tree.specs.Units.{dummies_of};
ghost use Rattle.f66_tree.specs.Views.{header_of};

use f66_tree::{Header, Name};
use rule_table::note;
use std::alloc::{AllocError, Global};
use std::collections::HashMap;

/// The dummies of a header.
pub(crate) fn dummies_of(header: &Header) -> &[Name]
    ensures { result.now ≡ dummies_of (header_of header.now) }
{
    match header {
        Header::Sub(_, dummies) => dummies.as_slice(),
        Header::Func(_, _, dummies) => dummies.as_slice(),
        _ => &[],
    }
}

/// The dummies of a list.
pub(crate) fn dummy_table<'a>(
    alloc: Global,
    list: &'a [Name],
) -> Result<HashMap<&'a [u8], ()>, AllocError>
    ensures { IfOk result (λ t. (q : List ℕ) → get_by (λ k. bytes_eq q k.now) t ≡ if list_any (bytes_eq q) list.now then Some tt else None) }
{
    let mut table = HashMap::new(alloc);
    for name in list {
        note(&mut table, name.as_bytes(), ())?;
    }
    Ok(table)
}
