// Which dummy of its unit a name is.
ghost use Rattle.std.specs.Prelude.{◌≡◌, ℕ, List, IfOk};
ghost use Rattle.std.specs.HashMap.{get_by};
ghost use Rattle.std.specs.Str.{bytes_eq};
ghost use Rattle.f66_tree.specs.Units.{dummies_of, position};
ghost use Rattle.f66_tree.specs.Views.{header_of};

use crate::sums::plus;
use f66_tree::{Header, Name};
use rule_table::note;
use std::alloc::{AllocError, Global};
use std::collections::HashMap;

/// The dummies of a header.
pub(crate) fn dummies_of(header: &Header) -> &[Name]
    ensures { result.now ≡ dummies_of (header_of header.now) }
{
    match header {
        Header::Sub(_, dummies) => dummies.as_slice(),
        Header::Func(_, _, dummies) => dummies.as_slice(),
        _ => &[],
    }
}

/// Where each name of a list first stands there.
pub(crate) fn positions_of<'a>(
    alloc: Global,
    list: &'a [Name],
) -> Result<HashMap<&'a [u8], u32>, AllocError>
    ensures { IfOk result (λ t. (q : List ℕ) → get_by (λ k. bytes_eq q k.now) t ≡ position q list.now) }
{
    let mut table = HashMap::new(alloc);
    let mut number = 0;
    for name in list {
        note(&mut table, name.as_bytes(), number)?;
        number = plus(number, 1)?;
    }
    Ok(table)
}
