// The table of the names of a unit.
ghost use Rattle.std.specs.Prelude.{IfOk, map, option_map};
ghost use Rattle.std.specs.HashMap.{get_by};
ghost use Rattle.std.specs.Str.{bytes_eq};
ghost use Rattle.f66_tree.specs.Views.{par_of, routine_of};
ghost use Rattle.storage_assoc.specs.Naming.{IsReady, AreListedBy};
ghost use Rattle.storage_assoc.specs.Tables.{IsTableOf};

use crate::blocks::labels_of;
use crate::placed::placed_names;
use crate::sizes::row_sizes;
use f66_mentions::names_of;
use f66_tree::{Par, Unit};
use std::alloc::{AllocError, Global};
use std::collections::HashMap;

/// The table of the names of a unit: first the rows of its common blocks, blank common being the first, with the labels of the
/// others in their order, then the rows of its names, with their dimensions, and how many places each row has.
#[derive(Drop)]
pub struct Table<'a> {
    pub count: usize,
    pub labels: Vec<&'a [u8]>,
    pub areas: HashMap<&'a [u8], usize>,
    pub rows: HashMap<&'a [u8], usize>,
    pub dims: HashMap<&'a [u8], &'a [Par]>,
    pub sizes: Vec<usize>,
}

/// The table of a unit that is ready. A unit of 2^31 rows and more counts as out of memory.
pub fn table_of<'a>(alloc: Global, unit: &'a Unit) -> Result<Table<'a>, AllocError>
    requires ready { IsReady (routine_of unit.now) }
    ensures table { IfOk result (λ t. IsTableOf (routine_of unit.now) (λ q. get_by (λ k. bytes_eq q k.now) t.rows) (λ q. get_by (λ k. bytes_eq q k.now) t.areas)
        (λ q. option_map (λ ps. map par_of ps.now) (get_by (λ k. bytes_eq q k.now) t.dims)) t.sizes.items t.count) }
    ensures listed { IfOk result (λ t. AreListedBy (routine_of unit.now) (λ q. get_by (λ k. bytes_eq q k.now) t.rows) (λ q. get_by (λ k. bytes_eq q k.now) t.areas)
        (λ q. option_map (λ ps. map par_of ps.now) (get_by (λ k. bytes_eq q k.now) t.dims)) t.sizes.items t.count (map (λ q. q.now) t.labels.items)) }
{
    let names = names_of(alloc, unit)?;
    let labels = labels_of(alloc, &unit.statements)?;
    let count = labels.names.len() + 1;
    let listing = placed_names(alloc, count, &names)?;
    let sizes = row_sizes(alloc, &names, count, &listing.names)?;
    if sizes.len() >= 1 << 31 {
        return Err(AllocError);
    }
    Ok(Table {
        count,
        labels: labels.names,
        areas: labels.numbers,
        rows: listing.numbers,
        dims: names.dims,
        sizes,
    })
}
