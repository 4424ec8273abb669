// How many places the rows of a unit have.
ghost use Rattle.std.specs.Prelude.{◌≡◌, ◌++◌, ◌*◌, ◌<◌, ◌^◌, ◌≤◌, ℕ, List, IfOk, OnOk, map, replicate};
ghost use Rattle.f66_tree.specs.Units.{places_of};
ghost use Rattle.f66_tree.specs.Views.{par_of};
ghost use Rattle.f66_program.specs.Association.{size_in};
ghost use Rattle.f66_mentions.specs.UnitViews.{context_in};
ghost use Rattle.storage_assoc.specs.Listings.{capped};

use f66_mentions::{UnitNames, sizes_of};
use f66_tree::Par;
use std::alloc::{AllocError, Global};

const CAP: usize = 65_536;

/// The places of rows: none of the blocks, and those of the names, of which no ready unit has more than 65,535 each.
pub(crate) fn row_sizes<'a>(
    alloc: Global,
    names: &UnitNames<'a>,
    blocks: usize,
    listed: &[&'a [u8]],
) -> Result<Vec<usize>, AllocError>
    ensures { IfOk result (λ v. v.items ≡ replicate blocks 0 ++ map (λ x. capped (size_in (context_in names.now) x.now)) listed.now) }
{
    let mut sizes = zeros(alloc, blocks)?;
    for name in listed {
        sizes.push(places_of(sizes_of(names, name)))?;
    }
    Ok(sizes)
}

fn zeros(alloc: Global, count: usize) -> Result<Vec<usize>, AllocError>
    ensures { IfOk result (λ v. v.items ≡ replicate count 0) }
{
    let mut all = Vec::new(alloc);
    for _row in 0..count {
        all.push(0)?;
    }
    Ok(all)
}

/// How many places a name with these dimensions has, up to a cap.
fn places_of(sizes: &[Par]) -> usize
    ensures { result ≡ capped (places_of (map par_of sizes.now)) }
{
    let Some((size, others)) = sizes.split_first() else {
        return 1;
    };
    let Par::Number(size) = size else {
        return 0;
    };
    capped_product(size.unsigned_abs() as usize, places_of(others))
}

fn capped_product(size: usize, places: usize) -> usize
    ensures { result ≡ capped (size * places) }
{
    match size.checked_mul(places) {
        Some(product) if product < CAP => product,
        _ => CAP,
    }
}
