// Where the units of a linked program keep what they keep, by their ranks.
ghost use Rattle.std.specs.Prelude.{◌≡◌, ℕ, [], length, slice_index_or, IfOk};
ghost use Rattle.code_gen.specs.LayingOut.{most_room, need};
ghost use Rattle.linker.specs.CallViews.{units_in};
ghost use Rattle.whole_program.specs.Linkage.{linkage_of};
ghost use Rattle.code_layout.specs.Ranked.{bound_of};
ghost use Rattle.code_layout.specs.Spreading.{AreKept};
ghost use Rattle.code_layout.specs.Tabled.{lines_in};

use crate::order::order_of;
use crate::spread::Spread;
use crate::spreading::{spares_of, sums_of};
use std::alloc::{AllocError, Global};
use whole_program::Linked;

/// Where units of these ranks keep what they keep, of which each needs so much, and so much of it for its statements. Their code has no
/// place yet.
pub(crate) fn kept_by(
    alloc: Global,
    linked: &Linked<'_>,
    ranks: &[usize],
    rooms: &[u32],
    needs: &[u32],
) -> Result<Spread, AllocError>
    requires many { length ranks.now ≡ length linked.now.calls.units.now }
    requires rooms { (u : ℕ) → slice_index_or rooms.now u 0 ≡ most_room ((linkage_of linked.now).context u) (lines_in linked.now u) }
    requires needs { (u : ℕ) → slice_index_or needs.now u 0 ≡ need (linkage_of linked.now) (lines_in linked.now) u }
    ensures bound { IfOk result (λ m. m.bound ≡ bound_of linked.now) }
    ensures starts { IfOk result (λ m. m.starts.items ≡ []) }
    ensures end { IfOk result (λ m. m.end ≡ 0) }
    ensures kept { IfOk result (λ m. AreKept linked.now (λ u. slice_index_or ranks.now u 0) m) }
{
    let units = ranks.len();
    let bound = bound_of(linked)?;
    let order = order_of(alloc, linked.main, units)?;
    let spares = spares_of(alloc, bound, needs, ranks, &order, units)?;
    let loops = sums_of(alloc, &spares, rooms)?;
    Ok(Spread {
        bound,
        spares,
        loops,
        starts: Vec::new(alloc),
        end: 0,
    })
}

fn bound_of(linked: &Linked<'_>) -> Result<u32, AllocError>
    ensures { IfOk result (λ n. n ≡ bound_of linked.now) }
{
    let total = linked.total();
    if total == 0 {
        return Ok(1);
    }
    match u32::try_from(total) {
        Ok(bound) => Ok(bound),
        Err(_) => Err(AllocError),
    }
}
