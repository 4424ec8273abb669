// Where the code of the units of a linked program stands.
ghost use Rattle.std.specs.Prelude.{◌≡◌, ◌<◌, ℕ, length, slice_index_or, OnOk};
ghost use Rattle.code_gen.specs.Statements.{unit_size};
ghost use Rattle.code_layout.specs.Spreading.{AreKept, IsSpread, spread_of};

use crate::order::order_of;
use crate::spread::Spread;
use crate::spreading::{before, starts_of};
use std::alloc::{AllocError, Global};
use whole_program::Linked;

/// Gives units their entries, whose code has these sizes.
pub(crate) fn enter(
    alloc: Global,
    linked: &Linked<'_>,
    sizes: &[u32],
    spread: &mut Spread,
) -> Result<(), AllocError>
    ensures { OnOk result ((rank : ℕ → ℕ) → AreKept linked.now rank spread.old → ((u : ℕ) → u < length linked.now.calls.units.now → slice_index_or sizes.now u 0 ≡ unit_size (spread_of linked.now rank) u) → linked.now.main < length linked.now.calls.units.now →
        IsSpread linked.now rank spread.new) }
{
    let all = linked.units();
    let units = all.len();
    let order = order_of(alloc, linked.main, units)?;
    let starts = starts_of(alloc, sizes, &order, units)?;
    let end = before(sizes, &order, units)?;
    spread.starts = starts;
    spread.end = end;
    Ok(())
}
