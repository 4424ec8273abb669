// How far classes of linked rows reach.
ghost use Rattle.std.specs.Prelude.{◌≡◌, ◌≢◌, ◌<◌, ◌^◌, ◌≤ℤ◌, ◌+ℤ◌, pos, ℕ, None, IfOk, length, slice_index_or};
ghost use Rattle.std.specs.List.{All};
ghost use Rattle.offset_classes.specs.Links.{class_in};
ghost use Rattle.offset_classes.specs.Numbers.{AreNearSeats};
ghost use Rattle.storage_rules.specs.Ends.{AreEnds, IsFurther};

use offset_classes::Seat;
use std::alloc::{AllocError, Global};

/// Of each class the offset behind the last place of its rows, which have so many places each; nothing where it has no places.
pub(crate) fn ends_of(
    alloc: Global,
    seats: &[Seat],
    sizes: &[usize],
) -> Result<Vec<Option<i128>>, AllocError>
    requires many { length sizes.now ≡ length seats.now }
    requires inside { (a : ℕ) → a < length seats.now → class_in seats.now a < length seats.now }
    requires near { AreNearSeats seats.now }
    requires small { All (λ n. n < 2 ^ 16) sizes.now }
    ensures many { IfOk result (λ v. length v.items ≡ length seats.now) }
    ensures ends { IfOk result (λ v. AreEnds seats.now sizes.now (length seats.now) v.items) }
{
    let mut ends = no_ends(alloc, seats.len())?;
    for (row, seat) in seats.iter().enumerate() {
        reach(&mut ends, seat, sizes[row]);
    }
    Ok(ends)
}

/// No ends for so many classes.
fn no_ends(alloc: Global, classes: usize) -> Result<Vec<Option<i128>>, AllocError>
    ensures { IfOk result (λ v. (length v.items ≡ classes) × ((c : ℕ) → slice_index_or v.items c None ≡ None)) }
{
    let mut ends = Vec::new(alloc);
    for _class in 0..classes {
        ends.push(None)?;
    }
    Ok(ends)
}

/// Moves the end of a row's class behind the row's last place, where it has any.
fn reach(ends: &mut [Option<i128>], seat: &Seat, size: usize)
    requires inside { seat.now.class < length ends.old }
    requires low { pos 0 ≤ℤ (seat.now.offset +ℤ pos (2 ^ 125)) }
    requires high { seat.now.offset ≤ℤ pos (2 ^ 125) }
    requires small { size < 2 ^ 16 }
    ensures none { size ≡ 0 → ends.new ≡ ends.old }
    ensures others { (c : ℕ) → c ≢ seat.now.class → slice_index_or ends.new c None ≡ slice_index_or ends.old c None }
    ensures here { 0 < size → IsFurther (slice_index_or ends.old seat.now.class None) (seat.now.offset +ℤ pos size) (slice_index_or ends.new seat.now.class None) }
{
    if size == 0 {
        return;
    }
    let end = seat.offset + size as i128;
    if let Some(last) = ends[seat.class]
        && end <= last
    {
        return;
    }
    ends[seat.class] = Some(end);
}
