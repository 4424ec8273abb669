// Where units keep what they keep, and where their code stands.
ghost use Rattle.std.specs.Prelude.{◌≡◌, ◌<◌, ◌+◌, ℕ, length, slice_index_or, IfOk};
ghost use Rattle.code_gen.specs.LayingOut.{before, beneath};

use crate::sums::plus;
use std::alloc::{AllocError, Global};

/// The size of a unit.
pub(crate) fn size_at(sizes: &[u32], unit: usize) -> u32
    ensures { result ≡ slice_index_or sizes.now unit 0 }
{
    match sizes.get(unit) {
        Some(size) => *size,
        None => 0,
    }
}

/// The rank of a unit.
fn rank_at(ranks: &[usize], unit: usize) -> usize
    ensures { result ≡ slice_index_or ranks.now unit 0 }
{
    match ranks.get(unit) {
        Some(rank) => *rank,
        None => 0,
    }
}

/// The sizes of the units that stand before one.
pub(crate) fn before(sizes: &[u32], order: &[usize], unit: usize) -> Result<u32, AllocError>
    ensures { IfOk result (λ n. n ≡ before (λ u. slice_index_or sizes.now u 0) order.now unit) }
{
    let mut sum = 0;
    for other in order {
        if *other == unit {
            return Ok(sum);
        }
        sum = plus(sum, size_at(sizes, *other))?;
    }
    Ok(sum)
}

/// The sizes of the units of lesser rank.
fn beneath(sizes: &[u32], ranks: &[usize], order: &[usize], rank: usize) -> Result<u32, AllocError>
    ensures { IfOk result (λ n. n ≡ beneath (λ u. slice_index_or ranks.now u 0) (λ u. slice_index_or sizes.now u 0) order.now rank) }
{
    let mut sum = 0;
    for other in order {
        if rank_at(ranks, *other) < rank {
            sum = plus(sum, size_at(sizes, *other))?;
        }
    }
    Ok(sum)
}

/// Where the code of each unit begins.
pub(crate) fn starts_of(
    alloc: Global,
    sizes: &[u32],
    order: &[usize],
    units: usize,
) -> Result<Vec<u32>, AllocError>
    ensures many { IfOk result (λ v. length v.items ≡ units) }
    ensures each { IfOk result (λ v. (u d : ℕ) → u < units → slice_index_or v.items u d ≡ before (λ w. slice_index_or sizes.now w 0) order.now u) }
{
    let mut starts = Vec::new(alloc);
    for unit in 0..units {
        let start = before(sizes, order, unit)?;
        starts.push(start)?;
    }
    Ok(starts)
}

/// Where what each unit keeps begins.
pub(crate) fn spares_of(
    alloc: Global,
    bound: u32,
    needs: &[u32],
    ranks: &[usize],
    order: &[usize],
    units: usize,
) -> Result<Vec<u32>, AllocError>
    ensures many { IfOk result (λ v. length v.items ≡ units) }
    ensures each { IfOk result (λ v. (u d : ℕ) → u < units → slice_index_or v.items u d
        ≡ bound + beneath (λ w. slice_index_or ranks.now w 0) (λ w. slice_index_or needs.now w 0) order.now (slice_index_or ranks.now u 0)) }
{
    let mut spares = Vec::new(alloc);
    for unit in 0..units {
        let below = beneath(needs, ranks, order, rank_at(ranks, unit))?;
        let spare = plus(bound, below)?;
        spares.push(spare)?;
    }
    Ok(spares)
}

/// The sums of two numbers of each unit.
pub(crate) fn sums_of(alloc: Global, first: &[u32], second: &[u32]) -> Result<Vec<u32>, AllocError>
    ensures many { IfOk result (λ v. length v.items ≡ length first.now) }
    ensures each { IfOk result (λ v. (u d : ℕ) → u < length first.now → slice_index_or v.items u d ≡ slice_index_or first.now u d + slice_index_or second.now u 0) }
{
    let mut sums = Vec::new(alloc);
    for (unit, one) in first.iter().enumerate() {
        let sum = plus(*one, size_at(second, unit))?;
        sums.push(sum)?;
    }
    Ok(sums)
}
