// The numbers that the rows of a unit have in its program.
ghost use Rattle.std.specs.Prelude.{◌≡◌, ◌<◌, ◌≤◌, ◌-◌, ◌+◌, ◌^◌, ◌∷◌, ◌++◌, ℕ, List, IfOk, OnOk, length, map, drop};
ghost use Rattle.std.specs.HashMap.{get_by};
ghost use Rattle.std.specs.Str.{bytes_eq};
ghost use Rattle.storage_assoc.specs.Lists.{row_by};
ghost use Rattle.program_storage.specs.Whole.{AreCountedOn, AreWhole};

use std::alloc::{AllocError, Global};
use std::collections::HashMap;
use storage_assoc::Table;

/// Adds the rows of the names of a unit behind the rows that there are, and gives the numbers of the unit's rows. A program of
/// 2^31 rows and more counts as out of memory.
pub(crate) fn add_rows(
    alloc: Global,
    blocks: &HashMap<&[u8], usize>,
    sizes: &mut Vec<usize>,
    table: &Table<'_>,
) -> Result<Vec<usize>, AllocError>
    requires few { length sizes.old.items < 2 ^ 31 }
    requires within { table.now.count ≤ length table.now.sizes.items }
    requires bounded { length table.now.sizes.items < 2 ^ 31 }
    ensures few { OnOk result (length sizes.new.items < 2 ^ 31) }
    ensures sizes { OnOk result (sizes.new.items ≡ sizes.old.items ++ drop table.now.count table.now.sizes.items) }
    ensures whole { IfOk result (λ w. AreWhole (λ q. get_by (λ k. bytes_eq q k.now) blocks.now) (map (λ q. q.now) table.now.labels.items) (length sizes.old.items)
        (length table.now.sizes.items - table.now.count) w.items) }
{
    let names = &table.sizes.as_slice()[table.count..];
    let whole = whole_of(alloc, blocks, &table.labels, sizes.len(), names.len())?;
    add_sizes(sizes, names)?;
    if sizes.len() >= 1 << 31 {
        return Err(AllocError);
    }
    Ok(whole)
}

/// The number of the block of a label.
fn number_of_label(blocks: &HashMap<&[u8], usize>, label: &[u8]) -> usize
    ensures { result ≡ row_by (λ q. get_by (λ k. bytes_eq q k.now) blocks.now) label.now }
{
    match blocks.get(label) {
        Some(number) => *number,
        None => 0,
    }
}

/// The numbers of blank common and of the blocks of labels.
fn block_numbers(
    alloc: Global,
    blocks: &HashMap<&[u8], usize>,
    labels: &[&[u8]],
) -> Result<Vec<usize>, AllocError>
    ensures { IfOk result (λ v. v.items ≡ 0 ∷ map (λ q. row_by (λ q. get_by (λ k. bytes_eq q k.now) blocks.now) q.now) labels.now) }
{
    let mut numbers = Vec::new(alloc);
    numbers.push(0)?;
    for label in labels {
        numbers.push(number_of_label(blocks, label))?;
    }
    Ok(numbers)
}

/// Adds so many numbers, which count on from a first one.
fn count_on(numbers: &mut Vec<usize>, first: usize, names: usize) -> Result<(), AllocError>
    requires { first + names < 2 ^ 62 }
    ensures { OnOk result (AreCountedOn numbers.old.items first names numbers.new.items) }
{
    for name in 0..names {
        numbers.push(first + name)?;
    }
    Ok(())
}

/// The numbers of the rows of a unit, whose names stand behind the rows that there are.
fn whole_of(
    alloc: Global,
    blocks: &HashMap<&[u8], usize>,
    labels: &[&[u8]],
    base: usize,
    names: usize,
) -> Result<Vec<usize>, AllocError>
    requires { base + names < 2 ^ 62 }
    ensures { IfOk result (λ w. AreWhole (λ q. get_by (λ k. bytes_eq q k.now) blocks.now) (map (λ q. q.now) labels.now) base names w.items) }
{
    let mut numbers = block_numbers(alloc, blocks, labels)?;
    count_on(&mut numbers, base, names)?;
    Ok(numbers)
}

/// Adds how many places names have.
fn add_sizes(sizes: &mut Vec<usize>, more: &[usize]) -> Result<(), AllocError>
    ensures { OnOk result (sizes.new.items ≡ sizes.old.items ++ more.now) }
{
    for size in more {
        sizes.push(*size)?;
    }
    Ok(())
}
