// The labelled common blocks of a unit with their sizes.
ghost use Rattle.std.specs.Prelude.{◌≡◌, ◌<◌, ◌^◌, ◌≤ℤ◌, ◌+ℤ◌, pos, ℕ, List, Some, IfOk, IfSome, length, map, option_map};
ghost use Rattle.std.specs.List.{All, list_any};
ghost use Rattle.std.specs.HashMap.{get_by};
ghost use Rattle.std.specs.Str.{bytes_eq};
ghost use Rattle.f66_tree.specs.Views.{act_of, par_of, routine_of};
ghost use Rattle.f66_program.specs.Association.{IsBadUnit};
ghost use Rattle.f66_program.specs.Linking.{unit_names_block};
ghost use Rattle.offset_classes.specs.Links.{class_in};
ghost use Rattle.offset_classes.specs.Numbers.{AreNearSeats};
ghost use Rattle.storage_assoc.specs.Naming.{IsReady};
ghost use Rattle.storage_assoc.specs.Tables.{IsTableOf};
ghost use Rattle.storage_rules.specs.Blocks.{AreSizes, is_common};
ghost use Rattle.storage_rules.specs.Ends.{AreEnds};
ghost use Rattle.storage_rules.specs.Reach.{AreLabelSizes, AreSeatsOf, IsGap, IsReach};

use crate::ends::ends_of;
use f66_tree::{Stmt, StmtKind, Unit};
use offset_classes::{Seat, seats_by};
use rule_table::note;
use std::alloc::{AllocError, Global};
use std::collections::HashMap;
use storage_assoc::{Table, table_of, unit_links};

/// The labels of the common blocks that a unit names, and of each how many places it has there.
#[derive(Drop)]
pub(crate) struct UnitBlocks<'a> {
    pub(crate) labels: Vec<&'a [u8]>,
    pub(crate) sizes: HashMap<&'a [u8], i128>,
}

/// The labelled common blocks of a unit that is ready and not bad (X3.9-1966, section 7.2.1.3).
pub(crate) fn blocks_of<'a>(alloc: Global, unit: &'a Unit) -> Result<UnitBlocks<'a>, AllocError>
    requires ready { IsReady (routine_of unit.now) }
    requires well { ¬ IsBadUnit (routine_of unit.now) }
    ensures labels { IfOk result (λ b. (q : List ℕ) → list_any (bytes_eq q) (map (λ k. k.now) b.labels.items) ≡ unit_names_block (Some q) (routine_of unit.now)) }
    ensures sizes { IfOk result (λ b. AreSizes (routine_of unit.now) (λ q. get_by (λ k. bytes_eq q k.now) b.sizes)) }
{
    if has_common(&unit.statements) {
        return blocks_by_table(alloc, unit);
    }
    Ok(UnitBlocks {
        labels: Vec::new(alloc),
        sizes: HashMap::new(alloc),
    })
}

/// The same by the table of the unit's names.
fn blocks_by_table<'a>(alloc: Global, unit: &'a Unit) -> Result<UnitBlocks<'a>, AllocError>
    requires ready { IsReady (routine_of unit.now) }
    requires well { ¬ IsBadUnit (routine_of unit.now) }
    ensures labels { IfOk result (λ b. (q : List ℕ) → list_any (bytes_eq q) (map (λ k. k.now) b.labels.items) ≡ unit_names_block (Some q) (routine_of unit.now)) }
    ensures sizes { IfOk result (λ b. AreSizes (routine_of unit.now) (λ q. get_by (λ k. bytes_eq q k.now) b.sizes)) }
{
    let table = table_of(alloc, unit)?;
    let seats = seats_of(alloc, &table, unit)?;
    let ends = ends_of(alloc, &seats, &table.sizes)?;
    let sizes = sizes_of(alloc, &table.labels, &seats, &table.sizes, &ends)?;
    Ok(UnitBlocks {
        labels: table.labels,
        sizes,
    })
}

/// Whether a statement is a COMMON.
fn has_common(statements: &[Stmt]) -> bool
    ensures { result ≡ list_any (λ s. is_common (act_of s.kind)) statements.now }
{
    statements.iter().any(|s| is_common(&s.kind))
}

fn is_common(kind: &StmtKind) -> bool
    ensures { result ≡ is_common (act_of kind.now) }
{
    matches!(kind, StmtKind::Common(_))
}

/// The seats of the rows of a unit that is not bad, of whose names this is the table.
fn seats_of(alloc: Global, table: &Table<'_>, unit: &Unit) -> Result<Vec<Seat>, AllocError>
    requires table { IsTableOf (routine_of unit.now) (λ q. get_by (λ k. bytes_eq q k.now) table.now.rows) (λ q. get_by (λ k. bytes_eq q k.now) table.now.areas)
        (λ q. option_map (λ ps. map par_of ps.now) (get_by (λ k. bytes_eq q k.now) table.now.dims)) table.now.sizes.items table.now.count }
    requires well { ¬ IsBadUnit (routine_of unit.now) }
    ensures { IfOk result (λ v. AreSeatsOf (routine_of unit.now) (λ q. get_by (λ k. bytes_eq q k.now) table.now.rows) (λ q. get_by (λ k. bytes_eq q k.now) table.now.areas)
        (λ q. option_map (λ ps. map par_of ps.now) (get_by (λ k. bytes_eq q k.now) table.now.dims)) table.now.sizes.items table.now.count v.items) }
{
    let walked = unit_links(
        alloc,
        table.count,
        &table.rows,
        &table.areas,
        &table.dims,
        &table.sizes,
        &unit.statements,
    )?;
    if walked.links.len() >= 1 << 60 {
        return Err(AllocError);
    }
    let Some(seats) = seats_by(alloc, table.sizes.len(), &walked.links)? else {
        unreachable!()
    };
    Ok(seats)
}

/// Of each label how many places its block has, by the seats of the blocks' rows and the ends of their classes.
fn sizes_of<'a>(
    alloc: Global,
    labels: &[&'a [u8]],
    seats: &[Seat],
    sizes: &[usize],
    ends: &[Option<i128>],
) -> Result<HashMap<&'a [u8], i128>, AllocError>
    requires inside { length labels.now < length seats.now }
    requires classes { (a : ℕ) → a < length seats.now → class_in seats.now a < length ends.now }
    requires many { length sizes.now ≡ length seats.now }
    requires near { AreNearSeats seats.now }
    requires small { All (λ n. n < 2 ^ 16) sizes.now }
    requires ends { AreEnds seats.now sizes.now (length seats.now) ends.now }
    ensures { IfOk result (λ m. AreLabelSizes seats.now sizes.now (map (λ k. k.now) labels.now) (length labels.now) (λ q. get_by (λ k. bytes_eq q k.now) m)) }
{
    let mut all = HashMap::new(alloc);
    for (k, label) in labels.iter().enumerate() {
        let size = size_of(seats, sizes, ends, k + 1);
        note(&mut all, label, size)?;
    }
    Ok(all)
}

/// How far the rows of a block's class reach behind its first place.
fn size_of(seats: &[Seat], sizes: &[usize], ends: &[Option<i128>], block: usize) -> i128
    requires inside { block < length seats.now }
    requires class { class_in seats.now block < length ends.now }
    requires near { AreNearSeats seats.now }
    requires small { All (λ n. n < 2 ^ 16) sizes.now }
    requires many { length sizes.now ≡ length seats.now }
    requires ends { AreEnds seats.now sizes.now (length seats.now) ends.now }
    ensures { IsReach seats.now sizes.now block result }
{
    let seat = &seats[block];
    gap_of(seat, &ends[seat.class])
}

/// How far an end stands behind the first place of a row; nothing where it does not.
fn gap_of(seat: &Seat, end: &Option<i128>) -> i128
    requires seat_low { pos 0 ≤ℤ (seat.now.offset +ℤ pos (2 ^ 125)) }
    requires seat_high { seat.now.offset ≤ℤ pos (2 ^ 125) }
    requires end_high { IfSome end.now (λ e. e ≤ℤ pos (2 ^ 126)) }
    ensures { IsGap end.now seat.now.offset result }
{
    match end {
        Some(end) => {
            if *end > seat.offset {
                *end - seat.offset
            } else {
                0
            }
        }
        None => 0,
    }
}
