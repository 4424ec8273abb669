// The rows and links of the units of a program, one unit behind the other.
ghost use Rattle.std.specs.Prelude.{◌≡◌, ◌<◌, ◌^◌, ◌++◌, ◌∷◌, [], ℕ, suc, true, List, Some, IfOk, OnOk, length, map, replicate};
ghost use Rattle.std.specs.List.{All};
ghost use Rattle.std.specs.HashMap.{get_by};
ghost use Rattle.std.specs.Str.{bytes_eq};
ghost use Rattle.f66_tree.specs.Syntax.{Routine};
ghost use Rattle.f66_tree.specs.Views.{routine_of};
ghost use Rattle.f66_program.specs.Linking.{unit_names_block};
ghost use Rattle.storage_assoc.specs.Listings.{IsListing, has_name, is_found, number_of_name};
ghost use Rattle.storage_assoc.specs.Naming.{IsReady};
ghost use Rattle.program_storage.specs.Parts.{ArePart};

use crate::program_rows::ProgramRows;
use crate::unit_links::add_unit_links;
use crate::unit_rows::UnitRows;
use crate::whole::add_rows;
use f66_tree::Unit;
use std::alloc::{AllocError, Global};
use std::collections::HashMap;
use storage_assoc::{Listing, table_of};

/// The rows and links of units that are ready, of whose blocks these are the labels.
pub(crate) fn rows_of<'a>(
    alloc: Global,
    labels: &Listing<'_>,
    units: &'a [Unit],
) -> Result<ProgramRows<'a>, AllocError>
    requires ready { All (λ u. IsReady (routine_of u)) units.now }
    requires listing { IsListing 1 labels.now }
    requires named { All (λ u. (q : List ℕ) → unit_names_block (Some q) (routine_of u) ≡ true → has_name labels.now q ≡ true) units.now }
    ensures few { IfOk result (λ p. length p.sizes.items < 2 ^ 31) }
    ensures part { IfOk result (λ p. ArePart (map routine_of units.now) (number_of_name labels.now) (suc (length labels.now.names.items)) p) }
{
    let mut all = block_rows(alloc, labels)?;
    for unit in units {
        add_unit(alloc, &labels.numbers, &mut all, unit)?;
    }
    Ok(all)
}

/// Adds the rows and links of a unit that is ready, of which each block has a number.
fn add_unit<'a>(
    alloc: Global,
    blocks: &HashMap<&[u8], usize>,
    all: &mut ProgramRows<'a>,
    unit: &'a Unit,
) -> Result<(), AllocError>
    requires ready { IsReady (routine_of unit.now) }
    requires named { (q : List ℕ) → unit_names_block (Some q) (routine_of unit.now) ≡ true → is_found (get_by (λ k. bytes_eq q k.now) blocks.now) ≡ true }
    requires few { length all.old.sizes.items < 2 ^ 31 }
    ensures few { OnOk result (length all.new.sizes.items < 2 ^ 31) }
    ensures added { OnOk result ((rs : List Routine) (count : ℕ) → ArePart rs (λ q. get_by (λ k. bytes_eq q k.now) blocks.now) count all.old →
        ArePart (rs ++ routine_of unit.now ∷ []) (λ q. get_by (λ k. bytes_eq q k.now) blocks.now) count all.new) }
{
    let table = table_of(alloc, unit)?;
    let whole = add_rows(alloc, blocks, &mut all.sizes, &table)?;
    add_unit_links(alloc, &mut all.links, &whole, &table, unit)?;
    all.units.push(UnitRows {
        rows: table.rows,
        whole,
    })?;
    Ok(())
}

/// No places for so many blocks.
fn no_places(alloc: Global, blocks: usize) -> Result<Vec<usize>, AllocError>
    ensures { IfOk result (λ v. v.items ≡ replicate blocks 0) }
{
    let mut sizes = Vec::new(alloc);
    for _block in 0..blocks {
        sizes.push(0)?;
    }
    Ok(sizes)
}

/// The rows of the blocks of a program alone.
fn block_rows<'a>(alloc: Global, labels: &Listing<'_>) -> Result<ProgramRows<'a>, AllocError>
    requires { IsListing 1 labels.now }
    ensures few { IfOk result (λ p. length p.sizes.items < 2 ^ 31) }
    ensures part { IfOk result (λ p. ArePart [] (number_of_name labels.now) (suc (length labels.now.names.items)) p) }
{
    if labels.names.len() >= 1 << 30 {
        return Err(AllocError);
    }
    let sizes = no_places(alloc, labels.names.len() + 1)?;
    Ok(ProgramRows {
        units: Vec::new(alloc),
        sizes,
        links: Vec::new(alloc),
    })
}
