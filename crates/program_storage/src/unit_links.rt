// The links of a unit, as links between the rows of its program.
ghost use Rattle.std.specs.Prelude.{◌≡◌, ◌++◌, ℕ, OnOk, length, map, option_map};
ghost use Rattle.std.specs.List.{All};
ghost use Rattle.std.specs.HashMap.{get_by};
ghost use Rattle.std.specs.Str.{bytes_eq};
ghost use Rattle.f66_tree.specs.Views.{line_of, par_of, routine_of};
ghost use Rattle.offset_classes.specs.Links.{IsWithin};
ghost use Rattle.storage_assoc.specs.Tables.{IsTableOf};
ghost use Rattle.program_storage.specs.Whole.{AreUnitLinks, relinked};

use f66_tree::Unit;
use offset_classes::Link;
use std::alloc::{AllocError, Global};
use storage_assoc::{Table, unit_links};

/// Adds the links that the statements of a unit give, of whose names this is the table, as links between the rows of its program.
pub(crate) fn add_unit_links(
    alloc: Global,
    links: &mut Vec<Link>,
    whole: &[usize],
    table: &Table<'_>,
    unit: &Unit,
) -> Result<(), AllocError>
    requires table { IsTableOf (routine_of unit.now) (λ q. get_by (λ k. bytes_eq q k.now) table.now.rows) (λ q. get_by (λ k. bytes_eq q k.now) table.now.areas)
        (λ q. option_map (λ ps. map par_of ps.now) (get_by (λ k. bytes_eq q k.now) table.now.dims)) table.now.sizes.items table.now.count }
    requires many { length whole.now ≡ length table.now.sizes.items }
    ensures { OnOk result (AreUnitLinks (λ q. get_by (λ k. bytes_eq q k.now) table.now.rows) (λ q. get_by (λ k. bytes_eq q k.now) table.now.areas)
        (λ q. option_map (λ ps. map par_of ps.now) (get_by (λ k. bytes_eq q k.now) table.now.dims)) table.now.sizes.items (map line_of unit.now.statements.items)
        whole.now links.old.items links.new.items) }
{
    let walked = unit_links(
        alloc,
        table.count,
        &table.rows,
        &table.areas,
        &table.dims,
        &table.sizes,
        &unit.statements,
    )?;
    add_links(links, whole, &walked.links)?;
    Ok(())
}

/// Adds links of a unit as links between the rows of its program.
fn add_links(links: &mut Vec<Link>, whole: &[usize], more: &[Link]) -> Result<(), AllocError>
    requires { All (IsWithin (length whole.now)) more.now }
    ensures { OnOk result (links.new.items ≡ links.old.items ++ map (relinked whole.now) more.now) }
{
    for link in more {
        links.push(Link {
            from: whole[link.from],
            to: whole[link.to],
            by: link.by,
        })?;
    }
    Ok(())
}
