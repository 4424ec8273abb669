// Of each unit of a linked program how many spare storage units it takes, and how long its code is.
ghost use Rattle.std.specs.Prelude.{◌≡◌, ◌<◌, ℕ, IfOk, length, slice_index_or};
ghost use Rattle.whole_program.specs.Linkage.{linkage_of};
ghost use Rattle.code_gen.specs.LayingOut.{most_room, need};
ghost use Rattle.code_gen.specs.Statements.{unit_size};
ghost use Rattle.code_layout.specs.Tabled.{layout_in, lines_in};

use crate::linked_unit::LinkedUnit;
use crate::program_tables::ProgramTables;
use crate::rooms::{most_room, need_of};
use crate::spread::Spread;
use code_emit::size_of;
use std::alloc::{AllocError, Global};

/// How many spare storage units the statements of each unit take.
pub(crate) fn rooms_of<'a>(
    alloc: Global,
    tables: &'a ProgramTables<'a>,
    spread: &'a Spread,
) -> Result<Vec<u32>, AllocError>
    ensures many { IfOk result (λ v. length v.items ≡ length tables.now.units.items) }
    ensures each { IfOk result (λ v. (u d : ℕ) → u < length tables.now.units.items → slice_index_or v.items u d ≡ most_room ((linkage_of tables.now.linked.now).context u) (lines_in tables.now.linked.now u)) }
{
    let mut rooms = Vec::new(alloc);
    for number in 0..tables.units.len() {
        let unit = LinkedUnit {
            tables,
            spread,
            number,
        };
        let room = most_room(&unit)?;
        rooms.push(room)?;
    }
    Ok(rooms)
}

/// How many storage units each unit takes besides those of its names.
pub(crate) fn needs_of<'a>(
    alloc: Global,
    tables: &'a ProgramTables<'a>,
    spread: &'a Spread,
) -> Result<Vec<u32>, AllocError>
    ensures many { IfOk result (λ v. length v.items ≡ length tables.now.units.items) }
    ensures each { IfOk result (λ v. (u d : ℕ) → u < length tables.now.units.items → slice_index_or v.items u d ≡ need (linkage_of tables.now.linked.now) (lines_in tables.now.linked.now) u) }
{
    let mut needs = Vec::new(alloc);
    for number in 0..tables.units.len() {
        let unit = LinkedUnit {
            tables,
            spread,
            number,
        };
        let need = need_of(&unit)?;
        needs.push(need)?;
    }
    Ok(needs)
}

/// How long the code of each unit is.
pub(crate) fn sizes_of<'a>(
    alloc: Global,
    tables: &'a ProgramTables<'a>,
    spread: &'a Spread,
) -> Result<Vec<u32>, AllocError>
    ensures many { IfOk result (λ v. length v.items ≡ length tables.now.units.items) }
    ensures each { IfOk result (λ v. (u d : ℕ) → u < length tables.now.units.items → slice_index_or v.items u d ≡ unit_size (layout_in tables.now spread.now) u) }
{
    let mut sizes = Vec::new(alloc);
    for number in 0..tables.units.len() {
        let unit = LinkedUnit {
            tables,
            spread,
            number,
        };
        let size = size_of(alloc, &unit)?;
        sizes.push(size)?;
    }
    Ok(sizes)
}
