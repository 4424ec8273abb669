// The tables of a linked program.
ghost use Rattle.std.specs.Prelude.{◌≡◌, IfOk, map};
ghost use Rattle.linker.specs.CallViews.{units_in};
ghost use Rattle.whole_program.specs.Linked.{IsLinked};
ghost use Rattle.code_emit.specs.Names.{preset_in};
ghost use Rattle.code_layout.specs.Ranked.{initial_of};

use crate::presets::presets_of;
use crate::program_tables::ProgramTables;
use crate::unit_tables::{UnitTables, tables_of};
use f66_tree::Unit;
use std::alloc::{AllocError, Global};
use whole_program::Linked;

/// The tables of a linked program. One of 2^32 storage units and more, which no whole program has, counts as out of memory.
pub fn tables_of_program<'a>(
    alloc: Global,
    linked: &'a Linked<'a>,
) -> Result<ProgramTables<'a>, AllocError>
    requires { IsLinked (units_in linked.now.calls) linked.now }
    ensures linked { IfOk result (λ t. t.linked.now ≡ linked.now) }
    ensures presets { IfOk result (λ t. map preset_in t.presets.items ≡ initial_of linked.now) }
{
    if linked.total() >= 1 << 32 {
        return Err(AllocError);
    }
    let all = linked.units();
    let units = units_of(alloc, all)?;
    let presets = presets_of(alloc, linked)?;
    Ok(ProgramTables {
        linked,
        units,
        presets,
    })
}

fn units_of<'a>(alloc: Global, all: &'a [Unit]) -> Result<Vec<UnitTables<'a>>, AllocError>
    ensures { IfOk result (λ v. map (λ t. t.unit.now) v.items ≡ all.now) }
{
    let mut units = Vec::new(alloc);
    for unit in all {
        let tables = tables_of(alloc, unit)?;
        units.push(tables)?;
    }
    Ok(units)
}
