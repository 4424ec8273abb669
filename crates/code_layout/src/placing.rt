// Where the units of a linked program keep what they keep, and where their code stands, by ranks that fall along each call.
ghost use Rattle.std.specs.Prelude.{◌≡◌, ◌<◌, ℕ, [], IfOk, OnOk, length, map, slice_index_or};
ghost use Rattle.call_ranks.specs.Ranks.{HaveRanks};
ghost use Rattle.linker.specs.CallViews.{AreCalls, units_in};
ghost use Rattle.code_emit.specs.Names.{preset_in};
ghost use Rattle.code_layout.specs.Placing.{IsLaidByRanks};
ghost use Rattle.code_layout.specs.Ranked.{bound_of, initial_of};
ghost use Rattle.code_layout.specs.Spreading.{AreKept, IsSpread};

use crate::calls::ranks_of;
use crate::entering::enter;
use crate::keeping::kept_by;
use crate::measures::{needs_of, rooms_of, sizes_of};
use crate::program_tables::ProgramTables;
use crate::spread::Spread;
use std::alloc::{AllocError, Global};

/// No numbers.
fn no_spread(alloc: Global) -> Spread {
    Spread {
        bound: 0,
        spares: Vec::new(alloc),
        loops: Vec::new(alloc),
        starts: Vec::new(alloc),
        end: 0,
    }
}

/// Where units of these ranks keep what they keep.
fn kept_of(alloc: Global, tables: &ProgramTables<'_>, ranks: &[usize]) -> Result<Spread, AllocError>
    requires many { length ranks.now ≡ length tables.now.linked.now.calls.units.now }
    ensures starts { IfOk result (λ m. m.starts.items ≡ []) }
    ensures end { IfOk result (λ m. m.end ≡ 0) }
    ensures kept { IfOk result (λ m. AreKept tables.now.linked.now (λ u. slice_index_or ranks.now u 0) m) }
{
    let none = no_spread(alloc);
    let rooms = rooms_of(alloc, &*tables, &none)?;
    let needs = needs_of(alloc, &*tables, &none)?;
    kept_by(alloc, &*tables.linked, ranks, &rooms, &needs)
}

/// Gives the units their entries.
fn enter_all(
    alloc: Global,
    tables: &ProgramTables<'_>,
    spread: &mut Spread,
) -> Result<(), AllocError>
    requires presets { map preset_in tables.now.presets.items ≡ initial_of tables.now.linked.now }
    requires main { tables.now.linked.now.main < length tables.now.linked.now.calls.units.now }
    requires starts { spread.old.starts.items ≡ [] }
    requires end { spread.old.end ≡ 0 }
    ensures { OnOk result ((rank : ℕ → ℕ) → AreKept tables.now.linked.now rank spread.old → IsSpread tables.now.linked.now rank spread.new) }
{
    let sizes = sizes_of(alloc, &*tables, &*spread)?;
    enter(alloc, &*tables.linked, &sizes, spread)
}

/// The numbers of a program without recursion.
pub(crate) fn placed(alloc: Global, tables: &ProgramTables<'_>) -> Result<Spread, AllocError>
    requires calls { AreCalls tables.now.linked.now.calls }
    requires ranked { HaveRanks (units_in tables.now.linked.now.calls) }
    requires presets { map preset_in tables.now.presets.items ≡ initial_of tables.now.linked.now }
    requires main { tables.now.linked.now.main < length tables.now.linked.now.calls.units.now }
    ensures { IfOk result (λ m. IsLaidByRanks tables.now m) }
{
    let ranks = ranks_of(alloc, &tables.linked.calls)?;
    let mut spread = kept_of(alloc, tables, &ranks)?;
    enter_all(alloc, tables, &mut spread)?;
    Ok(spread)
}
