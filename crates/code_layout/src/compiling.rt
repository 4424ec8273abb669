// The stack code of a linked program.
ghost use Rattle.std.specs.Prelude.{◌≡◌, ◌<◌, IfOk, length, map};
ghost use Rattle.code_emit.specs.Names.{preset_in};
ghost use Rattle.code_layout.specs.Compiled.{IsCompiled, IsSoundProgram};
ghost use Rattle.code_layout.specs.Placing.{AreOrdered, IsCoded, IsLaidByRanks};
ghost use Rattle.code_layout.specs.Ranked.{initial_of};
ghost use Rattle.code_layout.specs.Tabled.{layout_in};

use crate::checking::checked;
use crate::linked_unit::LinkedUnit;
use crate::order::order_of;
use crate::ordered::{storage_size, units_by};
use crate::placing::placed;
use crate::program_tables::ProgramTables;
use crate::spread::Spread;
use crate::tabling::tables_of_program;
use code_emit::{PlannedCode, code_program};
use ground::Memory;
use stack_code::Code;
use std::alloc::{AllocError, Global};
use whole_program::Linked;

/// The units of a program in the order of their code.
fn units_of<'a>(
    alloc: Global,
    tables: &'a ProgramTables<'a>,
    spread: &'a Spread,
) -> Result<Vec<LinkedUnit<'a>>, AllocError>
    requires main { tables.now.linked.now.main < length tables.now.units.items }
    ensures { IfOk result (λ v. AreOrdered tables.now spread.now v.items) }
{
    let order = order_of(alloc, tables.linked.main, tables.units.len())?;
    units_by(alloc, tables, spread, &order)
}

/// The code of the units in their order, and how many storage units it needs.
fn coded(
    alloc: Global,
    tables: &ProgramTables<'_>,
    spread: &Spread,
) -> Result<(PlannedCode, u32), Memory>
    requires sound { IsSoundProgram tables.now.linked.now }
    requires placed { IsLaidByRanks tables.now spread.now }
    ensures { IfOk result (λ made. IsCoded tables.now.linked.now (layout_in tables.now spread.now) made.0 made.1) }
{
    let units = units_of(alloc, &*tables, &*spread)?;
    let size = storage_size(&units)?;
    let made = code_program(alloc, &units)?;
    Ok((made, size))
}

/// The code of a program with these tables.
fn compiled(alloc: Global, tables: &ProgramTables<'_>) -> Result<Code, Memory>
    requires sound { IsSoundProgram tables.now.linked.now }
    requires presets { map preset_in tables.now.presets.items ≡ initial_of tables.now.linked.now }
    ensures { IfOk result (λ code. IsCompiled tables.now.linked.now code) }
{
    let spread = placed(alloc, tables)?;
    let (made, size) = coded(alloc, &*tables, &spread)?;
    checked(alloc, made, size)
}

/// The stack code of a linked program. Code that a store has no room for, and sums past 32 bits, count as out of memory.
pub fn compile(alloc: Global, linked: &Linked<'_>) -> Result<Code, Memory>
    requires { IsSoundProgram linked.now }
    ensures { IfOk result (λ code. IsCompiled linked.now code) }
{
    let tables = tables_of_program(alloc, &*linked)?;
    compiled(alloc, &tables)
}
