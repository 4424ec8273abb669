// The units of a linked program in the order of their code, and how many storage units they have.
ghost use Rattle.std.specs.Prelude.{◌≡◌, ◌<◌, ◌+◌, ◌^◌, All, IfOk, length, map};
ghost use Rattle.code_gen.specs.Coded.{top};
ghost use Rattle.code_gen.specs.Layout.{Layout};
ghost use Rattle.code_validity.specs.Valid.{storage_size};
ghost use Rattle.code_layout.specs.Tabled.{layout_in};

use crate::linked_unit::LinkedUnit;
use crate::program_tables::ProgramTables;
use crate::rooms::doubled;
use crate::spread::Spread;
use crate::sums::plus;
use code_emit::NamedUnit;
use std::alloc::{AllocError, Global};

/// The unit with this number.
fn unit_by<'a>(tables: &'a ProgramTables<'a>, spread: &'a Spread, number: usize) -> LinkedUnit<'a>
    requires { number < length tables.now.units.items }
    ensures number { result.number ≡ number }
    ensures layout { layout_in result.tables.now result.spread.now ≡ layout_in tables.now spread.now }
{
    LinkedUnit {
        tables,
        spread,
        number,
    }
}

/// The units with these numbers.
pub(crate) fn units_by<'a>(
    alloc: Global,
    tables: &'a ProgramTables<'a>,
    spread: &'a Spread,
    order: &[usize],
) -> Result<Vec<LinkedUnit<'a>>, AllocError>
    requires { All (λ u. u < length tables.now.units.items) order.now }
    ensures numbers { IfOk result (λ v. map (λ x. x.number) v.items ≡ order.now) }
    ensures one { IfOk result (λ v. All (λ x. layout_in x.tables.now x.spread.now ≡ layout_in tables.now spread.now) v.items) }
{
    let mut units = Vec::new(alloc);
    for number in order {
        let unit = unit_by(tables, spread, *number);
        units.push(unit)?;
    }
    Ok(units)
}

/// Past the storage units that a unit keeps something in.
fn top_of<U: NamedUnit>(unit: &U) -> Result<u32, AllocError>
    ensures { IfOk result (λ n. n ≡ top (U.layout unit.now) (U.number unit.now)) }
{
    let counts = doubled(unit.statements())?;
    plus(unit.loops(), counts)
}

/// How many storage units there are. As many as a run has no memory for are refused.
pub(crate) fn storage_size<U: NamedUnit>(units: &[U]) -> Result<u32, AllocError>
    ensures size { IfOk result (λ n. (y : Layout) → All (λ v. U.layout v ≡ y) units.now → n ≡ storage_size y (map U.number units.now)) }
    ensures few { IfOk result (λ n. n < 2 ^ 31) }
{
    let mut size = 0;
    for unit in units {
        let top = top_of(unit)?;
        if size < top {
            size = top;
        }
    }
    if size < 1 << 31 {
        Ok(size)
    } else {
        Err(AllocError)
    }
}
