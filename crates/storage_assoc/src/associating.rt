// Which places of a unit's names are one storage unit.
ghost use Rattle.std.specs.Prelude.{◌≡◌, ◌<◌, ◌≤◌, ◌-◌, ◌^◌, ℕ, length, map, take, slice_index, Some, option_map, IfOk, IfErr};
ghost use Rattle.std.specs.List.{All, slice_get};
ghost use Rattle.std.specs.HashMap.{get_by};
ghost use Rattle.std.specs.Str.{bytes_eq};
ghost use Rattle.ground.specs.declared.fault.FaultKind.TheVariants.{BadEquivalence as IsBadEquivalence, Limit as IsLimit};
ghost use Rattle.f66_tree.specs.Views.{line_of, par_of, routine_of};
ghost use Rattle.f66_program.specs.Linking.{first_of, place_of_part};
ghost use Rattle.offset_classes.specs.Links.{IsBad, IsWithin, IsFirstBad};
ghost use Rattle.storage_assoc.specs.Associating.{IsAssociated, IsRightRefusal};
ghost use Rattle.storage_assoc.specs.Naming.{IsReady};
ghost use Rattle.storage_assoc.specs.PlaceNumbers.{number_at};
ghost use Rattle.storage_assoc.specs.Tables.{IsTableOf};

use crate::association::Association;
use crate::table::{Table, table_of};
use crate::units::number_units;
use crate::walk::unit_links;
use f66_tree::{Stmt, Unit};
use ground::{Fault, FaultKind, Refusal};
use offset_classes::{Link, first_bad_step};
use std::alloc::{AllocError, Global};

const MOST: usize = 2_000_000;

/// Which places of a unit's names are one storage unit (X3.9-1966, sections 7.2.1.3 and 7.2.1.4); or BadEquivalence at the first
/// statement up to which COMMON and EQUIVALENCE contradict each other, or Limit where there are more than 2,000,000 storage units.
pub fn associate<'a>(alloc: Global, unit: &'a Unit) -> Result<Association<'a>, Refusal>
    requires ready { IsReady (routine_of unit.now) }
    ensures associated { IfOk result (λ a. IsAssociated (routine_of unit.now) (number_at a) a.total) }
    ensures refused { IfErr result (IsRightRefusal (routine_of unit.now)) }
{
    let Ok(table) = table_of(alloc, unit) else {
        return Err(Refusal::Memory);
    };
    associate_by(alloc, unit, table)
}

/// The same by the table of the unit's names.
fn associate_by<'a>(
    alloc: Global,
    unit: &Unit,
    table: Table<'a>,
) -> Result<Association<'a>, Refusal>
    requires { IsTableOf (routine_of unit.now) (λ q. get_by (λ k. bytes_eq q k.now) table.rows) (λ q. get_by (λ k. bytes_eq q k.now) table.areas)
        (λ q. option_map (λ ps. map par_of ps.now) (get_by (λ k. bytes_eq q k.now) table.dims)) table.sizes.items table.count }
    ensures associated { IfOk result (λ a. IsAssociated (routine_of unit.now) (number_at a) a.total) }
    ensures refused { IfErr result (IsRightRefusal (routine_of unit.now)) }
{
    let Ok(walked) = unit_links(
        alloc,
        table.count,
        &table.rows,
        &table.areas,
        &table.dims,
        &table.sizes,
        &unit.statements,
    ) else {
        return Err(Refusal::Memory);
    };
    if walked.links.len() >= 1 << 60 {
        return Err(Refusal::Memory);
    }
    let Ok(found) = number_units(alloc, table.count, &walked.links, &table.sizes) else {
        return Err(Refusal::Memory);
    };
    let Some(numbers) = found else {
        let Ok(fault) = bad_fault(
            alloc,
            table.sizes.len(),
            table.count,
            &walked.links,
            &walked.counts,
            &unit.statements,
        ) else {
            return Err(Refusal::Memory);
        };
        return Err(Refusal::Fault(fault));
    };
    if numbers.total > MOST {
        return Err(Refusal::Fault(limit_fault(unit)));
    }
    Ok(Association {
        rows: table.rows,
        sizes: table.sizes,
        firsts: numbers.firsts,
        total: numbers.total,
    })
}

/// The fault of bad links, at the first statement up to which they are bad.
fn bad_fault(
    alloc: Global,
    nodes: usize,
    count: usize,
    links: &[Link],
    counts: &[usize],
    statements: &[Stmt],
) -> Result<Fault, AllocError>
    requires within { All (IsWithin nodes) links.now }
    requires few { length links.now < 2 ^ 61 }
    requires blocks { count ≤ nodes }
    requires counts { All (λ n. n ≤ length links.now) counts.now }
    requires rising { (i j : ℕ) → i ≤ j → j < length counts.now → slice_index counts.now i ≤ slice_index counts.now j }
    requires many { length counts.now ≡ length statements.now }
    requires some { 0 < length counts.now }
    requires bad { IsBad count (take (slice_index counts.now (length counts.now - 1)) links.now) }
    ensures kind { IfOk result (λ f. (f.kind ≡ IsBadEquivalence) × (f.number ≡ 0)) }
    ensures step { IfOk result (λ f. (step : ℕ) × IsFirstBad count links.now counts.now step × (option_map (λ s. s.place) (slice_get (map line_of statements.now) step) ≡ Some f.place)) }
{
    let step = first_bad_step(alloc, nodes, count, links, counts)?;
    Ok(Fault {
        kind: FaultKind::BadEquivalence,
        place: statements[step].place,
        number: 0,
    })
}

/// The fault of too many storage units.
pub fn limit_fault(unit: &Unit) -> Fault
    ensures kind { (result.kind ≡ IsLimit) × (result.number ≡ 8) }
    ensures place { place_of_part (routine_of unit.now) (first_of (routine_of unit.now)) ≡ Some result.place }
{
    let place = match unit.statements.first() {
        Some(statement) => statement.place,
        None => unit.place,
    };
    Fault {
        kind: FaultKind::Limit,
        place,
        number: 8,
    }
}
