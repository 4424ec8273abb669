// The code of the units of a program, one behind the other.
ghost use Rattle.std.specs.Prelude.{◌≡◌, ◌+◌, ◌++◌, ℕ, All, IfOk, OnOk, length, map};
ghost use Rattle.stack_code.specs.Views.{code_of};
ghost use Rattle.code_gen.specs.Layout.{Layout};
ghost use Rattle.code_gen.specs.Statements.{unit_code, unit_size, units_code};
ghost use Rattle.code_emit.specs.Plans.{formats_count, plan_in};
ghost use Rattle.code_emit.specs.Units.{AllEntered, AllPlanned};

use crate::body::put_body;
use crate::coded_unit::{CodedUnit, NamedUnit};
use crate::counting::place_of;
use crate::labels::labels_of;
use crate::placed_unit::PlacedUnit;
use crate::places::places_of;
use crate::prologue::put_prologue;
use stack_code::Op;
use std::alloc::{AllocError, Global};

/// Puts the code of a unit where its entry is.
pub fn put_unit<U: CodedUnit>(alloc: Global, unit: &U, ops: &mut Vec<Op>) -> Result<(), AllocError>
    requires { length ops.old.items ≡ (U.layout unit.now).entry (U.number unit.now) }
    ensures { OnOk result (code_of ops.new.items ≡ code_of ops.old.items ++ unit_code (U.layout unit.now) (U.number unit.now)) }
{
    put_prologue(unit, ops)?;
    put_body(alloc, unit, ops)
}

/// Puts the code of a unit whose first format has this number; the number behind that of its last format.
fn put_named<N: NamedUnit>(
    alloc: Global,
    named: &N,
    ops: &mut Vec<Op>,
    plan: u32,
) -> Result<u32, AllocError>
    requires entered { (N.layout named.now).entry (N.number named.now) ≡ length ops.old.items }
    requires planned { (l : ℕ) → (N.layout named.now).plan (N.number named.now) l ≡ plan_in plan ((N.layout named.now).lines (N.number named.now)) l }
    ensures code { OnOk result (code_of ops.new.items ≡ code_of ops.old.items ++ unit_code (N.layout named.now) (N.number named.now)) }
    ensures plans { IfOk result (λ n. n ≡ plan + formats_count ((N.layout named.now).lines (N.number named.now))) }
{
    let entry = place_of(ops)?;
    let unit = PlacedUnit::new(alloc, named, entry, plan)?;
    put_unit(alloc, &unit, ops)?;
    Ok(unit.plans.end)
}

/// The code of units that stand one behind the other, as do the plans of their formats.
pub fn program_code<N: NamedUnit>(alloc: Global, units: &[N]) -> Result<Vec<Op>, AllocError>
    requires entered { AllEntered N.layout N.number 0 units.now }
    requires planned { AllPlanned N.layout N.number 0 units.now }
    ensures { IfOk result (λ ops. (y : Layout) → All (λ v. N.layout v ≡ y) units.now → code_of ops.items ≡ units_code y (map N.number units.now)) }
{
    let mut ops = Vec::new(alloc);
    let mut plans = 0;
    for named in units {
        plans = put_named(alloc, named, &mut ops, plans)?;
    }
    Ok(ops)
}

/// How long the code of a unit is.
pub fn size_of<N: NamedUnit>(alloc: Global, named: &N) -> Result<u32, AllocError>
    ensures { IfOk result (λ n. n ≡ unit_size (N.layout named.now) (N.number named.now)) }
{
    let labels = labels_of(alloc, named.statements())?;
    let places = places_of(alloc, named, &labels)?;
    Ok(places.size)
}
