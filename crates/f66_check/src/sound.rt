// The checks of a unit.
ghost use Rattle.std.specs.Prelude.{◌≡◌, ◌≤◌, ◌-◌, map, length, Some, IfOk, IfErr, OnOk, IfSome, MatchOption};
ghost use Rattle.f66_tree.specs.Views.{act_of, routine_of};
ghost use Rattle.f66_names.specs.ActViews.{acts_of};
ghost use Rattle.f66_check.specs.UnitChecks.{breaks_unit};
ghost use Rattle.f66_check.specs.Answers.{IsFaultless, IsSoundUnit, IsRightRefusal, place_at};
ghost use Rattle.rule_table.specs.First.{IsFirst};
ghost use Rattle.rule_table.specs.FaultRules.{rule_number, fault_of};

use crate::parts::first_broken;
use f66_flow::{Scope, flow_of};
use f66_names::Saying;
use f66_tree::{Stmt, Unit};
use ground::{Fault, Place, Refusal};
use rule_table::Rule;
use std::alloc::{AllocError, Global};
use std::marker::Model;
use unit_rules::unit_names_of;

/// What the statements say, in reading order.
fn sayings_of(alloc: Global, statements: &[Stmt]) -> Result<Vec<Saying>, AllocError>
    ensures { IfOk result (λ sayings. acts_of sayings.items ≡ map (λ s. act_of s.kind) statements.now) }
{
    let mut sayings = Vec::new(alloc);
    for statement in statements {
        sayings.push(Saying::Act(&statement.kind))?;
    }
    Ok(sayings)
}

/// The number of the first part of a unit that is at fault, and the rule that it breaks.
fn first_of(alloc: Global, scope: Scope, unit: &Unit) -> Result<Option<(usize, Rule)>, AllocError>
    ensures within { IfOk result (λ o. IfSome o (λ r. r.0 ≤ length unit.now.statements.items)) }
    ensures first { IfOk result (λ o. MatchOption o (IsFaultless scope (routine_of unit.now))
        (λ r. IsFirst rule_number (breaks_unit scope (routine_of unit.now)) r.0 r.1)) }
{
    let sayings = sayings_of(alloc, &unit.statements)?;
    let names = unit_names_of(alloc, &unit.header, &sayings)?;
    let flow = flow_of(alloc, &unit.statements)?;
    first_broken(alloc, scope, &flow, &names)
}

/// The place of the part with a number.
fn place_of(unit: &Unit, number: usize) -> Place
    requires { number ≤ length unit.now.statements.items }
    ensures { place_at (routine_of unit.now) number ≡ Some result }
{
    if number == 0 {
        return unit.place;
    }
    unit.statements[number - 1].place
}

/// The fault that a rule tells at the part with a number.
fn fault_at(unit: &Unit, number: usize, rule: Rule) -> Fault
    requires { number ≤ length unit.now.statements.items }
    ensures fault { result ≡ fault_of result.place rule }
    ensures place { place_at (routine_of unit.now) number ≡ Some result.place }
{
    rule.fault(place_of(unit, number))
}

/// A unit in which nothing is at fault, of any kind. Contracts see it as the unit that it was made of.
#[derive(Drop)]
pub struct SoundUnit {
    unit: Unit,
}

impl Model for SoundUnit {
    ghost use Rattle.f66_tree.specs.declared.unit.Unit.{Unit};
    ghost use Rattle.f66_tree.specs.Views.{routine_of};
    ghost use Rattle.f66_check.specs.Answers.{IsSoundUnit};
    ghost use Rattle.f66_tree.specs.contracts.unit.Unit as unit_type;

    ghost Value = { Unit };

    ghost coded = { unit_type.the_row.coded };

    ghost view = { λ c. c.unit };

    ghost invariant = { λ c. IsSoundUnit (routine_of c.unit) };
}

impl SoundUnit {
    /// The unit, which is sound (X3.9-1966, sections 3 to 9).
    pub fn unit(&self) -> &Unit
        ensures unit { result.now ≡ self.now }
        ensures sound { IsSoundUnit (routine_of self.now) }
    {
        &self.unit
    }

    /// The unit itself.
    pub fn into_unit(self) -> Unit
        ensures unit { result ≡ self }
        ensures sound { IsSoundUnit (routine_of self) }
    {
        self.unit
    }
}

/// The unit, exactly where it is sound (X3.9-1966, sections 3 to 9); else exactly its first fault.
pub fn check_unit(alloc: Global, unit: Unit) -> Result<SoundUnit, Refusal>
    ensures accepted { IfOk result (λ c. c ≡ unit) }
    ensures sound { OnOk result (IsSoundUnit (routine_of unit)) }
    ensures refused { IfErr result (IsRightRefusal (routine_of unit)) }
{
    let Ok(first) = first_of(alloc, Scope::Whole, &unit) else {
        return Err(Refusal::Memory);
    };
    match first {
        Some((number, rule)) => Err(Refusal::Fault(fault_at(&unit, number, rule))),
        None => Ok(SoundUnit { unit }),
    }
}
