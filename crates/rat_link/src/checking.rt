// A whole program.
ghost use Rattle.std.specs.Prelude.{◌≡◌, None, map, OnOk, IfOk, IfErr};
ghost use Rattle.f66_tree.specs.Views.{routine_of};
ghost use Rattle.f66_program.specs.Association.{IsBadUnit};
ghost use Rattle.rat_tree.specs.Views.{commands, program_of, rat_routine_of};
ghost use Rattle.rat_check.specs.FirstFault.{unit_fault};
ghost use Rattle.rat_check.specs.Parts.{unit_parts};
ghost use Rattle.rat_check.specs.PartViews.{parts_seen};
ghost use Rattle.spared_units.specs.Spared.{Spared};
ghost use Rattle.rat_link.specs.Briefs.{AreBriefs};
ghost use Rattle.rat_link.specs.Linking.{AreClean, IsAccepted, IsClean, IsFirstFaultOf, IsFirstUnitFault, IsRefusalBy, IsUnitFault};
ghost use Rattle.rat_said.specs.Said.{said_routine};

use crate::association::check_association;
use crate::limit::MOST;
use crate::linking::{link_said, linked_storage};
use f66_tree::Unit;
use ground::{List, Refusal};
use rat_check::{Part, check_with, parts_of};
use rat_said::{brief_unit, said_unit};
use rat_tree::{RatProgram, RatUnit};
use std::alloc::{AllocError, Global};

/// Whether a program is one of Ratfor, whose units link; else its first fault, told by the source: unit by unit what `rat_check` finds and
/// behind it BadEquivalence, then Limit, then the rules of linking.
pub fn check_program(alloc: Global, program: &RatProgram) -> Result<(), Refusal>
    ensures accepted { OnOk result (IsAccepted (program_of program.now)) }
    ensures refused { IfErr result (IsRefusalBy (IsFirstFaultOf (program_of program.now))) }
{
    let briefs = match check_units(alloc, &program.units) {
        Ok(briefs) => briefs,
        Err(refusal) => return Err(refusal),
    };
    // Most programs link and have few storage units, and what their units say in brief is enough to see it.
    match linked_storage(alloc, &briefs, program.finish) {
        Ok(total) if total <= MOST => Ok(()),
        _ => link_units(alloc, program),
    }
}

/// Whether the units of a program link, told by all that they say; else the fault, at its place.
fn link_units(alloc: Global, program: &RatProgram) -> Result<(), Refusal>
    requires clean { AreClean (program_of program.now).routines }
    ensures accepted { OnOk result (IsAccepted (program_of program.now)) }
    ensures refused { IfErr result (IsRefusalBy (IsFirstFaultOf (program_of program.now))) }
{
    let said = said_units(alloc, &program.units)?;
    match link_said(alloc, &said, program.finish) {
        Ok(()) => Ok(()),
        Err(refusal) => Err(refusal),
    }
}

/// What the units say.
fn said_units(alloc: Global, units: &[RatUnit]) -> Result<List<Unit>, AllocError>
    ensures { IfOk result (λ said. map routine_of said.items ≡ map said_routine (map rat_routine_of units.now)) }
{
    let mut said = Vec::new(alloc);
    for unit in units {
        let parts = parts_of(alloc, &unit.body)?;
        said.push(said_unit(alloc, unit, &parts)?)?;
    }
    Ok(said)
}

/// What the units say in brief, or the fault of the first that has one.
fn check_units(alloc: Global, units: &[RatUnit]) -> Result<List<Unit>, Refusal>
    ensures briefs { IfOk result (λ briefs. AreBriefs (map said_routine (map rat_routine_of units.now)) (map routine_of briefs.items)) }
    ensures clean { OnOk result (AreClean (map rat_routine_of units.now)) }
    ensures refused { IfErr result (IsRefusalBy (IsFirstUnitFault (map rat_routine_of units.now))) }
{
    let mut briefs = Vec::new(alloc);
    for unit in units {
        let one = match check_one(alloc, unit) {
            Ok(one) => one,
            Err(refusal) => return Err(refusal),
        };
        let Ok(()) = briefs.push(one) else {
            return Err(Refusal::Memory);
        };
    }
    Ok(briefs)
}

/// What a unit says in brief, or its fault.
fn check_one(alloc: Global, unit: &RatUnit) -> Result<Unit, Refusal>
    ensures brief { IfOk result (λ brief. Spared None (said_routine (rat_routine_of unit.now)) (routine_of brief)) }
    ensures clean { OnOk result (IsClean (rat_routine_of unit.now)) }
    ensures refused { IfErr result (IsRefusalBy (IsUnitFault (rat_routine_of unit.now))) }
{
    let parts = parts_of(alloc, &unit.body)?;
    let _labels = check_with(alloc, unit, &parts)?;
    let brief = brief_unit(alloc, unit, &parts)?;
    match check_association(alloc, &brief) {
        Ok(()) => Ok(brief),
        Err(_) => {
            check_said(alloc, unit, &parts)?;
            Ok(brief)
        }
    }
}

/// Refuses a unit of these parts with a bad association, at the statement up to which it is bad.
fn check_said<'a>(alloc: Global, unit: &'a RatUnit, parts: &[Part<'a>]) -> Result<(), Refusal>
    requires parts { parts_seen parts.now ≡ unit_parts (commands unit.now.body.items) }
    requires clean { unit_fault (rat_routine_of unit.now) ≡ None }
    ensures well { OnOk result (¬ IsBadUnit (said_routine (rat_routine_of unit.now))) }
    ensures refused { IfErr result (IsRefusalBy (IsUnitFault (rat_routine_of unit.now))) }
{
    let said = said_unit(alloc, unit, parts)?;
    check_association(alloc, &said)?;
    Ok(())
}
