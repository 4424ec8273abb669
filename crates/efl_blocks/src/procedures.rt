// The procedures of a program: their outer blocks, what calls see of them, and what names mean in their parts.
ghost use Rattle.std.specs.Prelude.{◌≡◌, map, Some, IfOk, OnOk};
ghost use Rattle.efl_tree.specs.Views.{type_of, type_if_any, procedure_of};
ghost use Rattle.efl_types.specs.Signatures.{Names as NamesSeen, result_of as result_seen};
ghost use Rattle.efl_scoped.specs.Seen.{table_of};
ghost use Rattle.efl_names.specs.NameViews.{result_of, Stands};
ghost use Rattle.efl_blocks.specs.ProcedureViews.{TakesFormals, Signs, AddsUnit, OpensProcedures, AreNamed};

use crate::{Outer, Types, open_outer};
use efl_expressions::{Block, Blocks, DataType, nothing, variable_type};
use efl_names::{Letters, Names, Outcome, Signature, Units};
use efl_tree::{EflName, EflProcedure, EflType};
use ground::Kind;
use std::alloc::{AllocError, Global};

/// The procedures of a program: their outer blocks in their order, and what calls see of those that have a name.
#[derive(Drop)]
pub struct Procedures<'a> {
    pub outers: Vec<Outer<'a>>,
    pub units: Units<'a>,
}

/// The procedures of a program, each before its first declaration.
pub fn open_procedures<'a>(
    alloc: Global,
    list: &'a [EflProcedure],
    types: &mut Types<'a>,
) -> Result<Procedures<'a>, AllocError>
    ensures { IfOk result (λ p. OpensProcedures types.old (map procedure_of list.now) types.new p) }
{
    let mut outers = Vec::new(alloc);
    let mut units = Units::new(alloc);
    for procedure in list {
        let outer = open_outer(alloc, procedure, types)?;
        add_unit(alloc, procedure, &outer, &mut units)?;
        outers.push(outer)?;
    }
    Ok(Procedures { outers, units })
}

/// A procedure comes, where it has a name and none of its name is there.
fn add_unit<'a>(
    alloc: Global,
    procedure: &'a EflProcedure,
    outer: &Outer<'a>,
    units: &mut Units<'a>,
) -> Result<(), AllocError>
    ensures { OnOk result (AddsUnit (procedure_of procedure.now) outer.now units.old units.new) }
{
    match &procedure.name {
        None => Ok(()),
        Some(name) => {
            let made = signature(alloc, procedure, &*outer)?;
            units.add(name.as_bytes(), made)
        }
    }
}

/// What a call sees of a procedure.
fn signature<'a>(
    alloc: Global,
    procedure: &'a EflProcedure,
    outer: &Outer<'a>,
) -> Result<Signature<'a>, AllocError>
    ensures { IfOk result (λ s. Signs (procedure_of procedure.now) outer.now s) }
{
    let formals = formal_types(alloc, &procedure.formals, &outer.block)?;
    let outcome = outcome_of(&procedure.result);
    Ok(Signature { formals, outcome })
}

fn formal_types<'a>(
    alloc: Global,
    formals: &[EflName],
    block: &Block<'a>,
) -> Result<Vec<DataType<'a>>, AllocError>
    ensures { IfOk result (λ all. TakesFormals block.now formals.now all.items) }
{
    let mut all = Vec::new(alloc);
    let blocks = Blocks::Inside(block, &Blocks::Outside);
    let none = nothing();
    for formal in formals {
        let kind = variable_type(&blocks, formal.as_bytes(), &none);
        all.push(kind)?;
    }
    Ok(all)
}

/// What a procedure of this type gives.
pub fn outcome_of(kind: &Option<EflType>) -> Outcome
    ensures { result_seen (type_if_any kind.now) ≡ result_of result }
{
    match kind {
        None => Outcome::Nothing,
        Some(kind) => outcome_by(kind),
    }
}

fn outcome_by(kind: &EflType) -> Outcome
    ensures { result_seen (Some (type_of kind.now)) ≡ result_of result }
{
    match kind {
        EflType::Integer => Outcome::Gives(Kind::Integer),
        EflType::Logical => Outcome::Gives(Kind::Logical),
        EflType::Real(_) | EflType::Complex(_) | EflType::Named(_) | EflType::Shape(_, _) =>
            Outcome::Unknown,
    }
}

/// The names of a part within these blocks, of a procedure that gives this.
pub fn names_within<'c, 'a>(
    types: &'c Types<'a>,
    blocks: &'c Blocks<'c, 'a>,
    letters: &'c Letters<'a>,
    units: &'c Units<'a>,
    outcome: Outcome,
) -> Names<'c, 'a>
    ensures { (n : NamesSeen) → AreNamed types.now n blocks.now letters.now units.now outcome → Stands (table_of types.now.numbers) n result }
{
    Names {
        structures: &types.structures,
        blocks,
        letters,
        units,
        outcome,
    }
}
