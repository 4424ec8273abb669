// Types in memory, as texts give them.
ghost use Rattle.std.specs.Prelude.{◌≡◌, IfOk};
ghost use Rattle.efl_tree.specs.Views.{type_of, groups_of, vars_of};
ghost use Rattle.efl_scope.specs.DataTypes.{Scalar};
ghost use Rattle.efl_blocks.specs.declared.types.Types as collections;
ghost use Rattle.efl_blocks.specs.Within.{IsIn};
ghost use Rattle.efl_blocks.specs.Made.{MakesType, MakesStructure, TakesBounds, TakesMembers, AddsMembers, AddsStructure};

use crate::{know_if_any, named};
use efl_expressions::{Block, Blocks, DataType, Element, Member, Structure, Structures, nothing};
use efl_scoped::{Pairs, Summary, bounded, integer, logical, with_members};
use efl_tree::{EflBound, EflGroup, EflType, EflVar};
use ground::Kind;
use std::alloc::{AllocError, Global};

/// The number from which those of structures go on.
const BEGINNING: usize = 2;

/// The types of a program: its structures, and numbers that equal types share.
#[derive(Drop)]
pub struct Types<'a> {
    pub structures: Structures<'a>,
    pub numbers: Pairs,
}

/// The type that a text gives in a block and those around it, of which structures become known.
#[cycle(make_type)]
pub fn make_type<'a>(
    alloc: Global,
    kind: &'a EflType,
    beyond: &Blocks<'_, 'a>,
    block: &mut Block<'a>,
    types: &mut Types<'a>,
) -> Result<DataType<'a>, AllocError>
    ensures { IfOk result (λ d. MakesType types.old block.old beyond.now (type_of kind.now) types.new block.new d) }
{
    match kind {
        EflType::Integer => Ok(integers()),
        EflType::Logical => Ok(truths()),
        EflType::Real(_) | EflType::Complex(_) => Ok(nothing()),
        EflType::Named(name) => Ok(named(name.as_bytes(), &*block, &*beyond)),
        EflType::Shape(name, groups) => {
            let made = make_structure(alloc, groups, &*beyond, block, types)?;
            know_if_any(name, made, block)?;
            Ok(made)
        }
    }
}

/// The structure that has these members.
#[cycle(make_type)]
pub fn make_structure<'a>(
    alloc: Global,
    groups: &'a [EflGroup],
    beyond: &Blocks<'_, 'a>,
    block: &mut Block<'a>,
    types: &mut Types<'a>,
) -> Result<DataType<'a>, AllocError>
    ensures { IfOk result (λ d. MakesStructure types.old block.old beyond.now (groups_of groups.now) types.new block.new d) }
{
    let mut so_far = Summary {
        number: BEGINNING,
        sound: true,
        places: 0,
    };
    let mut members = Vec::new(alloc);
    for group in groups {
        let kind = make_type(alloc, &group.kind, &*beyond, block, types)?;
        so_far = take_members(so_far, kind, &group.variables, types, &mut members)?;
    }
    add_structure(so_far, members, types)
}

/// The type of integers.
fn integers<'a>() -> DataType<'a>
    ensures { (y : collections.Types) → IsIn y (Scalar Kind.Integer) result }
{
    DataType {
        element: Element::Scalar(Kind::Integer),
        bounds: &[],
        summary: integer(),
    }
}

/// The type of logical values.
fn truths<'a>() -> DataType<'a>
    ensures { (y : collections.Types) → IsIn y (Scalar Kind.Logical) result }
{
    DataType {
        element: Element::Scalar(Kind::Logical),
        bounds: &[],
        summary: logical(),
    }
}

/// The type of a variable or member with these bounds.
pub fn with_bounds<'a>(
    kind: DataType<'a>,
    bounds: &'a [EflBound],
    types: &mut Types<'a>,
) -> Result<DataType<'a>, AllocError>
    ensures { IfOk result (λ d. TakesBounds types.old kind.entry bounds.now types.new d) }
{
    if bounds.is_empty() {
        return Ok(kind);
    }
    let summary = bounded(kind.summary, bounds, &mut types.numbers)?;
    Ok(DataType {
        element: kind.element,
        bounds,
        summary,
    })
}

/// Members of one type come, with what is told of those so far.
pub fn take_members<'a>(
    before: Summary,
    kind: DataType<'a>,
    list: &'a [EflVar],
    types: &mut Types<'a>,
    members: &mut Vec<Member<'a>>,
) -> Result<Summary, AllocError>
    ensures { IfOk result (λ s. TakesMembers types.old before kind.entry (vars_of list.now) members.old.items types.new s members.new.items) }
{
    let after = with_members(before, kind.summary, list, &mut types.numbers)?;
    add_members(kind, list, types, members)?;
    Ok(after)
}

fn add_members<'a>(
    kind: DataType<'a>,
    list: &'a [EflVar],
    types: &mut Types<'a>,
    members: &mut Vec<Member<'a>>,
) -> Result<(), AllocError>
    ensures { IfOk result (λ u. AddsMembers types.old kind.entry (vars_of list.now) members.old.items types.new members.new.items) }
{
    for variable in list {
        let own = with_bounds(kind, &variable.bounds, types)?;
        members.push(Member {
            name: variable.name.as_bytes(),
            kind: own,
        })?;
    }
    Ok(())
}

/// A structure of these members comes.
pub fn add_structure<'a>(
    summary: Summary,
    members: Vec<Member<'a>>,
    types: &mut Types<'a>,
) -> Result<DataType<'a>, AllocError>
    ensures { IfOk result (λ d. AddsStructure types.old summary members.entry.items types.new d) }
{
    let number = types.structures.list.len();
    types.structures.list.push(Structure { summary, members })?;
    Ok(DataType {
        element: Element::Structured(number),
        bounds: &[],
        summary,
    })
}
