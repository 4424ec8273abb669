// Types in memory, with the first fault of the groups within them.
ghost use Rattle.std.specs.Prelude.{IfOk};
ghost use Rattle.efl_tree.specs.Views.{type_of, groups_of, vars_of};
ghost use Rattle.efl_declarations.specs.Sees.{SeesType, SeesStructure, SeesSizes, SeesList};

use efl_blocks::{Types, add_structure, know_if_any, make_type, take_members};
use efl_expressions::{Block, Blocks, DataType};
use efl_reading::fault_by;
use efl_scoped::Summary;
use efl_statements::variables_rule;
use efl_tree::{EflGroup, EflName, EflType, EflVar};
use ground::{Fault, Place};
use std::alloc::{AllocError, Global};

/// The number from which those of structures go on.
const BEGINNING: usize = 2;

/// A type, and the first fault of the groups within it.
#[derive(Clone, Copy, Drop)]
pub struct Seen<'a> {
    pub kind: DataType<'a>,
    pub fault: Option<Fault>,
}

/// The type that a text gives in a block and those around it, of which structures become known.
#[cycle(see_type)]
pub fn see_type<'a>(
    alloc: Global,
    kind: &'a EflType,
    beyond: &Blocks<'_, 'a>,
    block: &mut Block<'a>,
    types: &mut Types<'a>,
) -> Result<Seen<'a>, AllocError>
    ensures { IfOk result (λ s. SeesType types.old block.old beyond.now (type_of kind.now) types.new block.new s) }
{
    match kind {
        EflType::Shape(name, groups) => {
            let seen = see_structure(alloc, groups, &*beyond, block, types)?;
            know_if_any(name, seen.kind, block)?;
            Ok(seen)
        }
        _ => {
            let made = make_type(alloc, kind, &*beyond, block, types)?;
            Ok(Seen {
                kind: made,
                fault: None,
            })
        }
    }
}

/// The structure that has these members.
#[cycle(see_type)]
pub fn see_structure<'a>(
    alloc: Global,
    groups: &'a [EflGroup],
    beyond: &Blocks<'_, 'a>,
    block: &mut Block<'a>,
    types: &mut Types<'a>,
) -> Result<Seen<'a>, AllocError>
    ensures { IfOk result (λ s. SeesStructure types.old block.old beyond.now (groups_of groups.now) types.new block.new s) }
{
    let mut so_far = Summary {
        number: BEGINNING,
        sound: true,
        places: 0,
    };
    let mut members = Vec::new(alloc);
    let mut fault = None;
    for group in groups {
        let seen = see_type(alloc, &group.kind, &*beyond, block, types)?;
        let own = see_sizes(group.place, &[], seen, &group.variables, types)?;
        so_far = take_members(so_far, seen.kind, &group.variables, types, &mut members)?;
        fault = fault.or(own);
    }
    let kind = add_structure(so_far, members, types)?;
    Ok(Seen { kind, fault })
}

/// The first fault of variables or members of one type, before those within it.
fn see_sizes<'a>(
    place: Place,
    formals: &[EflName],
    seen: Seen<'a>,
    list: &'a [EflVar],
    types: &mut Types<'a>,
) -> Result<Option<Fault>, AllocError>
    ensures { IfOk result (λ f. SeesSizes types.old place formals.now seen.entry (vars_of list.now) types.new f) }
{
    let rule = variables_rule(formals, seen.kind.summary, list, &mut types.numbers)?;
    let own = fault_by(place, rule);
    Ok(own.or(seen.fault))
}

/// The first fault of variables or members of the type that a text gives, and of the groups within it.
pub fn see_list<'a>(
    alloc: Global,
    place: Place,
    formals: &[EflName],
    kind: &'a EflType,
    list: &'a [EflVar],
    beyond: &Blocks<'_, 'a>,
    block: &mut Block<'a>,
    types: &mut Types<'a>,
) -> Result<Option<Fault>, AllocError>
    ensures { IfOk result (λ f. SeesList types.old block.old beyond.now place formals.now (type_of kind.now) (vars_of list.now) types.new block.new f) }
{
    let seen = see_type(alloc, kind, &*beyond, block, types)?;
    see_sizes(place, formals, seen, list, types)
}
