// The first fault of the groups of a declaration, and of what it declares.
ghost use Rattle.std.specs.Prelude.{IfOk};
ghost use Rattle.efl_tree.specs.Views.{groups_of, decl_kind_of};
ghost use Rattle.efl_declarations.specs.Sees.{SeesGroups, SeesNamed, SeesDeclaration};

use crate::types::{see_list, see_structure, see_type};
use efl_blocks::{Types, know};
use efl_expressions::{Block, Blocks};
use efl_tree::{EflDeclKind, EflGroup, EflName};
use ground::{Fault, Place};
use std::alloc::{AllocError, Global};

/// The first fault of a declaration and of its groups, without those of initial values.
pub fn see_declaration<'a>(
    alloc: Global,
    place: Place,
    formals: &[EflName],
    kind: &'a EflDeclKind,
    beyond: &Blocks<'_, 'a>,
    block: &mut Block<'a>,
    types: &mut Types<'a>,
) -> Result<Option<Fault>, AllocError>
    ensures { IfOk result (λ f. SeesDeclaration types.old block.old beyond.now place formals.now (decl_kind_of kind.now) types.new block.new f) }
{
    match kind {
        EflDeclKind::Implicit(_, kind) => {
            let seen = see_type(alloc, kind, &*beyond, block, types)?;
            Ok(seen.fault)
        }
        EflDeclKind::Initial(_) => Ok(None),
        EflDeclKind::Variables(_, kind, list) => {
            see_list(alloc, place, formals, kind, list, &*beyond, block, types)
        }
        EflDeclKind::Area(_, groups) => see_groups(alloc, groups, &*beyond, block, types),
        EflDeclKind::Structure(name, groups) => {
            see_named(alloc, name, groups, &*beyond, block, types)
        }
    }
}

/// The first fault of the groups of an area.
fn see_groups<'a>(
    alloc: Global,
    groups: &'a [EflGroup],
    beyond: &Blocks<'_, 'a>,
    block: &mut Block<'a>,
    types: &mut Types<'a>,
) -> Result<Option<Fault>, AllocError>
    ensures { IfOk result (λ f. SeesGroups types.old block.old beyond.now (groups_of groups.now) types.new block.new f) }
{
    let mut fault = None;
    for group in groups {
        let more = see_list(
            alloc,
            group.place,
            &[],
            &group.kind,
            &group.variables,
            &*beyond,
            block,
            types,
        )?;
        fault = fault.or(more);
    }
    Ok(fault)
}

/// The first fault of the groups of a structure of a block, which becomes known.
fn see_named<'a>(
    alloc: Global,
    name: &'a EflName,
    groups: &'a [EflGroup],
    beyond: &Blocks<'_, 'a>,
    block: &mut Block<'a>,
    types: &mut Types<'a>,
) -> Result<Option<Fault>, AllocError>
    ensures { IfOk result (λ f. SeesNamed types.old block.old beyond.now name.now (groups_of groups.now) types.new block.new f) }
{
    let seen = see_structure(alloc, groups, &*beyond, block, types)?;
    know(name.as_bytes(), seen.kind, block)?;
    Ok(seen.fault)
}
