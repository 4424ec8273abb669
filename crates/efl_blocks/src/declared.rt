// The variables that a block declares.
ghost use Rattle.std.specs.Prelude.{◌≡◌, IfOk, OnOk};
ghost use Rattle.efl_tree.specs.Views.{type_of, groups_of, vars_of, decls_of, decl_kind_of};
ghost use Rattle.efl_scope.specs.Parts.{names_of};
ghost use Rattle.efl_scope.specs.Marks.{variables_listed};
ghost use Rattle.efl_blocks.specs.DeclaredViews.{NamesAll, named_by, declared_names, AddsVariables, AddsList, AddsGroups, KnowsStructure, Declares, DeclaresAll, Opens};

use crate::{Types, know, make_structure, make_type, with_bounds};
use efl_expressions::{Block, Blocks, DataType, nothing};
use efl_tree::{EflDecl, EflDeclKind, EflGroup, EflName, EflType, EflVar};
use std::alloc::{AllocError, Global};

/// A block of these declarations, before the first of them: its variables, wherever it declares them.
pub fn open_block<'a>(
    alloc: Global,
    list: &'a [EflDecl],
    beyond: &Blocks<'_, 'a>,
    types: &mut Types<'a>,
) -> Result<Block<'a>, AllocError>
    ensures { IfOk result (λ block. Opens types.old beyond.now (decls_of list.now) types.new block) }
{
    let mut known = Block::new(alloc);
    name_declared(list, &mut known)?;
    declare_all(alloc, list, &*beyond, &mut known, types)
}

/// The names of variables come, without types.
pub fn name_declared<'a>(list: &'a [EflDecl], block: &mut Block<'a>) -> Result<(), AllocError>
    ensures { OnOk result (NamesAll block.old (declared_names (decls_of list.now)) block.new) }
{
    for declaration in list {
        name_by(&declaration.kind, block)?;
    }
    Ok(())
}

fn name_by<'a>(kind: &'a EflDeclKind, block: &mut Block<'a>) -> Result<(), AllocError>
    ensures { OnOk result (NamesAll block.old (named_by (decl_kind_of kind.now)) block.new) }
{
    match kind {
        EflDeclKind::Variables(_, _, list) => name_variables(list, block),
        EflDeclKind::Area(_, groups) => name_groups(groups, block),
        _ => Ok(()),
    }
}

fn name_groups<'a>(groups: &'a [EflGroup], block: &mut Block<'a>) -> Result<(), AllocError>
    ensures { OnOk result (NamesAll block.old (variables_listed (groups_of groups.now)) block.new) }
{
    for group in groups {
        name_variables(&group.variables, block)?;
    }
    Ok(())
}

fn name_variables<'a>(list: &'a [EflVar], block: &mut Block<'a>) -> Result<(), AllocError>
    ensures { OnOk result (NamesAll block.old (names_of (vars_of list.now)) block.new) }
{
    for variable in list {
        block.declare(variable.name.as_bytes(), nothing())?;
    }
    Ok(())
}

/// The variables of declarations, where the block's names are known.
fn declare_all<'a>(
    alloc: Global,
    list: &'a [EflDecl],
    beyond: &Blocks<'_, 'a>,
    known: &mut Block<'a>,
    types: &mut Types<'a>,
) -> Result<Block<'a>, AllocError>
    ensures { IfOk result (λ block. DeclaresAll types.old known.old beyond.now (decls_of list.now) types.new block) }
{
    let mut block = Block::new(alloc);
    for declaration in list {
        declare(alloc, &declaration.kind, &*beyond, known, &mut block, types)?;
    }
    Ok(block)
}

/// The variables of a declaration come, and its structures become known.
pub fn declare<'a>(
    alloc: Global,
    kind: &'a EflDeclKind,
    beyond: &Blocks<'_, 'a>,
    known: &mut Block<'a>,
    block: &mut Block<'a>,
    types: &mut Types<'a>,
) -> Result<(), AllocError>
    ensures { OnOk result (Declares types.old known.old beyond.now block.old (decl_kind_of kind.now) types.new known.new block.new) }
{
    match kind {
        EflDeclKind::Implicit(_, kind) => {
            make_type(alloc, kind, &*beyond, known, types)?;
            Ok(())
        }
        EflDeclKind::Initial(_) => Ok(()),
        EflDeclKind::Variables(_, kind, list) => {
            declare_list(alloc, kind, list, &*beyond, known, block, types)
        }
        EflDeclKind::Area(_, groups) => {
            declare_groups(alloc, groups, &*beyond, known, block, types)
        }
        EflDeclKind::Structure(name, groups) => {
            know_structure(alloc, name, groups, &*beyond, known, types)
        }
    }
}

/// A structure of a block becomes known.
pub fn know_structure<'a>(
    alloc: Global,
    name: &'a EflName,
    groups: &'a [EflGroup],
    beyond: &Blocks<'_, 'a>,
    known: &mut Block<'a>,
    types: &mut Types<'a>,
) -> Result<(), AllocError>
    ensures { OnOk result (KnowsStructure types.old known.old beyond.now name.now (groups_of groups.now) types.new known.new) }
{
    let made = make_structure(alloc, groups, &*beyond, known, types)?;
    know(name.as_bytes(), made, known)
}

fn declare_groups<'a>(
    alloc: Global,
    groups: &'a [EflGroup],
    beyond: &Blocks<'_, 'a>,
    known: &mut Block<'a>,
    block: &mut Block<'a>,
    types: &mut Types<'a>,
) -> Result<(), AllocError>
    ensures { OnOk result (AddsGroups types.old known.old beyond.now block.old (groups_of groups.now) types.new known.new block.new) }
{
    for group in groups {
        declare_list(
            alloc,
            &group.kind,
            &group.variables,
            &*beyond,
            known,
            block,
            types,
        )?;
    }
    Ok(())
}

fn declare_list<'a>(
    alloc: Global,
    kind: &'a EflType,
    list: &'a [EflVar],
    beyond: &Blocks<'_, 'a>,
    known: &mut Block<'a>,
    block: &mut Block<'a>,
    types: &mut Types<'a>,
) -> Result<(), AllocError>
    ensures { OnOk result (AddsList types.old known.old beyond.now block.old (type_of kind.now) (vars_of list.now) types.new known.new block.new) }
{
    let made = make_type(alloc, kind, &*beyond, known, types)?;
    add_variables(made, list, block, types)
}

/// Variables of one type come.
fn add_variables<'a>(
    kind: DataType<'a>,
    list: &'a [EflVar],
    block: &mut Block<'a>,
    types: &mut Types<'a>,
) -> Result<(), AllocError>
    ensures { OnOk result (AddsVariables types.old kind.entry block.old (vars_of list.now) types.new block.new) }
{
    for variable in list {
        let own = with_bounds(kind, &variable.bounds, types)?;
        block.declare(variable.name.as_bytes(), own)?;
    }
    Ok(())
}
