// The declarations of a block, part by part.
ghost use Rattle.std.specs.Prelude.{map, OnOk};
ghost use Rattle.efl_tree.specs.Views.{preset_of, decl_kind_of, decl_of, decls_of};
ghost use Rattle.efl_declarations.specs.Checks.{IsAmong, CountsInside, NotesInside, TellsDeclaration, ChecksDeclaration, ChecksDeclarations};

use crate::groups::see_declaration;
use efl_blocks::{Homes, Types};
use efl_expressions::{Block, Blocks};
use efl_reading::{Progress, Site, Walk, count_declaration};
use efl_storage::{Firsts, Storage};
use efl_tree::{EflDecl, EflDeclKind, EflPreset};
use ground::Place;
use std::alloc::{AllocError, Global};

/// The parts of a block's declarations are read. The site is that beyond the block, which is known as before the first of them and
/// is known then as behind the last.
pub fn check_declarations<'a>(
    alloc: Global,
    list: &'a [EflDecl],
    site: &Site<'_, 'a>,
    known: &mut Block<'a>,
    types: &mut Types<'a>,
    walk: &mut Walk,
) -> Result<(), AllocError>
    ensures { OnOk result (ChecksDeclarations types.old known.old site.now walk.old (decls_of list.now) types.new known.new walk.new) }
{
    for declaration in list {
        check_declaration(alloc, declaration, &*site, known, types, walk)?;
    }
    Ok(())
}

fn check_declaration<'a>(
    alloc: Global,
    declaration: &'a EflDecl,
    site: &Site<'_, 'a>,
    known: &mut Block<'a>,
    types: &mut Types<'a>,
    walk: &mut Walk,
) -> Result<(), AllocError>
    ensures { OnOk result (ChecksDeclaration types.old known.old site.now walk.old (decl_of declaration.now) types.new known.new walk.new) }
{
    count_inside(
        alloc,
        &declaration.kind,
        &*site,
        &*known,
        &walk.firsts,
        &mut walk.storage,
    )?;
    tell_declaration(alloc, declaration, &*site, known, types, &mut walk.progress)
}

/// A declaration is counted, among all blocks.
fn count_inside<'a>(
    alloc: Global,
    kind: &EflDeclKind,
    site: &Site<'_, 'a>,
    known: &Block<'a>,
    firsts: &Firsts,
    storage: &mut Storage,
) -> Result<(), AllocError>
    ensures { OnOk result (CountsInside known.now site.now firsts.now (decl_kind_of kind.now) storage.old storage.new) }
{
    let blocks = Blocks::Inside(&*known, site.blocks);
    let homes = Homes::Inside(site.position, &*known, site.homes);
    let inner = site_among(*site, &blocks, &homes);
    count_declaration(alloc, kind, &inner, firsts, storage)
}

/// What a declaration and its groups break is told.
fn tell_declaration<'a>(
    alloc: Global,
    declaration: &'a EflDecl,
    site: &Site<'_, 'a>,
    known: &mut Block<'a>,
    types: &mut Types<'a>,
    progress: &mut Progress,
) -> Result<(), AllocError>
    ensures { OnOk result (TellsDeclaration types.old known.old site.now progress.old (decl_of declaration.now) types.new known.new progress.new) }
{
    match &declaration.kind {
        EflDeclKind::Initial(presets) => {
            tell_presets(
                declaration.place,
                presets,
                &*site,
                &*known,
                &*types,
                progress,
            )
        }
        kind => {
            let fault = see_declaration(
                alloc,
                declaration.place,
                site.formals,
                kind,
                site.blocks,
                known,
                types,
            )?;
            progress.note_all(fault);
            Ok(())
        }
    }
}

/// Initial values are read among all blocks.
fn tell_presets<'a>(
    place: Place,
    presets: &'a [EflPreset],
    site: &Site<'_, 'a>,
    known: &Block<'a>,
    types: &Types<'a>,
    progress: &mut Progress,
) -> Result<(), AllocError>
    ensures { OnOk result (NotesInside types.now known.now site.now place (map preset_of presets.now) progress.old progress.new) }
{
    let blocks = Blocks::Inside(&*known, site.blocks);
    let homes = Homes::Inside(site.position, &*known, site.homes);
    let inner = site_among(*site, &blocks, &homes);
    progress.note_presets(place, presets, &inner, types)
}

/// The same site with these blocks around it.
fn site_among<'c, 'a>(
    site: Site<'c, 'a>,
    blocks: &'c Blocks<'c, 'a>,
    homes: &'c Homes<'c, 'a>,
) -> Site<'c, 'a>
    ensures { IsAmong site.entry blocks.now homes.now result }
{
    Site {
        procedure: site.procedure,
        position: site.position,
        formals: site.formals,
        blocks,
        homes,
    }
}
