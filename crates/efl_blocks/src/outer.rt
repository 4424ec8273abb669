// The outer block of a procedure, with its formals, and the types that its letters give.
ghost use Rattle.std.specs.Prelude.{IfOk, OnOk};
ghost use Rattle.efl_tree.specs.Views.{type_of, decls_of, decl_kind_of, procedure_of};
ghost use Rattle.efl_blocks.specs.OuterViews.{GivesAll, Implies, DeclaresOuter, DeclaresOuterAll, DeclaresFormals, OpensOuter};

use crate::{Types, declare, make_type, name_declared};
use efl_expressions::{Block, Blocks, DataType};
use efl_names::Letters;
use efl_tree::{EflDecl, EflDeclKind, EflName, EflProcedure, EflType};
use std::alloc::{AllocError, Global};

/// The outer block of a procedure, and the types that its letters give.
#[derive(Drop)]
pub struct Outer<'a> {
    pub block: Block<'a>,
    pub letters: Letters<'a>,
}

/// The outer block of a procedure, before its first declaration, with its letters.
pub fn open_outer<'a>(
    alloc: Global,
    procedure: &'a EflProcedure,
    types: &mut Types<'a>,
) -> Result<Outer<'a>, AllocError>
    ensures { IfOk result (λ o. OpensOuter types.old (procedure_of procedure.now) types.new o) }
{
    let mut known = Block::new(alloc);
    name_declared(&procedure.declarations, &mut known)?;
    let mut block = Block::new(alloc);
    let mut letters = Letters::new(alloc);
    declare_outer(
        alloc,
        &procedure.declarations,
        &mut known,
        &mut block,
        &mut letters,
        types,
    )?;
    declare_formals(&procedure.formals, &letters, &mut block)?;
    Ok(Outer { block, letters })
}

/// The variables and letters of declarations come, where the block's names are known.
fn declare_outer<'a>(
    alloc: Global,
    list: &'a [EflDecl],
    known: &mut Block<'a>,
    block: &mut Block<'a>,
    letters: &mut Letters<'a>,
    types: &mut Types<'a>,
) -> Result<(), AllocError>
    ensures { OnOk result (DeclaresOuterAll types.old known.old block.old letters.old (decls_of list.now) types.new block.new letters.new) }
{
    for declaration in list {
        declare_one(alloc, &declaration.kind, known, block, letters, types)?;
    }
    Ok(())
}

fn declare_one<'a>(
    alloc: Global,
    kind: &'a EflDeclKind,
    known: &mut Block<'a>,
    block: &mut Block<'a>,
    letters: &mut Letters<'a>,
    types: &mut Types<'a>,
) -> Result<(), AllocError>
    ensures { OnOk result (DeclaresOuter types.old known.old block.old letters.old (decl_kind_of kind.now) types.new known.new block.new letters.new) }
{
    match kind {
        EflDeclKind::Implicit(ranges, kind) => imply(alloc, ranges, kind, known, letters, types),
        _ => declare(alloc, kind, &Blocks::Outside, known, block, types),
    }
}

/// Ranges of letters give a type.
fn imply<'a>(
    alloc: Global,
    ranges: &[(u8, u8)],
    kind: &'a EflType,
    known: &mut Block<'a>,
    letters: &mut Letters<'a>,
    types: &mut Types<'a>,
) -> Result<(), AllocError>
    ensures { OnOk result (Implies types.old known.old letters.old ranges.now (type_of kind.now) types.new known.new letters.new) }
{
    let made = make_type(alloc, kind, &Blocks::Outside, known, types)?;
    give_all(ranges, made, letters)
}

fn give_all<'a>(
    ranges: &[(u8, u8)],
    kind: DataType<'a>,
    letters: &mut Letters<'a>,
) -> Result<(), AllocError>
    ensures { OnOk result (GivesAll kind.entry letters.old ranges.now letters.new) }
{
    for range in ranges {
        letters.give(range.0, range.1, kind)?;
    }
    Ok(())
}

/// Formals that aren't declared come, with the types of their letters.
fn declare_formals<'a>(
    formals: &'a [EflName],
    letters: &Letters<'a>,
    block: &mut Block<'a>,
) -> Result<(), AllocError>
    ensures { OnOk result (DeclaresFormals letters.now block.old formals.now block.new) }
{
    for formal in formals {
        let implicit = letters.implicit(formal.as_bytes());
        block.declare(formal.as_bytes(), implicit)?;
    }
    Ok(())
}
