// Structures that become known in a block.
ghost use Rattle.std.specs.Prelude.{◌≡◌, OnOk};
ghost use Rattle.std.specs.Str.{bytes_eq};
ghost use Rattle.efl_tree.specs.Syntax.{Text};
ghost use Rattle.efl_scope.specs.Scopes.{Blocks as BlocksSeen, structured, shape_named};
ghost use Rattle.efl_expressions.specs.NameViews.{entry_in};
ghost use Rattle.efl_blocks.specs.declared.types.Types as collections;
ghost use Rattle.efl_blocks.specs.Within.{IsIn, Within, learned, learned_if, is_structure_in};

use efl_expressions::{Block, Blocks, DataType, Meaning, structure_named};
use efl_tree::EflName;
use std::alloc::AllocError;

/// The type that a structure's name gives in a block and those around it.
pub fn named<'c, 'a>(name: &[u8], block: &'c Block<'a>, beyond: &'c Blocks<'c, 'a>) -> DataType<'a>
    ensures { (y : collections.Types) (bs : BlocksSeen) → Within y bs block.now beyond.now → IsIn y (structured (shape_named bs name.now)) result }
{
    let blocks = Blocks::Inside(block, beyond);
    structure_named(&blocks, name)
}

/// A structure becomes known, where none of its name is.
pub fn know<'a>(name: &'a [u8], kind: DataType<'a>, block: &mut Block<'a>) -> Result<(), AllocError>
    ensures { OnOk result ((x : Text) → entry_in block.new x ≡ learned (bytes_eq x name.now) kind.entry (entry_in block.old x)) }
{
    if !is_structure(name, &*block) {
        block.table.insert(name, Meaning::Structure(kind))?;
    }
    Ok(())
}

fn is_structure(name: &[u8], block: &Block) -> bool
    ensures { result ≡ is_structure_in (entry_in block.now name.now) }
{
    match block.table.get(name) {
        Some(Meaning::Structure(_)) => true,
        _ => false,
    }
}

/// The same where the structure has a name.
pub fn know_if_any<'a>(
    name: &'a Option<EflName>,
    kind: DataType<'a>,
    block: &mut Block<'a>,
) -> Result<(), AllocError>
    ensures { OnOk result ((x : Text) → entry_in block.new x ≡ learned_if name.now x kind.entry (entry_in block.old x)) }
{
    match name {
        None => Ok(()),
        Some(name) => know(name.as_bytes(), kind, block),
    }
}
