// Type statements.
ghost use Rattle.std.specs.Prelude.{◌≡◌, [], ◌∷◌, ◌++◌, length, map, IfOk, OnOk};
ghost use Rattle.f66_tree.specs.Syntax.{Typed, unlabelled_line};
ghost use Rattle.f66_tree.specs.Views.{declared_of, lines_of};
ghost use Rattle.efl_lowered.specs.Lowering.{declared_scalar, typed_lines};

use f66_tree::{Declared, Name, Stmt, StmtKind, TypeWord};
use ground::{List, Place};
use std::alloc::{AllocError, Global};

/// So many names in a statement, as fit a card.
const ON_A_CARD: usize = 8;

/// Type statements of names, one behind the other.
pub fn put_types(
    alloc: Global,
    place: Place,
    word: TypeWord,
    names: &[Name],
    lines: &mut List<Stmt>,
) -> Result<(), AllocError>
    ensures { OnOk result (lines_of lines.new.items ≡ lines_of lines.old.items ++ typed_lines (length names.now) place word names.now) }
{
    let mut left = names;
    while !left.is_empty() {
        let (here, behind) = left.split_at(left.len().min(ON_A_CARD));
        put_type(alloc, place, word, here, lines)?;
        left = behind;
    }
    Ok(())
}

fn put_type(
    alloc: Global,
    place: Place,
    word: TypeWord,
    names: &[Name],
    lines: &mut List<Stmt>,
) -> Result<(), AllocError>
    ensures { OnOk result (lines_of lines.new.items ≡ lines_of lines.old.items ++ unlabelled_line place (Typed word (map declared_scalar names.now)) ∷ []) }
{
    let kind = StmtKind::Typed(word, scalars(alloc, names)?);
    lines.push(Stmt {
        label: None,
        place,
        kind,
    })?;
    Ok(())
}

// Names without dimensions.
fn scalars(alloc: Global, names: &[Name]) -> Result<List<Declared>, AllocError>
    ensures { IfOk result (λ list. map declared_of list.items ≡ map declared_scalar names.now) }
{
    let mut list = Vec::new(alloc);
    for name in names {
        list.push(Declared {
            name: name.copy()?,
            sizes: Vec::new(alloc),
        })?;
    }
    Ok(list)
}
