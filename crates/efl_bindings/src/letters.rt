// The types that letters give to names that aren't declared.
ghost use Rattle.std.specs.Prelude.{◌≡◌, ℕ, nat_le, ◌&&◌, Some, None, IfOk, OnOk, if◌then◌else◌};
ghost use Rattle.efl_tree.specs.Views.{decls_of, decl_kind_of};
ghost use Rattle.efl_bindings.specs.Bindings.{letter_in, letter_kind, kind_by};
ghost use Rattle.efl_bindings.specs.Declarations.{GivesAll, Implies, ImpliesAll};

use crate::blocks::plain_kind;
use efl_tree::{EflDecl, EflDeclKind};
use ground::Kind;
use std::alloc::{AllocError, Global};
use std::collections::HashMap;

/// The types that rules give to letters, of which the others give integers.
#[derive(Drop)]
pub struct Letters {
    pub table: HashMap<usize, Kind>,
}

impl Letters {
    /// No rules. It takes no memory.
    fn new(alloc: Global) -> Letters
        ensures { (c : ℕ) → letter_in result c ≡ None }
    {
        Letters {
            table: HashMap::new(alloc),
        }
    }

    /// A rule comes, which counts before those that came earlier.
    fn give(&mut self, first: u8, last: u8, kind: Kind) -> Result<(), AllocError>
        ensures { OnOk result ((c : ℕ) → letter_in self.new c ≡ (if nat_le first c && nat_le c last then Some kind else letter_in self.old c)) }
    {
        for letter in first as usize..last as usize + 1 {
            self.table.insert(letter, kind)?;
        }
        Ok(())
    }

    /// The type that the letter of a name gives.
    pub fn kind(&self, name: &[u8]) -> Kind
        ensures { result ≡ kind_by self.now name.now }
    {
        match name.first() {
            None => Kind::Integer,
            Some(letter) => self.letter(*letter),
        }
    }

    fn letter(&self, letter: u8) -> Kind
        ensures { result ≡ letter_kind self.now letter }
    {
        match self.table.get(&(letter as usize)) {
            Some(kind) => *kind,
            None => Kind::Integer,
        }
    }
}

/// The types that declarations give to letters.
pub fn letters_of(alloc: Global, declarations: &[EflDecl]) -> Result<Letters, AllocError>
    ensures { IfOk result (λ letters. ImpliesAll (decls_of declarations.now) letters) }
{
    let mut letters = Letters::new(alloc);
    for declaration in declarations {
        imply(&declaration.kind, &mut letters)?;
    }
    Ok(letters)
}

fn imply(kind: &EflDeclKind, letters: &mut Letters) -> Result<(), AllocError>
    ensures { OnOk result (Implies letters.old (decl_kind_of kind.now) letters.new) }
{
    match kind {
        EflDeclKind::Implicit(ranges, kind) => give_all(ranges, plain_kind(kind), letters),
        _ => Ok(()),
    }
}

fn give_all(ranges: &[(u8, u8)], kind: Kind, letters: &mut Letters) -> Result<(), AllocError>
    ensures { OnOk result (GivesAll kind letters.old ranges.now letters.new) }
{
    for range in ranges {
        letters.give(range.0, range.1, kind)?;
    }
    Ok(())
}
