// The types that letters give to names that aren't declared.
ghost use Rattle.std.specs.Prelude.{◌≡◌, ◌++◌, ◌∷◌, ℕ, List, [], Some, None, nat_le, ◌&&◌, OnOk, if◌then◌else◌};
ghost use Rattle.std.specs.Option.{option_or};
ghost use Rattle.efl_scope.specs.DataTypes.{DataType as TypeSeen};
ghost use Rattle.efl_scope.specs.Scopes.{Implied, implicit_type, by_letter};
ghost use Rattle.efl_scoped.specs.Numbers.{Table};
ghost use Rattle.efl_expressions.specs.declared.types.Structure as structures;
ghost use Rattle.efl_expressions.specs.TypeViews.{IsType};
ghost use Rattle.efl_names.specs.NameViews.{letter_in, AreLetters};

use efl_expressions::{DataType, Element, nothing};
use efl_scoped::integer;
use ground::Kind;
use std::alloc::{AllocError, Global};
use std::collections::HashMap;

/// The types that rules give to letters. Contracts see by `AreLetters` which rules they are.
#[derive(Drop)]
pub struct Letters<'a> {
    pub table: HashMap<usize, DataType<'a>>,
}

impl<'a> Letters<'a> {
    /// No rules. It takes no memory.
    pub fn new(alloc: Global) -> Letters<'a>
        ensures { (f : Table) (ss : List structures.Structure) → AreLetters f ss [] result }
    {
        Letters {
            table: HashMap::new(alloc),
        }
    }

    /// A rule comes, which counts before those that came earlier.
    pub fn give(&mut self, first: u8, last: u8, kind: DataType<'a>) -> Result<(), AllocError>
        ensures { OnOk result ((c : ℕ) → letter_in self.new c ≡ (if nat_le first c && nat_le c last then Some kind.entry else letter_in self.old c)) }
    {
        for letter in first as usize..last as usize + 1 {
            self.table.insert(letter, kind)?;
        }
        Ok(())
    }

    /// The type that the letter of a name gives.
    pub fn implicit(&self, name: &[u8]) -> DataType<'a>
        ensures { (f : Table) (ss : List structures.Structure) (rules : List Implied) → AreLetters f ss rules self.now → IsType f ss (implicit_type rules name.now) result }
    {
        match name.first() {
            None => nothing(),
            Some(letter) => self.by_letter(*letter),
        }
    }

    fn by_letter(&self, letter: u8) -> DataType<'a>
        ensures { (f : Table) (ss : List structures.Structure) (rules : List Implied) → AreLetters f ss rules self.now → IsType f ss (by_letter rules letter) result }
    {
        match self.table.get(&(letter as usize)) {
            Some(kind) => *kind,
            None => plain(letter),
        }
    }
}

/// The type that a letter gives without a rule.
fn plain<'a>(letter: u8) -> DataType<'a>
    ensures { (f : Table) (ss : List structures.Structure) → IsType f ss (by_letter [] letter) result }
{
    if b'I' <= letter && letter <= b'N' {
        DataType {
            element: Element::Scalar(Kind::Integer),
            bounds: &[],
            summary: integer(),
        }
    } else {
        nothing()
    }
}
