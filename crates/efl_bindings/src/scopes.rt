// The scalars that names mean in the blocks around.
ghost use Rattle.std.specs.Prelude.{◌≡◌, Some, None, OnOk, if◌then◌else◌};
ghost use Rattle.std.specs.Option.{option_or};
ghost use Rattle.std.specs.Str.{bytes_eq};
ghost use Rattle.efl_tree.specs.Syntax.{Text};
ghost use Rattle.efl_bindings.specs.Bindings.{scalar_in, scalar_for};

use efl_typed_tree::Scalar;
use rule_table::note;
use std::alloc::{AllocError, Global};
use std::collections::HashMap;

/// The variables that a block declares, by their names.
#[derive(Drop)]
pub struct Table<'a> {
    pub scalars: HashMap<&'a [u8], Scalar>,
}

impl<'a> Table<'a> {
    /// No variables. It takes no memory.
    pub fn new(alloc: Global) -> Table<'a>
        ensures { (x : Text) → scalar_in result x ≡ None }
    {
        Table {
            scalars: HashMap::new(alloc),
        }
    }

    /// The variable of a name.
    pub fn scalar(&self, name: &[u8]) -> Option<Scalar>
        ensures { result ≡ scalar_in self.now name.now }
    {
        match self.scalars.get(name) {
            None => None,
            Some(scalar) => Some(*scalar),
        }
    }

    /// A variable comes, where none of its name is there.
    pub fn declare(&mut self, name: &'a [u8], scalar: Scalar) -> Result<(), AllocError>
        ensures { OnOk result ((x : Text) → scalar_in self.new x ≡ option_or (scalar_in self.old x) (if bytes_eq x name.now then Some scalar else None)) }
    {
        note(&mut self.scalars, name, scalar)
    }
}

/// A block and those around it, from the inside out.
#[derive(Clone, Copy, Drop)]
pub enum Scopes<'c, 'a> {
    Outside,
    Inside(&'c Table<'a>, &'c Scopes<'c, 'a>),
}

/// The declared variable that a name means: an inner block hides the outer ones.
pub fn look_up(scopes: &Scopes, name: &[u8]) -> Option<Scalar>
    ensures { result ≡ scalar_for scopes.now name.now }
{
    match scopes {
        Scopes::Outside => None,
        Scopes::Inside(table, outside) => match table.scalar(name) {
            Some(scalar) => Some(scalar),
            None => look_up(outside, name),
        },
    }
}
