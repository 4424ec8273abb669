// Procedures as calls see them.
ghost use Rattle.std.specs.Prelude.{◌≡◌, List, [], Some, None, OnOk, if◌then◌else◌};
ghost use Rattle.std.specs.Option.{option_or};
ghost use Rattle.std.specs.Str.{bytes_eq};
ghost use Rattle.efl_tree.specs.Syntax.{Text};
ghost use Rattle.efl_types.specs.Signatures.{callee as callee_seen, callee_by, Signature as SignatureSeen};
ghost use Rattle.efl_scoped.specs.Numbers.{Table};
ghost use Rattle.efl_expressions.specs.declared.types.Structure as structures;
ghost use Rattle.efl_names.specs.NameViews.{unit_in, AreUnits, IsCallee, first_unit};

use efl_expressions::{Arity, DataType, known};
use ground::Kind;
use std::alloc::{AllocError, Global};
use std::collections::HashMap;

/// What a procedure gives.
#[derive(Clone, Copy, Drop)]
pub enum Outcome {
    Nothing,
    Gives(Kind),
    /// Its type has a fault.
    Unknown,
}

/// A procedure as a call sees it.
#[derive(Drop)]
pub struct Signature<'a> {
    pub formals: Vec<DataType<'a>>,
    pub outcome: Outcome,
}

/// What is called.
#[derive(Clone, Copy, Drop)]
pub enum Callee<'c, 'a> {
    /// A procedure, by the types of its formals and what it gives.
    Procedure(&'c [DataType<'a>], Outcome),
    Intrinsic(Arity),
    Missing,
}

/// The procedures of a program by their names, of which the first counts. Contracts see by `AreUnits` which they are.
#[derive(Drop)]
pub struct Units<'a> {
    pub table: HashMap<&'a [u8], Signature<'a>>,
}

impl<'a> Units<'a> {
    /// No procedures. It takes no memory.
    pub fn new(alloc: Global) -> Units<'a>
        ensures { (f : Table) (ss : List structures.Structure) → AreUnits f ss [] result }
    {
        Units {
            table: HashMap::new(alloc),
        }
    }

    /// A procedure comes, where none of its name is there.
    pub fn add(&mut self, name: &'a [u8], signature: Signature<'a>) -> Result<(), AllocError>
        ensures { OnOk result ((x : Text) → unit_in self.new x ≡ option_or (unit_in self.old x) (if bytes_eq x name.now then Some signature.entry else None)) }
    {
        if !self.table.contains_key(name) {
            self.table.insert(name, signature)?;
        }
        Ok(())
    }

    /// What a name before parentheses calls.
    pub fn callee<'c>(&'c self, name: &[u8]) -> Callee<'c, 'a>
        ensures { (f : Table) (ss : List structures.Structure) (us : List SignatureSeen) → AreUnits f ss us self.now → IsCallee f ss (callee_by name.now (first_unit us name.now)) result }
    {
        match self.table.get(name) {
            Some(signature) => Callee::Procedure(&signature.formals, signature.outcome),
            None => match known(name) {
                Some(arity) => Callee::Intrinsic(arity),
                None => Callee::Missing,
            },
        }
    }
}
