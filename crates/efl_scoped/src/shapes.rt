// What is told of the structures of a procedure's outer block, and of types among them.
ghost use Rattle.std.specs.Prelude.{◌≡◌, IfOk, OnOk, Some, None};
ghost use Rattle.std.specs.Option.{option_or};
ghost use Rattle.efl_tree.specs.Views.{type_of, groups_of};
ghost use Rattle.efl_tree.specs.Syntax.{Text};
ghost use Rattle.efl_scope.specs.DataTypes.{Scalar, NoType};
ghost use Rattle.ground.specs.declared.value.Kind.TheVariants.{Integer, Logical};
ghost use Rattle.efl_scope.specs.Scopes.{Blocks, structured, shape_named};
ghost use Rattle.efl_scoped.specs.Numbers.{Table};
ghost use Rattle.efl_scoped.specs.Told.{Tells, Knows, shape_in, shape_if};
ghost use Rattle.efl_scoped.specs.Seen.{table_of, SeesType, SeesGroups};

use crate::numbers::{INTEGER, LOGICAL, Pairs, STRUCTURE};
use crate::summaries::{Summary, with_members};
use efl_tree::{EflGroup, EflName, EflType};
use std::alloc::{AllocError, Global};
use std::collections::HashMap;

/// The structures of a block by their names.
#[derive(Drop)]
pub struct Shapes<'a> {
    pub table: HashMap<&'a [u8], Summary>,
}

impl<'a> Shapes<'a> {
    /// No structures. It takes no memory.
    pub fn new(alloc: Global) -> Shapes<'a>
        ensures { (x : Text) → shape_in result x ≡ None }
    {
        Shapes {
            table: HashMap::new(alloc),
        }
    }

    /// A structure becomes known, where none of its name is.
    pub fn know(&mut self, name: &'a [u8], shape: Summary) -> Result<(), AllocError>
        ensures { OnOk result ((x : Text) → shape_in self.new x ≡ option_or (shape_in self.old x) (shape_if (Some name.now) shape x)) }
    {
        if !self.table.contains_key(name) {
            self.table.insert(name, shape)?;
        }
        Ok(())
    }

    fn know_if_any(&mut self, name: &'a Option<EflName>, shape: Summary) -> Result<(), AllocError>
        ensures { OnOk result ((x : Text) → shape_in self.new x ≡ option_or (shape_in self.old x) (shape_if name.now shape x)) }
    {
        match name {
            None => Ok(()),
            Some(name) => self.know(name.as_bytes(), shape),
        }
    }

    /// The type that a name gives.
    fn named(&self, name: &[u8]) -> Summary
        ensures { (f : Table) (bs : Blocks) → Knows f self.now bs → Tells f (structured (shape_named bs name.now)) result }
    {
        match self.table.get(name) {
            None => no_type(),
            Some(shape) => *shape,
        }
    }
}

/// Of what has no type.
pub fn no_type() -> Summary
    ensures { (f : Table) → Tells f NoType result }
{
    Summary {
        number: 0,
        sound: false,
        places: 0,
    }
}

/// Of integers.
pub fn integer() -> Summary
    ensures { (f : Table) → Tells f (Scalar Integer) result }
{
    Summary {
        number: INTEGER,
        sound: true,
        places: 1,
    }
}

/// Of logical values.
pub fn logical() -> Summary
    ensures { (f : Table) → Tells f (Scalar Logical) result }
{
    Summary {
        number: LOGICAL,
        sound: true,
        places: 1,
    }
}

/// A type, of which structures become known.
#[cycle(see_type)]
pub fn see_type<'a>(
    kind: &'a EflType,
    known: &mut Shapes<'a>,
    numbers: &mut Pairs,
) -> Result<Summary, AllocError>
    ensures { IfOk result (λ s. SeesType (table_of numbers.old) known.old (type_of kind.now) (table_of numbers.new) known.new s) }
{
    match kind {
        EflType::Integer => Ok(integer()),
        EflType::Logical => Ok(logical()),
        EflType::Real(_) | EflType::Complex(_) => Ok(no_type()),
        EflType::Named(name) => Ok(known.named(name.as_bytes())),
        EflType::Shape(name, groups) => {
            let shape = see_members(groups, known, numbers)?;
            known.know_if_any(name, shape)?;
            Ok(shape)
        }
    }
}

/// The members of a structure.
#[cycle(see_type)]
pub fn see_members<'a>(
    groups: &'a [EflGroup],
    known: &mut Shapes<'a>,
    numbers: &mut Pairs,
) -> Result<Summary, AllocError>
    ensures { IfOk result (λ s. SeesGroups (table_of numbers.old) known.old (groups_of groups.now) (table_of numbers.new) known.new s) }
{
    let mut so_far = Summary {
        number: STRUCTURE,
        sound: true,
        places: 0,
    };
    for group in groups {
        let kind = see_type(&group.kind, known, numbers)?;
        so_far = with_members(so_far, kind, &group.variables, numbers)?;
    }
    Ok(so_far)
}
