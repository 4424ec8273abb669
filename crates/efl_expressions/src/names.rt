// What names mean in blocks, in memory.
ghost use Rattle.std.specs.Prelude.{◌≡◌, List, Some, None, OnOk, if◌then◌else◌};
ghost use Rattle.std.specs.Option.{option_or};
ghost use Rattle.std.specs.Str.{bytes_eq};
ghost use Rattle.efl_tree.specs.Syntax.{Text};
ghost use Rattle.efl_scope.specs.DataTypes.{DataType as TypeSeen};
ghost use Rattle.efl_scope.specs.Scopes.{Blocks as BlocksSeen, Meaning as MeaningSeen, members_if, structured, shape_named, meaning as meaning_seen};
ghost use Rattle.efl_types.specs.Signatures.{type_by, applied_by, applied_as as applied_as_seen};
ghost use Rattle.efl_scoped.specs.Numbers.{Table};
ghost use Rattle.efl_expressions.specs.declared.types.Structure as structures;
ghost use Rattle.efl_expressions.specs.declared.names.Meaning.TheVariants.{Variable};
ghost use Rattle.efl_expressions.specs.TypeViews.{IsType};
ghost use Rattle.efl_expressions.specs.NameViews.{entry_in, meaning_in, IsMeaning, Know, IsApplied};

use crate::{DataType, Form, form, nothing};
use std::alloc::{AllocError, Global};
use std::collections::HashMap;

/// What a name means in its block.
#[derive(Clone, Copy, Drop)]
pub enum Meaning<'a> {
    Variable(DataType<'a>),
    Structure(DataType<'a>),
}

/// The names of a block.
#[derive(Drop)]
pub struct Block<'a> {
    pub table: HashMap<&'a [u8], Meaning<'a>>,
}

impl<'a> Block<'a> {
    /// No names. It takes no memory.
    pub fn new(alloc: Global) -> Block<'a>
        ensures { (x : Text) → entry_in result x ≡ None }
    {
        Block {
            table: HashMap::new(alloc),
        }
    }

    /// A variable comes, where no name like it is there.
    pub fn declare(&mut self, name: &'a [u8], kind: DataType<'a>) -> Result<(), AllocError>
        ensures { OnOk result ((x : Text) → entry_in self.new x ≡ option_or (entry_in self.old x) (if bytes_eq x name.now then Some (Variable kind.entry) else None)) }
    {
        if !self.table.contains_key(name) {
            self.table.insert(name, Meaning::Variable(kind))?;
        }
        Ok(())
    }

    fn entry(&self, name: &[u8]) -> Option<Meaning<'a>>
        ensures { result ≡ entry_in self.now name.now }
    {
        match self.table.get(name) {
            None => None,
            Some(meaning) => Some(*meaning),
        }
    }
}

/// A block and those around it, from the inside out. Contracts see by `Know` which blocks they are.
#[derive(Clone, Copy, Drop)]
pub enum Blocks<'c, 'a> {
    Outside,
    Inside(&'c Block<'a>, &'c Blocks<'c, 'a>),
}

/// What a name means: an inner block hides the outer ones.
pub fn look_up<'a>(blocks: &Blocks<'_, 'a>, name: &[u8]) -> Option<Meaning<'a>>
    ensures { result ≡ meaning_in blocks.now name.now }
{
    match blocks {
        Blocks::Outside => None,
        Blocks::Inside(block, outside) => match block.entry(name) {
            Some(meaning) => Some(meaning),
            None => look_up(outside, name),
        },
    }
}

/// The type that a structure's name gives.
pub fn structure_named<'a>(blocks: &Blocks<'_, 'a>, name: &[u8]) -> DataType<'a>
    ensures { (f : Table) (ss : List structures.Structure) (bs : BlocksSeen) → Know f ss bs blocks.now → IsType f ss (structured (shape_named bs name.now)) result }
{
    match look_up(blocks, name) {
        None => nothing(),
        Some(meaning) => as_structure(&meaning),
    }
}

/// The type that a name of this meaning gives.
fn as_structure<'a>(meaning: &Meaning<'a>) -> DataType<'a>
    ensures { (f : Table) (ss : List structures.Structure) (m : MeaningSeen) → IsMeaning f ss m meaning.now → IsType f ss (structured (members_if (Some m))) result }
{
    match meaning {
        Meaning::Variable(_) => nothing(),
        Meaning::Structure(kind) => *kind,
    }
}

/// The type of a name without parentheses, of which its letter gives one where it isn't declared.
pub fn variable_type<'a>(
    blocks: &Blocks<'_, 'a>,
    name: &[u8],
    implicit: &DataType<'a>,
) -> DataType<'a>
    ensures { (f : Table) (ss : List structures.Structure) (bs : BlocksSeen) (t : TypeSeen) → Know f ss bs blocks.now → IsType f ss t implicit.now →
        IsType f ss (type_by t (meaning_seen bs name.now)) result }
{
    match look_up(blocks, name) {
        None => *implicit,
        Some(meaning) => as_variable(&meaning),
    }
}

/// The type of a variable of this meaning.
fn as_variable<'a>(meaning: &Meaning<'a>) -> DataType<'a>
    ensures { (f : Table) (ss : List structures.Structure) (m : MeaningSeen) (t : TypeSeen) → IsMeaning f ss m meaning.now → IsType f ss (type_by t (Some m)) result }
{
    match meaning {
        Meaning::Variable(kind) => *kind,
        Meaning::Structure(_) => nothing(),
    }
}

/// What a name before parentheses is.
#[derive(Clone, Copy, Drop)]
pub enum Applied<'a> {
    /// An array or a structure.
    Indexes(DataType<'a>),
    /// A call, of the type of a declared scalar of its name.
    Calls(DataType<'a>),
}

/// What a name before parentheses is.
pub fn before_parentheses<'a>(blocks: &Blocks<'_, 'a>, name: &[u8]) -> Applied<'a>
    ensures { (f : Table) (ss : List structures.Structure) (bs : BlocksSeen) → Know f ss bs blocks.now → IsApplied f ss (applied_by (meaning_seen bs name.now)) result }
{
    match look_up(blocks, name) {
        None => Applied::Calls(nothing()),
        Some(meaning) => meaning_applied(&meaning),
    }
}

/// What a name of this meaning is before parentheses.
fn meaning_applied<'a>(meaning: &Meaning<'a>) -> Applied<'a>
    ensures { (f : Table) (ss : List structures.Structure) (m : MeaningSeen) → IsMeaning f ss m meaning.now → IsApplied f ss (applied_by (Some m)) result }
{
    match meaning {
        Meaning::Variable(kind) => applied_as(kind),
        Meaning::Structure(_) => Applied::Calls(nothing()),
    }
}

fn applied_as<'a>(kind: &DataType<'a>) -> Applied<'a>
    ensures { (f : Table) (ss : List structures.Structure) (t : TypeSeen) → IsType f ss t kind.now → IsApplied f ss (applied_as_seen t) result }
{
    match form(kind) {
        Form::Array | Form::Structured => Applied::Indexes(*kind),
        Form::Scalar(_) | Form::NoType => Applied::Calls(*kind),
    }
}
