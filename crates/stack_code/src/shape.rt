// What is known of a stack: the kinds of its entries.
ghost use Rattle.std.specs.Prelude.{◌≡◌, ◌∷◌, [], length, ◌↔◌, IsTrue, IfOk, OnOk, MatchOption};
ghost use Rattle.stack_code.specs.ValidCode.{same_kind};

use std::alloc::{AllocError, Global};
use std::marker::Model;

/// The kind of an entry of the stack.
#[derive(Clone, Copy)]
pub enum EntryKind {
    Int,
    Log,
    Spot,
}

/// The kinds of the entries of a stack. Contracts see a list, the topmost first.
#[derive(Drop)]
pub struct Shape {
    kinds: Vec<EntryKind>,
}

impl Model for Shape {
    ghost use Rattle.std.specs.Prelude.{List, reverse};
    ghost use Rattle.stack_code.specs.declared.shape.EntryKind.{EntryKind};

    ghost Value = { List EntryKind };

    ghost view = { λ s. reverse s.kinds.items };
}

impl Shape {
    /// The stack at an entry's beginning.
    pub fn new(alloc: Global) -> Shape
        ensures { result ≡ [] }
    {
        Shape {
            kinds: Vec::new(alloc),
        }
    }

    /// The same, in memory of its own.
    pub fn copy(&self) -> Result<Shape, AllocError>
        ensures { IfOk result (λ s. s ≡ self.now) }
    {
        Ok(Shape {
            kinds: self.kinds.clone()?,
        })
    }

    /// One entry more on the top.
    pub fn push(&mut self, kind: EntryKind) -> Result<(), AllocError>
        ensures { OnOk result (self.new ≡ kind ∷ self.old) }
    {
        self.kinds.push(kind)?;
        Ok(())
    }

    /// The top, taken off.
    pub fn pop(&mut self) -> Option<EntryKind>
        ensures { MatchOption result (self.old ≡ []) (λ kind. self.old ≡ kind ∷ self.new) }
    {
        self.kinds.pop()
    }

    /// Whether both have the same kinds in the same order.
    pub fn is_same(&self, other: &Shape) -> bool
        ensures { IsTrue result ↔ self.now ≡ other.now }
    {
        are_same(&self.kinds, &other.kinds)
    }

    /// So many entries.
    pub fn len(&self) -> usize
        ensures { result ≡ length self.now }
    {
        self.kinds.len()
    }

    /// Whether nothing is on it since its entry's beginning.
    pub fn is_empty(&self) -> bool
        ensures { IsTrue result ↔ self.now ≡ [] }
    {
        self.kinds.is_empty()
    }
}

pub(crate) fn is_kind(found: EntryKind, kind: EntryKind) -> bool
    ensures { result ≡ same_kind kind found }
{
    match kind {
        EntryKind::Int => matches!(found, EntryKind::Int),
        EntryKind::Log => matches!(found, EntryKind::Log),
        EntryKind::Spot => matches!(found, EntryKind::Spot),
    }
}

fn are_same(a: &[EntryKind], b: &[EntryKind]) -> bool
    ensures { IsTrue result ↔ a.now ≡ b.now }
{
    if a.len() != b.len() {
        return false;
    }
    for (i, kind) in a.iter().enumerate() {
        if !is_kind(b[i], *kind) {
            return false;
        }
    }
    true
}
