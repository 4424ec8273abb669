// What is known at an instruction, and behind it.
ghost use Rattle.std.specs.Prelude.{◌≡◌, ◌↔◌, IsTrue, IfOk, Some, None, if◌then◌else◌};
ghost use Rattle.stack_code.specs.Views.{instruction_of};
ghost use Rattle.stack_code.specs.ValidCode as valid;
ghost use Rattle.stack_code.specs.ValidCode.{same_way, allows, opens, pops, pop_if, taken, onto, after, root};

use crate::effect::effect_of;
use crate::shape::is_kind;
use crate::{Effect, EntryKind, Op, Shape};
use f66_tree::Way;
use std::alloc::{AllocError, Global};

/// What holds at an instruction, whatever way leads there.
#[derive(Drop)]
pub struct Fact {
    /// The stack since its entry's beginning.
    pub shape: Shape,
    /// How many dummies the frame has.
    pub count: u32,
    /// The plan, by its number, and the way of the record statement that is open.
    pub format: Option<(u32, Way)>,
}

impl Fact {
    /// What holds at an entry with so many dummies.
    pub fn root(alloc: Global, count: u32) -> Fact
        ensures { result ≡ root count }
    {
        Fact {
            shape: Shape::new(alloc),
            count,
            format: None,
        }
    }

    /// The same, in memory of its own.
    pub fn copy(&self) -> Result<Fact, AllocError>
        ensures { IfOk result (λ f. f ≡ self.now) }
    {
        Ok(Fact {
            shape: self.shape.copy()?,
            count: self.count,
            format: self.format,
        })
    }

    /// Whether two ways that meet agree.
    pub fn is_same(&self, other: &Fact) -> bool
        ensures { IsTrue result ↔ self.now ≡ other.now }
    {
        self.shape.is_same(&other.shape)
            && self.count == other.count
            && is_same_format(self.format, other.format)
    }

    /// Whether the instruction may stand where this holds, but for the stack and the records.
    fn allows(&self, op: &Op) -> bool
        ensures { result ≡ allows (instruction_of op.now) self.now }
    {
        match op {
            Op::Dummy(n) => *n < self.count,
            Op::Return => self.shape.is_empty(),
            _ => true,
        }
    }

    /// What holds behind the instruction; None where it does not find what it needs.
    pub fn behind(&self, op: &Op) -> Result<Option<Fact>, AllocError>
        ensures { IfOk result (λ o. o ≡ after (instruction_of op.now) self.now) }
    {
        if !self.allows(op) {
            return Ok(None);
        }
        let Some(format) = opened(op, self.format) else {
            return Ok(None);
        };
        let effect = effect_of(op);
        let mut shape = self.shape.copy()?;
        if !take(&mut shape, &effect) {
            return Ok(None);
        }
        if let Some(kind) = effect.gives {
            shape.push(kind)?;
        }
        Ok(Some(Fact {
            shape,
            count: self.count,
            format,
        }))
    }
}

fn is_same_format(a: Option<(u32, Way)>, b: Option<(u32, Way)>) -> bool
    ensures { IsTrue result ↔ a ≡ b }
{
    match a {
        None => b.is_none(),
        Some(p) => match b {
            None => false,
            Some(q) => p.0 == q.0 && is_same(p.1, q.1),
        },
    }
}

fn is_same(a: Way, b: Way) -> bool
    ensures { result ≡ same_way a b }
{
    match a {
        Way::Reading => match b {
            Way::Reading => true,
            Way::Writing => false,
        },
        Way::Writing => match b {
            Way::Reading => false,
            Way::Writing => true,
        },
    }
}

fn within(way: Way, format: Option<(u32, Way)>) -> Option<Option<(u32, Way)>>
    ensures { result ≡ valid.within way format }
{
    match format {
        Some(open) if is_same(open.1, way) => Some(Some(open)),
        _ => None,
    }
}

fn closed(format: Option<(u32, Way)>) -> Option<Option<(u32, Way)>>
    ensures { result ≡ valid.closed format }
{
    match format {
        Some(_) => None,
        None => Some(None),
    }
}

fn begun(plan: u32, way: Way, format: Option<(u32, Way)>) -> Option<Option<(u32, Way)>>
    ensures { result ≡ valid.begun plan way format }
{
    match format {
        Some(_) => None,
        None => Some(Some((plan, way))),
    }
}

/// The open record statement behind the instruction; None where it may not stand there.
fn opened(op: &Op, format: Option<(u32, Way)>) -> Option<Option<(u32, Way)>>
    ensures { result ≡ opens (instruction_of op.now) format }
{
    match op {
        Op::Begin(_) => closed(format),
        Op::Call(_, _) => closed(format),
        Op::Return => closed(format),
        Op::WriteStart(plan) => begun(*plan, Way::Writing, format),
        Op::ReadStart(plan) => begun(*plan, Way::Reading, format),
        Op::PutItem(_) => within(Way::Writing, format),
        Op::TakeItem(_) => within(Way::Reading, format),
        Op::PutRow(_, _) => within(Way::Writing, format),
        Op::TakeRow(_, _) => within(Way::Reading, format),
        Op::Finish => match format {
            Some(_) => Some(None),
            None => None,
        },
        _ => Some(format),
    }
}

/// Takes a value off the stack, if it is to; whether there is one.
fn take_value(shape: &mut Shape, wanted: bool) -> bool
    ensures { pop_if wanted shape.old ≡ (if result then Some shape.new else None) }
{
    if !wanted {
        return true;
    }
    match shape.pop() {
        Some(EntryKind::Int) => true,
        Some(EntryKind::Log) => true,
        _ => false,
    }
}

/// Takes so many entries of this kind off the stack; whether they are there.
fn take_kind(shape: &mut Shape, kind: EntryKind, count: u32) -> bool
    ensures { pops kind count shape.old ≡ (if result then Some shape.new else None) }
{
    let mut left = count;
    while left > 0 {
        match shape.pop() {
            Some(found) if is_kind(found, kind) => {}
            _ => return false,
        }
        left -= 1;
    }
    true
}

/// Takes off the stack what the instruction takes; whether it is there.
fn take(shape: &mut Shape, effect: &Effect) -> bool
    ensures { taken effect.now shape.old ≡ (if result then Some shape.new else None) }
{
    take_value(shape, effect.value)
        && take_kind(shape, EntryKind::Int, effect.ints)
        && take_kind(shape, EntryKind::Log, effect.logs)
        && take_kind(shape, EntryKind::Spot, effect.spots)
}
