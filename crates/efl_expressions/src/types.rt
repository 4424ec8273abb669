// Types in memory.
ghost use Rattle.std.specs.Prelude.{◌≡◌, ◌||◌, List, []};
ghost use Rattle.efl_scope.specs.DataTypes.{DataType as TypeSeen, Scalar as ScalarSeen, Members as MembersSeen, Structured as StructureSeen, NoType as NothingSeen, agrees as agrees_seen, is_faulty as is_faulty_seen};
ghost use Rattle.efl_types.specs.Types.{subscripted as subscripted_seen, member_type, in_members};
ghost use Rattle.efl_types.specs.Expressions.{element_of, is_among as is_among_seen, may_lie as may_lie_seen, takes_subscripts as takes_subscripts_seen, has_member as has_member_seen};
ghost use Rattle.efl_tree.specs.Syntax.{Text};
ghost use Rattle.efl_scoped.specs.Numbers.{Table};
ghost use Rattle.efl_scoped.specs.Told.{Tells};
ghost use Rattle.efl_expressions.specs.declared.types.Structure as structures;
ghost use Rattle.efl_expressions.specs.Forms.{form_of};
ghost use Rattle.efl_expressions.specs.TypeViews.{Is, IsType, AreMembers, TellsApart};

use crate::{Form, lacks_type};
use efl_scoped::{Summary, integer, logical, no_type};
use efl_tree::EflBound;
use ground::Kind;

/// A type. An array has bounds and the type of its elements. Contracts see by `IsType` which type it is.
#[derive(Clone, Copy, Drop)]
pub struct DataType<'a> {
    pub element: Element,
    pub bounds: &'a [EflBound],
    pub summary: Summary,
}

/// A type that is no array's.
#[derive(Clone, Copy, Drop)]
pub enum Element {
    NoType,
    Scalar(Kind),
    /// By its number among the structures.
    Structured(usize),
}

/// A structure: what is told of it, and its members in order.
#[derive(Drop)]
pub struct Structure<'a> {
    pub summary: Summary,
    pub members: Vec<Member<'a>>,
}

/// A member of a structure.
#[derive(Clone, Copy, Drop)]
pub struct Member<'a> {
    pub name: &'a [u8],
    pub kind: DataType<'a>,
}

/// The structures of a program.
#[derive(Drop)]
pub struct Structures<'a> {
    pub list: Vec<Structure<'a>>,
}

impl<'a> Structures<'a> {
    /// What is told of what is no array.
    fn summary(&self, element: Element) -> Summary
        ensures { (f : Table) (t : TypeSeen) → Is f self.now.list.items t [] element → Tells f t result }
    {
        match element {
            Element::NoType => no_type(),
            Element::Scalar(kind) => scalar(kind),
            Element::Structured(number) => match self.list.get(number) {
                None => no_type(),
                Some(structure) => structure.summary,
            },
        }
    }

    /// The type of an array's elements; of what is no array its own.
    pub fn element(&self, kind: &DataType<'a>) -> DataType<'a>
        ensures { (f : Table) (t : TypeSeen) → IsType f self.now.list.items t kind.now → IsType f self.now.list.items (element_of t) result }
    {
        if kind.bounds.is_empty() {
            return *kind;
        }
        DataType {
            element: kind.element,
            bounds: &[],
            summary: self.summary(kind.element),
        }
    }

    /// A type with so many subscripts.
    pub fn subscripted(&self, kind: &DataType<'a>, count: usize) -> DataType<'a>
        ensures { (f : Table) (t : TypeSeen) → IsType f self.now.list.items t kind.now → IsType f self.now.list.items (subscripted_seen t count) result }
    {
        if count == 0 {
            return *kind;
        }
        if count == kind.bounds.len() {
            return self.element(kind);
        }
        nothing()
    }

    /// The type of a structure's member of this name.
    pub fn member(&self, name: &[u8], kind: &DataType<'a>) -> DataType<'a>
        ensures { (f : Table) (t : TypeSeen) → IsType f self.now.list.items t kind.now → IsType f self.now.list.items (member_type name.now t) result }
    {
        if !kind.bounds.is_empty() {
            return nothing();
        }
        match kind.element {
            Element::Structured(number) => match self.list.get(number) {
                None => nothing(),
                Some(structure) => named(name, &structure.members),
            },
            _ => nothing(),
        }
    }

    /// Whether a type is one of those of members, of which arrays count by their elements.
    fn is_among(&self, kind: Summary, members: &[Member<'a>]) -> bool
        ensures { (f : Table) (t : TypeSeen) (ms : MembersSeen) → TellsApart f → Tells f t kind → AreMembers f self.now.list.items ms members.now → result ≡ is_among_seen t ms }
    {
        for member in members {
            if agrees(kind, self.element(&member.kind).summary) {
                return true;
            }
        }
        false
    }

    /// Whether a structure may be laid over something.
    pub fn may_lie(&self, left: &DataType<'a>, structure: &DataType<'a>) -> bool
        ensures { (f : Table) (t u : TypeSeen) → TellsApart f → IsType f self.now.list.items t left.now → IsType f self.now.list.items u structure.now → result ≡ may_lie_seen t u }
    {
        if lacks_type(form(left)) {
            return true;
        }
        if !structure.bounds.is_empty() {
            return true;
        }
        match structure.element {
            Element::Structured(number) => match self.list.get(number) {
                None => true,
                Some(structure) => self.is_among(self.element(left).summary, &structure.members),
            },
            _ => true,
        }
    }
}

fn scalar(kind: Kind) -> Summary
    ensures { (f : Table) → Tells f (ScalarSeen kind) result }
{
    match kind {
        Kind::Integer => integer(),
        Kind::Logical => logical(),
    }
}

/// The type of what has none.
pub fn nothing<'a>() -> DataType<'a>
    ensures { (f : Table) (ss : List structures.Structure) → IsType f ss NothingSeen result }
{
    DataType {
        element: Element::NoType,
        bounds: &[],
        summary: no_type(),
    }
}

/// The type of the first member of a name.
fn named<'a>(name: &[u8], members: &[Member<'a>]) -> DataType<'a>
    ensures { (f : Table) (ss : List structures.Structure) (ms : MembersSeen) → AreMembers f ss ms members.now → IsType f ss (in_members name.now ms) result }
{
    for member in members {
        if name == member.name {
            return member.kind;
        }
    }
    nothing()
}

/// Whether a member of this type is there, in what has this form.
pub fn has_member(kind: Form, member: Form) -> bool
    ensures { (x : Text) (t : TypeSeen) → form_of t ≡ kind → form_of (member_type x t) ≡ member → result ≡ has_member_seen x t }
{
    match kind {
        Form::NoType => true,
        Form::Structured => !matches!(member, Form::NoType),
        Form::Scalar(_) | Form::Array => false,
    }
}

/// The form of a type.
pub fn form(kind: &DataType) -> Form
    ensures { (f : Table) (ss : List structures.Structure) (t : TypeSeen) → IsType f ss t kind.now → form_of t ≡ result }
{
    if !kind.bounds.is_empty() {
        return Form::Array;
    }
    match kind.element {
        Element::NoType => Form::NoType,
        Element::Scalar(kind) => Form::Scalar(kind),
        Element::Structured(_) => Form::Structured,
    }
}

/// Whether it is right that so many subscripts stand behind a type, where some do.
pub fn takes_subscripts(kind: &DataType, count: usize) -> bool
    ensures { (f : Table) (ss : List structures.Structure) (t : TypeSeen) → IsType f ss t kind.now → result ≡ takes_subscripts_seen t count }
{
    match form(kind) {
        Form::Array => kind.bounds.len() == count,
        Form::NoType => true,
        Form::Scalar(_) | Form::Structured => false,
    }
}

/// Whether types agree.
pub fn agrees(one: Summary, other: Summary) -> bool
    ensures { (f : Table) (t u : TypeSeen) → TellsApart f → Tells f t one → Tells f u other → result ≡ agrees_seen t u }
{
    is_either_faulty(one, other) || one.number == other.number
}

fn is_either_faulty(one: Summary, other: Summary) -> bool
    ensures { (f : Table) (t u : TypeSeen) → Tells f t one → Tells f u other → result ≡ (is_faulty_seen t || is_faulty_seen u) }
{
    is_faulty(one) || is_faulty(other)
}

/// Whether a type has a fault.
pub fn is_faulty(summary: Summary) -> bool
    ensures { (f : Table) (t : TypeSeen) → Tells f t summary → result ≡ is_faulty_seen t }
{
    !summary.sound || summary.places > 32767
}
