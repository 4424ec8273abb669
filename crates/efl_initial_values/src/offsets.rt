// The number of a place in its variable, of which all above the limit count as one more than a variable has.
ghost use Rattle.std.specs.Prelude.{◌≡◌, List};
ghost use Rattle.std.specs.Option.{option_map};
ghost use Rattle.efl_tree.specs.Syntax.{Member as MemberStep};
ghost use Rattle.efl_tree.specs.Views.{exprs_of, steps_of, place_of, step_then};
ghost use Rattle.efl_scope.specs.DataTypes.{DataType as TypeSeen, Members as MembersSeen};
ghost use Rattle.efl_types.specs.Presets.{places_before as places_before_seen, before_member as before_member_seen, member_offset as member_offset_seen, offset_behind as offset_behind_seen, offset as offset_seen};
ghost use Rattle.efl_scoped.specs.Numbers.{Table};
ghost use Rattle.efl_scoped.specs.Told.{capped};
ghost use Rattle.efl_expressions.specs.declared.types.Structure as structures;
ghost use Rattle.efl_expressions.specs.TypeViews.{IsType, AreMembers};
ghost use Rattle.efl_initial_values.specs.Offsets.{on_from, GoesOn, ReachesElement};

use crate::subscripts::{LIMIT, add, elements_before, multiply};
use efl_expressions::{DataType, Element, Member, Structures};
use efl_tree::{EflExpr, EflPlace, EflStep};

/// A place within a variable: its type, and how many places stand before it.
#[derive(Clone, Copy, Drop)]
pub struct Reached<'a> {
    pub kind: DataType<'a>,
    pub before: u64,
}

/// The number of a place in a variable of this type.
pub fn offset(structures: &Structures, kind: &DataType, place: &EflPlace) -> Option<u64>
    ensures { (f : Table) (t : TypeSeen) → IsType f structures.now.list.items t kind.now → result ≡ option_map capped (offset_seen t (place_of place.now)) }
{
    match to_element(structures, 0, kind, &place.subscripts) {
        None => None,
        Some(reached) => offset_behind(structures, reached, &place.steps),
    }
}

/// The number of what steps lead to.
fn offset_behind<'a>(
    structures: &Structures<'a>,
    first: Reached<'a>,
    steps: &[EflStep],
) -> Option<u64>
    ensures { (f : Table) (t : TypeSeen) → IsType f structures.now.list.items t first.entry.kind → result ≡ on_from first.entry.before (offset_behind_seen t (steps_of steps.now)) }
{
    let mut reached = first;
    for step in steps {
        match go_on(structures, &reached, step) {
            None => return None,
            Some(next) => reached = next,
        }
    }
    Some(reached.before.min(LIMIT))
}

/// A step on from a place.
fn go_on<'a>(structures: &Structures<'a>, from: &Reached<'a>, step: &EflStep) -> Option<Reached<'a>>
    ensures { (f : Table) (t : TypeSeen) → IsType f structures.now.list.items t from.now.kind → GoesOn f structures.now.list.items t from.now.before (step_then step.now) result }
{
    match step {
        EflStep::Overlay(_) => None,
        EflStep::Member(name, subscripts) => to_member(
            structures,
            from,
            name.as_bytes(),
            subscripts,
        ),
    }
}

fn to_member<'a>(
    structures: &Structures<'a>,
    from: &Reached<'a>,
    name: &[u8],
    subscripts: &[EflExpr],
) -> Option<Reached<'a>>
    ensures { (f : Table) (t : TypeSeen) → IsType f structures.now.list.items t from.now.kind → GoesOn f structures.now.list.items t from.now.before (MemberStep name.now (exprs_of subscripts.now)) result }
{
    match member_offset(structures, name, &from.kind) {
        None => None,
        Some(offset) => {
            let before = add(from.before, offset);
            let member = structures.member(name, &from.kind);
            to_element(structures, before, &member, subscripts)
        }
    }
}

/// From a place to one of its elements, where subscripts stand.
fn to_element<'a>(
    structures: &Structures<'a>,
    before: u64,
    kind: &DataType<'a>,
    subscripts: &[EflExpr],
) -> Option<Reached<'a>>
    ensures { (f : Table) (t : TypeSeen) → IsType f structures.now.list.items t kind.now → ReachesElement f structures.now.list.items t before (exprs_of subscripts.now) result }
{
    match places_before(structures, kind, subscripts) {
        None => None,
        Some(places) => Some(Reached {
            kind: structures.subscripted(kind, subscripts.len()),
            before: add(before, places),
        }),
    }
}

/// How many places stand before an element of a type.
fn places_before(structures: &Structures, kind: &DataType, subscripts: &[EflExpr]) -> Option<u64>
    ensures { (f : Table) (t : TypeSeen) → IsType f structures.now.list.items t kind.now → result ≡ option_map capped (places_before_seen t (exprs_of subscripts.now)) }
{
    if subscripts.is_empty() {
        return Some(0);
    }
    match elements_before(kind.bounds, subscripts) {
        None => None,
        Some(before) => Some(multiply(before, structures.element(kind).summary.places)),
    }
}

/// How many places of a structure stand before a member.
fn member_offset(structures: &Structures, name: &[u8], kind: &DataType) -> Option<u64>
    ensures { (f : Table) (t : TypeSeen) → IsType f structures.now.list.items t kind.now → result ≡ option_map capped (member_offset_seen name.now t) }
{
    if !kind.bounds.is_empty() {
        return None;
    }
    match kind.element {
        Element::Structured(number) => match structures.list.get(number) {
            None => None,
            Some(structure) => before_member(name, &structure.members),
        },
        _ => None,
    }
}

fn before_member(name: &[u8], members: &[Member]) -> Option<u64>
    ensures { (f : Table) (ss : List structures.Structure) (ms : MembersSeen) → AreMembers f ss ms members.now → result ≡ option_map capped (before_member_seen name.now ms) }
{
    let mut before: u64 = 0;
    for member in members {
        if name == member.name {
            return Some(before.min(LIMIT));
        }
        before = add(before, member.kind.summary.places);
    }
    None
}
