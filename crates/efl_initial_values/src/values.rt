// Whether values are of the kinds of the places that they fill.
ghost use Rattle.std.specs.Prelude.{◌≡◌, ℕ, ◌*◌, ◌-◌, ◌<◌, ◌≤◌, nat_lt, nat_le, not, ◌&&◌, length, slice_index_or, false, List, [], ◌∷◌, drop};
ghost use Rattle.efl_scope.specs.DataTypes.{DataType as TypeSeen, Members as MembersSeen, same_kind, places as places_seen, all_places, is_large};
ghost use Rattle.efl_types.specs.Presets.{constant_kind, repeated, kinds_of, kinds_in, misfit};
ghost use Rattle.efl_scoped.specs.Numbers.{Table};
ghost use Rattle.efl_expressions.specs.declared.types.Structure as structures;
ghost use Rattle.efl_expressions.specs.TypeViews.{Is, IsType, AreMembers};
ghost use Rattle.efl_initial_values.specs.Filling.{PassesOver, Passes, depth as depth_seen, depth_in};

use efl_expressions::{DataType, Element, Member, Structures, is_same};
use efl_tree::EflConst;
use ground::Kind;

/// Which value comes next, and how many places it has filled.
#[derive(Clone, Copy, Drop)]
pub struct Next {
    pub number: usize,
    pub used: u32,
}

/// How many places are passed over first, and which value comes next.
#[derive(Clone, Copy, Drop)]
pub struct Progress {
    pub skip: u64,
    pub next: Next,
}

/// Whether a value misfits, where they fill a variable from the place with this number on.
pub fn misfits(
    structures: &Structures,
    kind: &DataType,
    from: u64,
    values: &[(u32, EflConst)],
) -> bool
    ensures { (f : Table) (t : TypeSeen) → IsType f structures.now.list.items t kind.now → is_large t ≡ false → result ≡ misfit (drop from (kinds_of t)) values.now }
{
    let next = Next { number: 0, used: 0 };
    let progress = Progress { skip: from, next };
    let depth = structures.list.len();
    match pass_elements(
        structures,
        values,
        progress,
        kind.element,
        kind.summary.places,
        depth,
    ) {
        None => true,
        Some(_passed) => false,
    }
}

/// The values go over elements of one type, which have so many places.
#[cycle(pass)]
fn pass_elements(
    structures: &Structures,
    values: &[(u32, EflConst)],
    from: Progress,
    element: Element,
    total: u64,
    depth: usize,
) -> Option<Progress>
    ensures { (f : Table) (t : TypeSeen) (n : ℕ) → Is f structures.now.list.items t [] element → depth_seen t ≤ depth → total ≡ n * places_seen t → total ≤ 32767 → Passes values.now from (repeated n (kinds_of t)) result }
{
    if total == 0 {
        return Some(from);
    }
    match element {
        Element::NoType => Some(from),
        Element::Scalar(kind) => pass(values, from, kind, total),
        Element::Structured(number) => match structures.list.get(number) {
            None => Some(from),
            Some(structure) => {
                if depth == 0 {
                    return Some(from);
                }
                pass_structures(
                    structures,
                    values,
                    from,
                    &structure.members,
                    structure.summary.places,
                    total,
                    depth - 1,
                )
            }
        },
    }
}

/// The values go over structures with these members, of which each has so many places.
#[cycle(pass)]
fn pass_structures(
    structures: &Structures,
    values: &[(u32, EflConst)],
    from: Progress,
    members: &[Member],
    places: u64,
    total: u64,
    depth: usize,
) -> Option<Progress>
    ensures { (f : Table) (ms : MembersSeen) (n : ℕ) → AreMembers f structures.now.list.items ms members.now → depth_in ms ≤ depth → places ≡ all_places ms → total ≡ n * places → total ≤ 32767 → Passes values.now from (repeated n (kinds_in ms)) result }
{
    if places == 0 {
        return Some(from);
    }
    let count = total / places;
    let skipped = (from.skip / places).min(count);
    let skip = without(from.skip, skipped, places);
    let mut progress = Progress {
        skip,
        next: from.next,
    };
    let mut left = count - skipped;
    while left > 0 {
        if is_done(values, progress) {
            return Some(progress);
        }
        match pass_members(structures, values, progress, members, depth) {
            None => return None,
            Some(passed) => progress = passed,
        }
        left -= 1;
    }
    Some(progress)
}

#[cycle(pass)]
fn pass_members(
    structures: &Structures,
    values: &[(u32, EflConst)],
    from: Progress,
    members: &[Member],
    depth: usize,
) -> Option<Progress>
    ensures { (f : Table) (ms : MembersSeen) → AreMembers f structures.now.list.items ms members.now → depth_in ms ≤ depth → all_places ms ≤ 32767 → Passes values.now from (kinds_in ms) result }
{
    let mut progress = from;
    for member in members {
        match pass_elements(
            structures,
            values,
            progress,
            member.kind.element,
            member.kind.summary.places,
            depth,
        ) {
            None => return None,
            Some(passed) => progress = passed,
        }
    }
    Some(progress)
}

/// The places that are still to be passed over, where so many elements are.
fn without(skip: u64, elements: u64, places: u64) -> u64
    ensures { result ≡ skip - elements * places }
{
    skip.saturating_sub(elements.saturating_mul(places))
}

/// Whether no value is left.
fn is_done(values: &[(u32, EflConst)], progress: Progress) -> bool
    ensures { result ≡ nat_le (length values.now) progress.next.number }
{
    values.len() <= progress.next.number
}

/// The values go over so many places of one kind.
fn pass(values: &[(u32, EflConst)], from: Progress, kind: Kind, count: u64) -> Option<Progress>
    ensures { Passes values.now from (repeated count (kind ∷ [])) result }
{
    let skipped = from.skip.min(count);
    match pass_over(values, from.next, kind, count - skipped) {
        None => None,
        Some(next) => Some(Progress {
            skip: from.skip - skipped,
            next,
        }),
    }
}

fn pass_over(values: &[(u32, EflConst)], from: Next, kind: Kind, count: u64) -> Option<Next>
    ensures { PassesOver values.now from (repeated count (kind ∷ [])) result }
{
    let mut used = from.used;
    let mut left = count;
    for number in from.number..values.len() {
        if left == 0 {
            return Some(Next { number, used });
        }
        let value = value_at(values, number);
        let run = run_of(value.0, used);
        if is_misfit(kind, run, value.1) {
            return None;
        }
        if left < run {
            let used = used_by(value.0, run, left);
            return Some(Next { number, used });
        }
        left -= run;
        used = 0;
    }
    Some(Next {
        number: values.len(),
        used: 0,
    })
}

fn value_at(values: &[(u32, EflConst)], number: usize) -> (u32, EflConst)
    requires { number < length values.now }
    ensures { result ≡ slice_index_or values.now number result }
{
    values[number]
}

/// How many places a value with this count is still to fill.
fn run_of(count: u32, used: u32) -> u64
    ensures { result ≡ count - used }
{
    u64::from(count.saturating_sub(used))
}

/// How many places a value has filled, where of these so many more are filled.
fn used_by(count: u32, run: u64, filled: u64) -> u32
    requires { run ≤ count }
    ensures { result ≡ count - (run - filled) }
{
    count - run.saturating_sub(filled) as u32
}

/// Whether a constant that fills places is of another kind than they are.
fn is_misfit(kind: Kind, run: u64, constant: EflConst) -> bool
    ensures { result ≡ (nat_lt 0 run && not (same_kind kind (constant_kind constant))) }
{
    run > 0 && !is_same(kind, kind_of(constant))
}

fn kind_of(constant: EflConst) -> Kind
    ensures { result ≡ constant_kind constant }
{
    match constant {
        EflConst::Int(_) => Kind::Integer,
        EflConst::Truth(_) => Kind::Logical,
    }
}
