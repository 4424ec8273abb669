// The rings around a statement.
ghost use Rattle.std.specs.Prelude.{◌≡◌};
ghost use Rattle.efl_program.specs.Meaning.{leaves, pred_of, turns_one};
ghost use Rattle.efl_routes.specs.Statements.{again_depth, leave_depth};
ghost use Rattle.routes.specs.Code.{label_behind};
ghost use Rattle.efl_emit.specs.Rings.{around_of, behind_of};

use efl_tree::LoopKind;

/// A ring of no statement of the source, one behind which a loop or switch is left, or one behind which its next turn begins.
#[derive(Clone, Copy)]
pub enum RingKind {
    Other,
    Behind(LoopKind),
    Next(LoopKind),
}

/// The rings around a statement, from the inside out, each with the label behind it.
#[derive(Clone, Copy, Drop)]
pub enum Rings<'a> {
    Outside,
    Ring(RingKind, u32, &'a Rings<'a>),
}

/// The label behind the ring that a `break` leaves, and 0 where there is none.
pub fn break_label(rings: &Rings, kind: Option<LoopKind>, count: u32) -> u32
    ensures { result ≡ label_behind (behind_of rings.now) (leave_depth (around_of rings.now) kind (pred_of count)) }
{
    leave_label(rings, kind, count.saturating_sub(1))
}

/// The label behind the ring that a `next` leaves, and 0 where there is none.
pub fn next_label(rings: &Rings, kind: Option<LoopKind>, count: u32) -> u32
    ensures { result ≡ label_behind (behind_of rings.now) (again_depth (around_of rings.now) kind (pred_of count)) }
{
    again_label(rings, kind, count.saturating_sub(1))
}

fn leave_label(rings: &Rings, kind: Option<LoopKind>, count: u32) -> u32
    ensures { result ≡ label_behind (behind_of rings.now) (leave_depth (around_of rings.now) kind count) }
{
    match rings {
        Rings::Outside => 0,
        Rings::Ring(RingKind::Behind(other), label, outside) => {
            if !leaves(kind, *other) {
                leave_label(outside, kind, count)
            } else if count == 0 {
                *label
            } else {
                leave_label(outside, kind, count - 1)
            }
        }
        Rings::Ring(_, _, outside) => leave_label(outside, kind, count),
    }
}

fn again_label(rings: &Rings, kind: Option<LoopKind>, count: u32) -> u32
    ensures { result ≡ label_behind (behind_of rings.now) (again_depth (around_of rings.now) kind count) }
{
    match rings {
        Rings::Outside => 0,
        Rings::Ring(RingKind::Next(other), label, outside) => {
            if !turns_one(kind, *other) {
                again_label(outside, kind, count)
            } else if count == 0 {
                *label
            } else {
                again_label(outside, kind, count - 1)
            }
        }
        Rings::Ring(_, _, outside) => again_label(outside, kind, count),
    }
}

// Whether a `break` of this kind leaves a loop or switch.
fn leaves(kind: Option<LoopKind>, other: LoopKind) -> bool
    ensures { result ≡ leaves kind other }
{
    match kind {
        None => true,
        Some(kind) => kind == other,
    }
}

// Whether a `next` of this kind takes a loop; it takes no switch.
fn turns_one(kind: Option<LoopKind>, other: LoopKind) -> bool
    ensures { result ≡ turns_one kind other }
{
    match other {
        LoopKind::Switch => false,
        _ => leaves(kind, other),
    }
}
