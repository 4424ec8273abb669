// The loops and switches around a part, and whether `break` and `next` have theirs.
ghost use Rattle.std.specs.Prelude.{◌≡◌, nat_le, length, filter};
ghost use Rattle.efl_scope.specs.ScopeRules.{are_around, is_counted, is_turned};
ghost use Rattle.efl_scope.specs.LoopViews.{loops_of};

use efl_tree::LoopKind;

/// The loops and switches around a part, from the inside.
#[derive(Clone, Copy, Drop)]
pub enum Loops<'a> {
    Outside,
    Inside(LoopKind, &'a Loops<'a>),
}

/// Whether a `break` with this count and kind has its loop or switch.
pub fn finds_break(loops: &Loops, count: u32, kind: Option<LoopKind>) -> bool
    ensures { result ≡ are_around count (filter (is_counted kind) (loops_of loops.now)) }
{
    1 <= count && has_left(loops, kind, count)
}

/// Whether a `next` with this count and kind has its loop.
pub fn finds_next(loops: &Loops, count: u32, kind: Option<LoopKind>) -> bool
    ensures { result ≡ are_around count (filter (is_turned kind) (loops_of loops.now)) }
{
    1 <= count && has_turned(loops, kind, count)
}

// Whether so many loops and switches of this kind are around.
fn has_left(loops: &Loops, kind: Option<LoopKind>, count: u32) -> bool
    ensures { result ≡ nat_le count (length (filter (is_counted kind) (loops_of loops.now))) }
{
    if count == 0 {
        return true;
    }
    match loops {
        Loops::Outside => false,
        Loops::Inside(around, outside) => {
            let rest = if is_counted(kind, *around) {
                count - 1
            } else {
                count
            };
            has_left(outside, kind, rest)
        }
    }
}

// Whether so many loops of this kind are around.
fn has_turned(loops: &Loops, kind: Option<LoopKind>, count: u32) -> bool
    ensures { result ≡ nat_le count (length (filter (is_turned kind) (loops_of loops.now))) }
{
    if count == 0 {
        return true;
    }
    match loops {
        Loops::Outside => false,
        Loops::Inside(around, outside) => {
            let rest = if is_turned(kind, *around) {
                count - 1
            } else {
                count
            };
            has_turned(outside, kind, rest)
        }
    }
}

// Whether this kind, or any, counts a loop or switch.
fn is_counted(kind: Option<LoopKind>, around: LoopKind) -> bool
    ensures { result ≡ is_counted kind around }
{
    match kind {
        None => true,
        Some(LoopKind::While) => matches!(around, LoopKind::While),
        Some(LoopKind::For) => matches!(around, LoopKind::For),
        Some(LoopKind::Repeat) => matches!(around, LoopKind::Repeat),
        Some(LoopKind::Do) => matches!(around, LoopKind::Do),
        Some(LoopKind::Switch) => matches!(around, LoopKind::Switch),
    }
}

// The same of loops alone.
fn is_turned(kind: Option<LoopKind>, around: LoopKind) -> bool
    ensures { result ≡ is_turned kind around }
{
    match around {
        LoopKind::Switch => false,
        _ => is_counted(kind, around),
    }
}
