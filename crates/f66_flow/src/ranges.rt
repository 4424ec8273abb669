// The ranges of DO statements.
ghost use Rattle.std.specs.Prelude.{◌≡◌, ◌<◌, ◌≤◌, ℕ, IfOk, length, None, map, option_map, slice_index_or, false};
ghost use Rattle.f66_tree.specs.Views.{act_of};
ghost use Rattle.f66_flow.specs.Ranges as ranges;
ghost use Rattle.f66_flow.specs.Innermost as stack_of;
ghost use Rattle.f66_flow.specs.Under.{lines_named};

use crate::Labels;
use f66_tree::StmtKind;
use std::alloc::{AllocError, Global};

/// Where the range that a statement begins ends, and 0 where it begins none.
pub(crate) fn range_end(labels: &Labels, kind: &StmtKind) -> usize
    ensures { result ≡ ranges.range_end (lines_named labels.now) (act_of kind.now) }
{
    match kind {
        StmtKind::Loop(label, _) => labels.place(*label).unwrap_or(0),
        _ => 0,
    }
}

/// Where the range that each statement begins ends.
pub(crate) fn range_ends(alloc: Global, labels: &Labels) -> Result<Vec<usize>, AllocError>
    ensures { IfOk result (λ ends. ends.items ≡ map (λ s. ranges.range_end (lines_named labels.now) (act_of s.kind)) labels.now.statements.now) }
{
    let mut ends = Vec::new(alloc);
    for statement in labels.statements {
        ends.push(range_end(labels, &statement.kind))?;
    }
    Ok(ends)
}

/// Whether the range on top of a stack ends before a place.
fn ends_before(stack: &Vec<(usize, usize)>, place: usize) -> bool
    ensures { result ≡ stack_of.ends_before place (stack_of.top_of stack.now.items) }
{
    match stack.last() {
        Some(top) => top.1 < place,
        None => false,
    }
}

/// Drops the ranges on top of a stack that end before a place.
fn drop_ended(stack: &mut Vec<(usize, usize)>, place: usize)
    ensures kept { (q : ℕ) → place ≤ q → stack_of.last_range q stack.new.items ≡ stack_of.last_range q stack.old.items }
    ensures top { stack_of.ends_before place (stack_of.top_of stack.new.items) ≡ false }
{
    while ends_before(stack, place) {
        stack.pop();
    }
}

/// Where the range on top of a stack begins.
fn beginning_on_top(stack: &Vec<(usize, usize)>) -> Option<usize>
    ensures { result ≡ option_map (λ t. t.0) (stack_of.top_of stack.now.items) }
{
    match stack.last() {
        Some(top) => Some(top.0),
        None => None,
    }
}

/// The innermost range around each place, by where the range that each place begins ends.
pub(crate) fn innermost_ranges(
    alloc: Global,
    ends: &[usize],
) -> Result<Vec<Option<usize>>, AllocError>
    ensures size { IfOk result (λ around. length around.items ≡ length ends.now) }
    ensures innermost { IfOk result (λ around. (p : ℕ) → p < length ends.now → slice_index_or around.items p None ≡ stack_of.innermost ends.now p) }
{
    let mut stack: Vec<(usize, usize)> = Vec::new(alloc);
    let mut around = Vec::new(alloc);
    for (place, end) in ends.iter().enumerate() {
        drop_ended(&mut stack, place);
        around.push(beginning_on_top(&stack))?;
        stack.push((place, *end))?;
    }
    Ok(around)
}
