// Ranks of the units of a program, which fall along each call.
ghost use Rattle.std.specs.Prelude.{◌≡◌, ◌<◌, ◌+◌, ◌^◌, ℕ, length, slice_index_or, sum, IfOk, MatchBool};
ghost use Rattle.call_cycles.specs.Cycles.{AreWithin, Fall};
ghost use Rattle.code_layout.specs.Ranks.{CanFall, CanRise, IsLifted};

use call_cycles::Edge;
use std::alloc::{AllocError, Global};

/// Lifts the beginning of an edge above its end. Tells whether it was not yet above it.
fn lift_one(ranks: &mut [usize], edge: &Edge) -> bool
    requires from { edge.now.from < length ranks.old }
    requires to { edge.now.to < length ranks.old }
    requires small { slice_index_or ranks.old edge.now.to 0 + 1 < 2 ^ 64 }
    ensures { IsLifted edge.now ranks.old ranks.new result }
{
    if ranks[edge.from] <= ranks[edge.to] {
        ranks[edge.from] = ranks[edge.to] + 1;
        return true;
    }
    false
}

/// Lifts the beginning of each edge above its end, edge by edge. Tells whether each was above it already.
fn lift(ranks: &mut [usize], edges: &[Edge]) -> bool
    requires within { AreWithin (length ranks.old) edges.now }
    requires rise { CanRise edges.now ranks.old }
    ensures rise { CanRise edges.now ranks.new }
    ensures done { MatchBool result (Fall ranks.new edges.now) (sum ranks.old < sum ranks.new) }
{
    let mut quiet = true;
    for edge in edges {
        let lifted = lift_one(ranks, edge);
        quiet = quiet && !lifted;
    }
    quiet
}

/// Lifts until each edge falls.
fn lift_all(ranks: &mut [usize], edges: &[Edge])
    requires within { AreWithin (length ranks.old) edges.now }
    requires rise { CanRise edges.now ranks.old }
    ensures { Fall ranks.new edges.now }
{
    while !lift(ranks, edges) {}
}

/// Zeros for so many nodes.
fn zeros(alloc: Global, nodes: usize) -> Result<Vec<usize>, AllocError>
    ensures many { IfOk result (λ v. length v.items ≡ nodes) }
    ensures none { IfOk result (λ v. (u : ℕ) → slice_index_or v.items u 0 ≡ 0) }
{
    let mut ranks = Vec::new(alloc);
    for _node in 0..nodes {
        ranks.push(0)?;
    }
    Ok(ranks)
}

/// Numbers of so many nodes that fall along each edge, where there are some.
pub(crate) fn falling(alloc: Global, nodes: usize, edges: &[Edge]) -> Result<Vec<usize>, AllocError>
    requires within { AreWithin nodes edges.now }
    requires can { CanFall nodes edges.now }
    ensures many { IfOk result (λ v. length v.items ≡ nodes) }
    ensures fall { IfOk result (λ v. Fall v.items edges.now) }
{
    let mut ranks = zeros(alloc, nodes)?;
    lift_all(&mut ranks, edges);
    Ok(ranks)
}
