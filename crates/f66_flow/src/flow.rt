// What the rules ask of a unit as a whole.
ghost use Rattle.std.specs.Prelude.{◌≡◌, ◌<◌, ℕ, IfOk, length, None, slice_index_or};
ghost use Rattle.std.proofs.Props.{props};
ghost use Rattle.rule_table.specs.Words.{first_place, last_place};
ghost use Rattle.f66_tree.specs.Views.{lines_of};
ghost use Rattle.f66_flow.specs.Acts as acts;
ghost use Rattle.f66_flow.specs.Ranges as ranges;
ghost use Rattle.f66_flow.specs.Innermost as inside;

use crate::labels::{Labels, labels_of};
use crate::order::{first_data, first_executable, last_executable};
use crate::ranges::{innermost_ranges, range_ends};
use f66_tree::Stmt;
use std::alloc::{AllocError, Global};

/// A unit's statements, with what the rules on order, labels and DO ranges ask of them as a whole.
#[derive(Drop)]
pub struct Flow<'a> {
    pub labels: Labels<'a>,
    /// The first executable statement (X3.9-1966, section 7.1).
    pub first: Option<usize>,
    /// The first DATA (section 7.2.2).
    pub initial: Option<usize>,
    /// The last executable statement.
    pub last: Option<usize>,
    /// Where the range that each statement begins ends, and 0 where it begins none (section 7.1.2.8).
    pub ends: Vec<usize>,
    /// The DO whose range is the innermost one around each statement.
    pub around: Vec<Option<usize>>,
    ghost first_is: { first ≡ first_place (λ s. acts.is_executable s.act) (lines_of labels.statements.now) } by { Prim.hlevel props },
    ghost initial_is: { initial ≡ first_place (λ s. acts.is_data s.act) (lines_of labels.statements.now) } by { Prim.hlevel props },
    ghost last_is: { last ≡ last_place (λ s. acts.is_executable s.act) (lines_of labels.statements.now) } by { Prim.hlevel props },
    ghost ends_are: { ends.items ≡ ranges.range_ends (lines_of labels.statements.now) } by { Prim.hlevel props },
    ghost around_size: { length around.items ≡ length labels.statements.now } by { Prim.hlevel props },
    ghost around_are: { (p : ℕ) → p < length labels.statements.now → slice_index_or around.items p None ≡ inside.innermost ends.items p } by { Prim.hlevel props },
}

impl<'a> Flow<'a> {
    /// Where the range that the statement at a place begins ends.
    pub(crate) fn range_end(&self, place: usize) -> usize
        ensures { result ≡ ranges.end_at (ranges.range_ends (lines_of self.now.labels.statements.now)) place }
    {
        self.ends.get(place).copied().unwrap_or(0)
    }

    /// Whether the range that begins at one place has the statement at another.
    pub(crate) fn holds(&self, beginning: usize, place: usize) -> bool
        ensures { result ≡ ranges.holds (ranges.range_ends (lines_of self.now.labels.statements.now)) beginning place }
    {
        beginning < place && place <= self.range_end(beginning)
    }

    /// The innermost range around a place.
    pub(crate) fn innermost(&self, place: usize) -> Option<usize>
        requires { place < length self.now.labels.statements.now }
        ensures { result ≡ inside.innermost (ranges.range_ends (lines_of self.now.labels.statements.now)) place }
    {
        self.around[place]
    }
}

/// Looks through a unit's statements, in a time that grows as their number does.
pub fn flow_of<'a>(alloc: Global, statements: &'a [Stmt]) -> Result<Flow<'a>, AllocError>
    ensures { IfOk result (λ flow. flow.labels.statements.now ≡ statements.now) }
{
    let labels = labels_of(alloc, statements)?;
    let ends = range_ends(alloc, &labels)?;
    let around = innermost_ranges(alloc, &ends)?;
    Ok(Flow {
        labels,
        first: first_executable(statements),
        initial: first_data(statements),
        last: last_executable(statements),
        ends,
        around,
    })
}
