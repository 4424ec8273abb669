// What the parts of a unit say, and the loops around them.
ghost use Rattle.std.specs.Prelude.{◌≡◌, nat_le};
ghost use Rattle.rat_check.specs.Parts.{finds_loop};
ghost use Rattle.f66_tree.specs.Views.{act_of};
ghost use Rattle.rat_tree.specs.Views.{act_if_any};
ghost use Rattle.rat_check.specs.Rules.{is_plain, is_simple, is_ratfor, is_second_default, begins};
ghost use Rattle.rat_check.specs.FormViews.{form_of, depth_of};

use f66_flow::{is_format, is_specification};
use f66_tree::{Expr, Name, Par, StmtKind};

/// What a part says.
#[derive(Clone, Copy, Drop)]
pub enum Form<'a> {
    /// A sign alone.
    Bare,
    /// The word `repeat`.
    RepeatHead,
    Statement(&'a StmtKind),
    Condition(&'a Expr),
    /// The value of a switch.
    Selector(&'a Expr),
    /// The case expressions of a clause, and whether it is a second default.
    CaseList(&'a [Expr], bool),
    /// The parts of a `for`.
    ForHead(&'a Option<StmtKind>, &'a Option<Expr>, &'a Option<StmtKind>),
    /// The variable and the parameters of a `do`.
    DoHead(&'a Name, &'a Par, &'a Par, &'a Par),
    /// `break` and `next`.
    LoopExit(u32),
    /// `return`, and the value that it returns.
    ReturnHead(&'a Option<Expr>),
}

/// The loops around a part.
#[derive(Clone, Copy, Drop)]
pub enum Around<'a> {
    Outside,
    Inside(&'a Around<'a>),
}

/// Whether so many loops are around.
pub fn has_loops(around: &Around, count: u32) -> bool
    ensures { result ≡ nat_le count (depth_of around.now) }
{
    if count == 0 {
        return true;
    }
    match around {
        Around::Outside => false,
        Around::Inside(outside) => has_loops(outside, count - 1),
    }
}

impl Form<'_> {
    /// Whether the loop that `break` or `next` names is there.
    pub fn finds_loop(self, around: &Around) -> bool
        ensures { result ≡ finds_loop (depth_of around.now) (form_of self.entry) }
    {
        match self {
            Form::LoopExit(count) => 1 <= count && has_loops(around, count),
            _ => true,
        }
    }

    /// Whether Ratfor's grammar has it.
    pub fn is_ratfor(self) -> bool
        ensures { result ≡ is_ratfor (form_of self.entry) }
    {
        match self {
            Form::Statement(kind) => is_plain(kind),
            Form::ForHead(first, _, step) => is_simple(first) && is_simple(step),
            _ => true,
        }
    }

    pub fn is_second_default(self) -> bool
        ensures { result ≡ is_second_default (form_of self.entry) }
    {
        match self {
            Form::CaseList(_, second) => second,
            _ => false,
        }
    }

    /// Whether no specification comes behind it.
    pub fn begins(self, label: Option<u32>) -> bool
        ensures { result ≡ begins label (form_of self.entry) }
    {
        match self {
            Form::Bare => label.is_some(),
            Form::Statement(kind) => !(is_specification(kind) || is_format(kind)),
            _ => true,
        }
    }
}

/// Whether it is neither an IF nor a DO of FORTRAN.
fn is_plain(kind: &StmtKind) -> bool
    ensures { result ≡ is_plain (act_of kind.now) }
{
    !matches!(
        kind,
        StmtKind::Sign(..) | StmtKind::When(_, _) | StmtKind::Loop(..)
    )
}

/// Whether the first or last part of a `for` is an assignment or a call, or missing.
fn is_simple(kind: &Option<StmtKind>) -> bool
    ensures { result ≡ is_simple (act_if_any kind.now) }
{
    matches!(
        kind,
        None | Some(StmtKind::Assign(_, _) | StmtKind::Invoke(_, _))
    )
}
