// What a unit says of names.
ghost use Rattle.std.specs.Prelude.{◌≡◌, map};
ghost use Rattle.f66_tree.specs.Views.{declared_of};
ghost use Rattle.f66_names.specs.ActViews.{act_said};
ghost use Rattle.f66_names.specs.Declaring.{typed_in as typed_by, declared_in as declared_by};

use crate::tables::{declared_in, typed_in};
use f66_tree::{Declared, Expr, Name, Par, StmtKind};

/// A statement, or a part of one that stands alone: it uses names as the statement of FORTRAN does that it is a part of.
#[derive(Clone, Copy, Drop)]
pub enum Saying<'a> {
    Act(&'a StmtKind),
    /// A condition, as that of a logical IF (X3.9-1966, section 7.1.2.3).
    Condition(&'a Expr),
    /// An integer value, as that of an arithmetic IF (section 7.1.2.2).
    Value(&'a Expr),
    /// The variable and the parameters of a DO (section 7.1.2.8).
    Counting(&'a Name, &'a Par, &'a Par, &'a Par),
    /// A function's own name and its value, as an assignment (section 8.3.1).
    Returned(&'a Name, &'a Expr),
}

/// The names whose type is given.
pub fn typed_in_saying<'a>(saying: &Saying<'a>) -> &'a [Declared]
    ensures { map declared_of result.now ≡ typed_by (act_said saying.now) }
{
    match *saying {
        Saying::Act(kind) => typed_in(kind),
        Saying::Condition(_)
        | Saying::Value(_)
        | Saying::Counting(_, _, _, _)
        | Saying::Returned(_, _) => &[],
    }
}

/// The names that a type statement or DIMENSION lists.
pub fn declared_in_saying<'a>(saying: &Saying<'a>) -> &'a [Declared]
    ensures { map declared_of result.now ≡ declared_by (act_said saying.now) }
{
    match *saying {
        Saying::Act(kind) => declared_in(kind),
        Saying::Condition(_)
        | Saying::Value(_)
        | Saying::Counting(_, _, _, _)
        | Saying::Returned(_, _) => &[],
    }
}
