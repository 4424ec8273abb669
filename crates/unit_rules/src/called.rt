// What statements call, and what they hand over.
ghost use Rattle.std.specs.Prelude.{◌≡◌, option_map};
ghost use Rattle.f66_tree.specs.Views.{formulas_of, act_of};
ghost use Rattle.f66_names.specs.ActViews.{act_said};
ghost use Rattle.unit_rules.specs.Called.{called_in, passed_in};

use f66_names::Saying;
use f66_tree::{Expr, Name, StmtKind};

/// The subroutine that a CALL names (X3.9-1966, section 7.1.2.4).
pub fn called_in(kind: &StmtKind) -> Option<&Name>
    ensures { option_map (λ n. n.now) result ≡ called_in (act_of kind.now) }
{
    match kind {
        StmtKind::Invoke(name, _) => Some(name),
        StmtKind::When(_, inner) => called_in(inner),
        _ => None,
    }
}

/// The arguments of a CALL.
pub fn passed_in(kind: &StmtKind) -> &[Expr]
    ensures { formulas_of result.now ≡ passed_in (act_of kind.now) }
{
    match kind {
        StmtKind::Invoke(_, list) => list.as_slice(),
        StmtKind::When(_, inner) => passed_in(inner),
        _ => &[],
    }
}

/// The subroutine that a statement or a part of one calls.
pub fn called_in_saying<'a>(saying: &Saying<'a>) -> Option<&'a Name>
    ensures { option_map (λ n. n.now) result ≡ called_in (act_said saying.now) }
{
    match *saying {
        Saying::Act(kind) => called_in(kind),
        Saying::Condition(_)
        | Saying::Value(_)
        | Saying::Counting(_, _, _, _)
        | Saying::Returned(_, _) => None,
    }
}
