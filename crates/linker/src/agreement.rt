// Whether a call agrees with the unit that it leads to.
ghost use Rattle.std.specs.Prelude.{◌≡◌};
ghost use Rattle.f66_tree.specs.Units.{dummies_of};
ghost use Rattle.f66_tree.specs.Views.{formula_of, formulas_of, header_of};
ghost use Rattle.f66_program.specs.Calls.{agree_all, agrees, clashes, fits_header};
ghost use Rattle.linker.specs.SiteViews.{call_of};
ghost use Rattle.linker.specs.TypeViews.{context_typed, routine_typed};

use crate::kinds::{is_array, kind_in, kind_of, same_kind, takes_shape};
use crate::site::Site;
use crate::tells::dummies_of;
use crate::types::TypedUnit;
use f66_tree::{Expr, Header, Name};

/// Whether a call does not agree with the unit that it leads to.
pub(crate) fn clashes(caller: &TypedUnit, site: &Site, called: &TypedUnit) -> bool
    ensures { result ≡ clashes (context_typed caller.now) (call_of site.now) (routine_typed called.now) }
{
    !fits_header(caller, site, called)
        || !agree_all(
            caller,
            site.actuals,
            called,
            dummies_of(&called.names.unit.header),
        )
}

/// Whether a CALL leads to a subroutine, or a reference to a function of its type (X3.9-1966, sections 8.3 and 8.4).
fn fits_header(caller: &TypedUnit, site: &Site, called: &TypedUnit) -> bool
    ensures { result ≡ fits_header (context_typed caller.now) (call_of site.now) (context_typed called.now) }
{
    match &called.names.unit.header {
        Header::Sub(_, _) => site.by_call,
        Header::Func(_, own, _) => {
            !site.by_call && same_kind(kind_of(caller, site.name), kind_of(called, own))
        }
        _ => false,
    }
}

/// Whether actuals agree with dummies, up to the end of the shorter list.
fn agree_all(caller: &TypedUnit, actuals: &[Expr], called: &TypedUnit, dummies: &[Name]) -> bool
    ensures { result ≡ agree_all (context_typed caller.now) (formulas_of actuals.now) (context_typed called.now) dummies.now }
{
    for (i, actual) in actuals.iter().enumerate() {
        match dummies.get(i) {
            Some(dummy) => {
                if !agrees(caller, actual, called, dummy) {
                    return false;
                }
            }
            None => return true,
        }
    }
    true
}

/// Whether an actual has the type of its dummy, and a shape that it takes.
fn agrees(caller: &TypedUnit, actual: &Expr, called: &TypedUnit, dummy: &Name) -> bool
    ensures { result ≡ agrees (context_typed caller.now) (formula_of actual.now) (context_typed called.now) dummy.now }
{
    same_kind(kind_in(caller, actual), kind_of(called, dummy))
        && takes_shape(is_array(called, dummy), caller, actual)
}
