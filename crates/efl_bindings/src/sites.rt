// What the names of a part mean.
ghost use Rattle.std.specs.Prelude.{◌≡◌, false};
ghost use Rattle.efl_tree.specs.Views.{place_of};
ghost use Rattle.efl_built.specs.Unbuilt.{unbuilt_target};
ghost use Rattle.efl_scope.specs.Parts.{into as step_into};
ghost use Rattle.efl_scope.specs.Marks.{by_letter_of};
ghost use Rattle.efl_typed.specs.Typing.{Context, within as within_context, variable_named, numbered, site_of as site_seen};
ghost use Rattle.efl_typed_tree.specs.Views.{site_of};
ghost use Rattle.efl_bindings.specs.Bindings.{IsScalar};
ghost use Rattle.efl_bindings.specs.Sites.{IsSite};

use crate::homes::Home;
use crate::scopes::look_up;
use crate::{Letters, Procedures, Scopes};
use efl_tree::EflPlace;
use efl_typed_tree::Scalar;
use efl_variables::Variables;

/// What the names of a part mean: the number of its procedure, that of its place, the procedures, the types that letters give, all
/// variables, and the blocks. Contracts see by `IsSite` where it is.
#[derive(Clone, Copy, Drop)]
pub struct Site<'c, 'a> {
    pub unit: usize,
    pub place: Option<usize>,
    pub procedures: &'c Procedures<'a>,
    pub letters: &'c Letters,
    pub variables: &'c Variables,
    pub scopes: &'c Scopes<'c, 'a>,
}

/// The site of the part with this number in a list.
pub fn into<'c, 'a>(site: &Site<'c, 'a>, step: usize) -> Site<'c, 'a>
    ensures { (c : Context) → IsSite c site.now → IsSite (within_context c (step_into step c.around)) result }
{
    Site {
        unit: site.unit,
        place: site.variables.place_at(step, site.place),
        procedures: site.procedures,
        letters: site.letters,
        variables: site.variables,
        scopes: site.scopes,
    }
}

/// The same site in these blocks.
pub fn within<'c, 'a>(site: &Site<'c, 'a>, scopes: &'c Scopes<'c, 'a>) -> Site<'c, 'a>
    ensures { result ≡ record site.now { scopes = scopes.entry } }
{
    Site {
        unit: site.unit,
        place: site.place,
        procedures: site.procedures,
        letters: site.letters,
        variables: site.variables,
        scopes,
    }
}

/// The scalar that a name means.
pub fn typed_variable(name: &[u8], site: &Site) -> Scalar
    ensures { (c : Context) → IsSite c site.now → IsScalar c.variables c.around.unit (variable_named c name.now) result }
{
    match look_up(site.scopes, name) {
        Some(scalar) => scalar,
        None => undeclared(name, site),
    }
}

/// The variable of a name that isn't declared.
fn undeclared(name: &[u8], site: &Site) -> Scalar
    ensures { (c : Context) → IsSite c site.now → IsScalar c.variables c.around.unit (by_letter_of c.names.implied name.now) result }
{
    let home = Home {
        unit: site.unit,
        place: Some(0),
        variables: site.variables,
    };
    Scalar {
        variable: home.number(name),
        kind: site.letters.kind(name),
    }
}

/// The number of the variable of a name.
pub fn variable_number(name: &[u8], site: &Site) -> usize
    ensures { (c : Context) → IsSite c site.now → result ≡ numbered c name.now }
{
    typed_variable(name, site).variable
}

/// The variable at a place that is stored into.
pub fn typed_target(place: &EflPlace, site: &Site) -> Scalar
    ensures { (c : Context) → IsSite c site.now → unbuilt_target (place_of place.now) ≡ false → site_of result ≡ site_seen c (place_of place.now) }
{
    typed_variable(place.first.as_bytes(), site)
}
