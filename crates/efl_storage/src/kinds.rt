// The types of scalars.
ghost use Rattle.std.specs.Prelude.{◌≡◌, List};
ghost use Rattle.efl_scope.specs.DataTypes.{DataType as TypeSeen};
ghost use Rattle.efl_scoped.specs.Numbers.{Table};
ghost use Rattle.efl_expressions.specs.declared.types.Structure as structures;
ghost use Rattle.efl_expressions.specs.TypeViews.{IsType};
ghost use Rattle.efl_variables.specs.Numbered.{scalar_kind as kind_seen};

use efl_expressions::{DataType, Form, form};
use ground::Kind;

/// The type of a scalar; nothing else has one.
pub fn scalar_kind(kind: &DataType) -> Option<Kind>
    ensures { (f : Table) (ss : List structures.Structure) (t : TypeSeen) → IsType f ss t kind.now → kind_seen t ≡ result }
{
    match form(kind) {
        Form::Scalar(kind) => Some(kind),
        Form::NoType | Form::Structured | Form::Array => None,
    }
}
