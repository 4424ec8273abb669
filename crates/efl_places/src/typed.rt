// What the check of an expression tells, its whole type too.
ghost use Rattle.std.specs.Prelude.{◌≡◌, List, false, true};
ghost use Rattle.efl_tree.specs.Syntax.{EflExpr};
ghost use Rattle.efl_scope.specs.DataTypes.{DataType as TypeSeen, Scalar};
ghost use Rattle.efl_scoped.specs.Numbers.{Table};
ghost use Rattle.efl_scoped.specs.Told.{Tells};
ghost use Rattle.efl_types.specs.Signatures.{Names as NamesSeen};
ghost use Rattle.efl_types.specs.Types.{type_of, is_single};
ghost use Rattle.efl_types.specs.Expressions.{is_element};
ghost use Rattle.efl_expressions.specs.declared.types.Structure as structures;
ghost use Rattle.efl_expressions.specs.Forms.{form_of};
ghost use Rattle.efl_expressions.specs.Checks.{IsChecked};
ghost use Rattle.efl_expressions.specs.TypeViews.{IsType};
ghost use Rattle.efl_places.specs.Checks.{IsTyped};

use efl_expressions::{Checked, DataType, Element, Form, form, nothing};
use efl_scoped::{Summary, integer, logical};
use efl_types::TypeRule;
use ground::Kind;

/// What the check of an expression tells: its type, whether it is a place that ends with subscripts, and the first rule that it breaks.
#[derive(Clone, Copy, Drop)]
pub struct Typed<'a> {
    pub kind: DataType<'a>,
    pub is_element: bool,
    pub rule: Option<TypeRule>,
}

/// The same without its elements and members.
pub fn checked(typed: &Typed) -> Checked
    ensures { (f : Table) (ss : List structures.Structure) (n : NamesSeen) (e : EflExpr) → IsTyped f ss n e typed.now → IsChecked n e result }
{
    Checked {
        form: form(&typed.kind),
        rule: typed.rule,
    }
}

/// Of a value, which is a scalar or has no type.
pub fn valued<'a>(value: Checked) -> Typed<'a>
    ensures { (f : Table) (ss : List structures.Structure) (n : NamesSeen) (e : EflExpr) → is_single (type_of n e) ≡ true → is_element n e ≡ false → IsChecked n e value →
        IsTyped f ss n e result }
{
    Typed {
        kind: value_of(value.form),
        is_element: false,
        rule: value.rule,
    }
}

/// The type of a value of this form.
fn value_of<'a>(value: Form) -> DataType<'a>
    ensures { (f : Table) (ss : List structures.Structure) (t : TypeSeen) → is_single t ≡ true → form_of t ≡ value → IsType f ss t result }
{
    match value {
        Form::Scalar(kind) => scalar_type(kind),
        _ => nothing(),
    }
}

/// The type of a scalar.
pub fn scalar_type<'a>(kind: Kind) -> DataType<'a>
    ensures { (f : Table) (ss : List structures.Structure) → IsType f ss (Scalar kind) result }
{
    DataType {
        element: Element::Scalar(kind),
        bounds: &[],
        summary: summary_of(kind),
    }
}

fn summary_of(kind: Kind) -> Summary
    ensures { (f : Table) → Tells f (Scalar kind) result }
{
    match kind {
        Kind::Integer => integer(),
        Kind::Logical => logical(),
    }
}
