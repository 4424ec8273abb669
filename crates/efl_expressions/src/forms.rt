// What is asked of types.
ghost use Rattle.std.specs.Prelude.{◌≡◌};
ghost use Rattle.efl_scope.specs.DataTypes.{DataType, same_kind};
ghost use Rattle.efl_types.specs.Types.{value_type, fits as fits_seen, is_single as is_single_seen, fit_sides as fit_sides_seen};
ghost use Rattle.efl_types.specs.Expressions.{lacks_type as lacks_type_seen};
ghost use Rattle.efl_expressions.specs.Forms.{form_of};

use ground::Kind;

/// What a type is, where elements and members do not count. Contracts see by `form_of` what it says of a type.
#[derive(Clone, Copy)]
pub enum Form {
    Scalar(Kind),
    Structured,
    Array,
    /// Of what has a fault.
    NoType,
}

/// Whether kinds are the same.
pub fn is_same(a: Kind, b: Kind) -> bool
    ensures { result ≡ same_kind a b }
{
    match (a, b) {
        (Kind::Integer, Kind::Integer) | (Kind::Logical, Kind::Logical) => true,
        _ => false,
    }
}

/// The form of a value: an array or structure is none.
pub fn value_form(form: Form) -> Form
    ensures { (t : DataType) → form_of t ≡ form → form_of (value_type t) ≡ result }
{
    match form {
        Form::Scalar(kind) => Form::Scalar(kind),
        _ => Form::NoType,
    }
}

/// Whether something is of this kind, or has no type.
pub fn fits(kind: Kind, form: Form) -> bool
    ensures { (t : DataType) → form_of t ≡ form → result ≡ fits_seen kind t }
{
    match form {
        Form::Scalar(own) => is_same(kind, own),
        Form::NoType => true,
        _ => false,
    }
}

/// Whether something is a scalar, or has no type.
pub fn is_single(form: Form) -> bool
    ensures { (t : DataType) → form_of t ≡ form → result ≡ is_single_seen t }
{
    matches!(form, Form::Scalar(_) | Form::NoType)
}

/// Whether both sides of `=` have one scalar type.
pub fn fit_sides(target: Form, value: Form) -> bool
    ensures { (t u : DataType) → form_of t ≡ target → form_of u ≡ value → result ≡ fit_sides_seen t u }
{
    match target {
        Form::Scalar(kind) => fits(kind, value),
        Form::NoType => is_single(value),
        _ => false,
    }
}

/// Whether something has no type.
pub fn lacks_type(form: Form) -> bool
    ensures { (t : DataType) → form_of t ≡ form → result ≡ lacks_type_seen t }
{
    matches!(form, Form::NoType)
}
