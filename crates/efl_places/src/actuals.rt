// Calls: what they give, and which actuals their formals take.
ghost use Rattle.std.specs.Prelude.{◌≡◌, List, Option};
ghost use Rattle.std.specs.List.{slice_get};
ghost use Rattle.efl_tree.specs.Syntax.{EflExpr};
ghost use Rattle.efl_scope.specs.DataTypes.{DataType as TypeSeen};
ghost use Rattle.efl_types.specs.Signatures.{Names as NamesSeen, Callee as CalleeSeen, gives_type, called_type as called_type_seen};
ghost use Rattle.efl_types.specs.Expressions.{element_of, gives_value as gives_value_seen, takes_array as takes_array_seen, takes_other as takes_other_seen, takes_actual as takes_actual_seen};
ghost use Rattle.efl_scoped.specs.Numbers.{Table};
ghost use Rattle.efl_scoped.specs.Told.{Tells};
ghost use Rattle.efl_expressions.specs.declared.types.Structure as structures;
ghost use Rattle.efl_expressions.specs.Forms.{form_of};
ghost use Rattle.efl_expressions.specs.TypeViews.{IsType, TellsApart};
ghost use Rattle.efl_names.specs.NameViews.{IsTypeIfAny, IsCallee, result_of};
ghost use Rattle.efl_places.specs.Checks.{IsTyped, takes_if};

use crate::Typed;
use crate::typed::scalar_type;
use efl_expressions::{DataType, Form, Structures, agrees, fits, form, is_faulty, nothing};
use efl_names::{Callee, Outcome};
use efl_scoped::Summary;
use ground::Kind;

/// The type of a call.
pub fn called_type<'a>(callee: &Callee<'_, 'a>) -> DataType<'a>
    ensures { (f : Table) (ss : List structures.Structure) (c : CalleeSeen) → IsCallee f ss c callee.now → IsType f ss (called_type_seen c) result }
{
    match callee {
        Callee::Procedure(_, outcome) => outcome_type(*outcome),
        Callee::Intrinsic(_) => scalar_type(Kind::Integer),
        Callee::Missing => nothing(),
    }
}

/// The type of what a procedure gives.
fn outcome_type<'a>(outcome: Outcome) -> DataType<'a>
    ensures { (f : Table) (ss : List structures.Structure) → IsType f ss (gives_type (result_of outcome)) result }
{
    match outcome {
        Outcome::Gives(kind) => scalar_type(kind),
        Outcome::Nothing => nothing(),
        Outcome::Unknown => nothing(),
    }
}

/// Whether a call gives a value, of the type of a declared scalar of its name.
pub fn gives_value(kind: Form, callee: &Callee) -> bool
    ensures { (f : Table) (ss : List structures.Structure) (c : CalleeSeen) (t : TypeSeen) → IsCallee f ss c callee.now → form_of t ≡ kind → result ≡ gives_value_seen t c }
{
    match callee {
        Callee::Missing | Callee::Procedure(_, Outcome::Unknown) => true,
        Callee::Intrinsic(_) => fits(Kind::Integer, kind),
        Callee::Procedure(_, Outcome::Gives(own)) => fits(*own, kind),
        Callee::Procedure(_, Outcome::Nothing) => false,
    }
}

/// Whether an actual fits its formal, where there is one.
pub fn fits_formal<'a>(
    structures: &Structures<'a>,
    formal: &Option<DataType<'a>>,
    actual: &Typed<'a>,
) -> bool
    ensures { (f : Table) (n : NamesSeen) (o : Option TypeSeen) (e : EflExpr) → TellsApart f → IsTypeIfAny f structures.now.list.items o formal.now →
        IsTyped f structures.now.list.items n e actual.now → result ≡ takes_if n o e }
{
    match formal {
        None => true,
        Some(formal) => takes_actual(structures, formal, actual),
    }
}

/// Whether a formal takes an actual.
fn takes_actual<'a>(structures: &Structures<'a>, formal: &DataType<'a>, actual: &Typed<'a>) -> bool
    ensures { (f : Table) (n : NamesSeen) (t : TypeSeen) (e : EflExpr) → TellsApart f → IsType f structures.now.list.items t formal.now →
        IsTyped f structures.now.list.items n e actual.now → result ≡ takes_actual_seen n t e }
{
    match form(formal) {
        Form::Array => takes_array(structures, structures.element(formal).summary, actual),
        _ => takes_other(formal.summary, &actual.kind),
    }
}

/// Whether a formal that is no array takes an actual.
fn takes_other(formal: Summary, actual: &DataType) -> bool
    ensures { (f : Table) (ss : List structures.Structure) (t u : TypeSeen) → TellsApart f → Tells f t formal → IsType f ss u actual.now → result ≡ takes_other_seen t u }
{
    match form(actual) {
        Form::Array => is_faulty(formal),
        _ => agrees(formal, actual.summary),
    }
}

/// Whether an array of such elements takes an actual: a whole array, or an element.
fn takes_array<'a>(structures: &Structures<'a>, element: Summary, actual: &Typed<'a>) -> bool
    ensures { (f : Table) (t u : TypeSeen) → TellsApart f → Tells f t element → IsType f structures.now.list.items u actual.now.kind →
        result ≡ takes_array_seen t actual.now.is_element u }
{
    match form(&actual.kind) {
        Form::Array => agrees(element, structures.element(&actual.kind).summary),
        Form::NoType => true,
        _ => actual.is_element && agrees(element, actual.kind.summary),
    }
}

/// The formal of this number, where there is one.
pub fn formal_at<'a>(formals: &[DataType<'a>], number: usize) -> Option<DataType<'a>>
    ensures { result ≡ slice_get formals.now number }
{
    formals.get(number).copied()
}
