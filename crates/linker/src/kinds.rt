// The types and shapes of names and expressions in a unit.
ghost use Rattle.std.specs.Prelude.{◌≡◌, if◌then◌else◌};
ghost use Rattle.ground.specs.declared.value.Kind.TheVariants.{Integer, Logical};
ghost use Rattle.f66_tree.specs.Evaluation.{is_array, sort_of};
ghost use Rattle.f66_tree.specs.Units.{by_header, by_letter, kind_of, type_in};
ghost use Rattle.f66_tree.specs.Views.{formula_of, header_of};
ghost use Rattle.f66_program.specs.Calls.{is_arithmetic, kind_applied, kind_in, same_kind, shape_of, takes_shape};
ghost use Rattle.linker.specs.TypeViews.{context_typed};

use crate::types::TypedUnit;
use f66_mentions::{is_intrinsic, sizes_of};
use f66_tree::{Expr, Header, Name, Operator, TypeWord};
use ground::Kind;

/// Whether two types are one.
pub(crate) fn same_kind(a: Kind, b: Kind) -> bool
    ensures { result ≡ same_kind a b }
{
    match (a, b) {
        (Kind::Integer, Kind::Integer) | (Kind::Logical, Kind::Logical) => true,
        (Kind::Integer, Kind::Logical) | (Kind::Logical, Kind::Integer) => false,
    }
}

/// The type of a name's values (X3.9-1966, section 5.3).
pub(crate) fn kind_of(unit: &TypedUnit, name: &Name) -> Kind
    ensures { result ≡ kind_of (context_typed unit.now) name.now }
{
    match type_of(unit, name) {
        TypeWord::Logical => Kind::Logical,
        TypeWord::Integer | TypeWord::Other => Kind::Integer,
    }
}

fn type_of(unit: &TypedUnit, name: &Name) -> TypeWord
    ensures { result ≡ type_in name.now (context_typed unit.now).notes (by_header name.now (header_of unit.now.names.unit.now.header)) }
{
    match unit.words.get(name.as_bytes()) {
        Some(word) => *word,
        None => by_header(&unit.names.unit.header, name),
    }
}

/// The type of a name that no statement gives one.
fn by_header(header: &Header, name: &Name) -> TypeWord
    ensures { result ≡ by_header name.now (header_of header.now) }
{
    match header {
        Header::Func(Some(word), own, _) => {
            if name.is_same(own) {
                *word
            } else {
                by_letter(name)
            }
        }
        _ => by_letter(name),
    }
}

fn by_letter(name: &Name) -> TypeWord
    ensures { result ≡ by_letter name.now }
{
    match name.as_bytes() {
        [first, ..] => {
            if b'I' <= *first && *first <= b'N' {
                TypeWord::Integer
            } else {
                TypeWord::Other
            }
        }
        [] => TypeWord::Other,
    }
}

/// Whether a name is an array.
pub(crate) fn is_array(unit: &TypedUnit, name: &Name) -> bool
    ensures { result ≡ is_array (sort_of (context_typed unit.now) name.now) }
{
    !sizes_of(&unit.names, name.as_bytes()).is_empty()
}

/// The type of an expression (section 6).
pub(crate) fn kind_in(unit: &TypedUnit, e: &Expr) -> Kind
    ensures { result ≡ kind_in (context_typed unit.now) (formula_of e.now) }
{
    match e {
        Expr::Int(_) | Expr::Letter(_) | Expr::Plus(_) | Expr::Minus(_) => Kind::Integer,
        Expr::Truth(_) | Expr::Not(_) => Kind::Logical,
        Expr::Ref(name) => kind_of(unit, name),
        Expr::Item(item) => kind_applied(unit, &item.0),
        Expr::Group(a) => kind_in(unit, a),
        Expr::Pair(operator, _) => outcome(*operator),
    }
}

/// The type of an element, or of a function's value.
fn kind_applied(unit: &TypedUnit, name: &Name) -> Kind
    ensures { result ≡ kind_applied (context_typed unit.now) name.now (sort_of (context_typed unit.now) name.now) }
{
    if !is_array(unit, name) && is_intrinsic(name) {
        Kind::Integer
    } else {
        kind_of(unit, name)
    }
}

fn outcome(operator: Operator) -> Kind
    ensures { result ≡ (if is_arithmetic operator then Integer else Logical) }
{
    match operator {
        Operator::Add | Operator::Sub | Operator::Mul | Operator::Div | Operator::Power => {
            Kind::Integer
        }
        _ => Kind::Logical,
    }
}

/// Whether a dummy, which is an array or not, takes an expression's shape (section 8.3.2).
pub(crate) fn takes_shape(array: bool, unit: &TypedUnit, e: &Expr) -> bool
    ensures { result ≡ takes_shape array (shape_of (context_typed unit.now) (formula_of e.now)) }
{
    match e {
        Expr::Ref(name) => array == is_array(unit, name),
        Expr::Item(item) => !array || is_array(unit, &item.0),
        _ => !array,
    }
}
