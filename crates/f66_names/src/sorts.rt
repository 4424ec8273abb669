// What names are in a unit: their types and forms.
ghost use Rattle.std.specs.Prelude.{◌≡◌};
ghost use Rattle.std.specs.List.{list_any};
ghost use Rattle.std.specs.Str.{bytes_eq};
ghost use Rattle.f66_tree.specs.Units.{type_in, by_header, by_letter, kind_by, kind_of};
ghost use Rattle.f66_tree.specs.Views.{header_of};
ghost use Rattle.f66_tree.specs.Evaluation.{known, intrinsics};
ghost use Rattle.f66_names.specs.Sorts.{form_by, name_form, is_array_name, type_of, is_other, given_by, is_foreign, is_real_by_letter, is_dummy, takes_many, takes, is_integer, is_counter};
ghost use Rattle.f66_names.specs.DeclarationViews.{context_in};

use crate::declarations::Declarations;
use crate::{Arity, NameForm};
use f66_tree::{Header, Name, TypeWord};
use ground::Kind;
use name_tables::value_of;

/// What a name is: an array, an intrinsic function, or something else.
pub fn form_of(declarations: &Declarations, name: &Name) -> NameForm
    ensures { result ≡ name_form (context_in declarations.now) name.now }
{
    match value_of(&declarations.counts, name.as_bytes()) {
        Some(count) => NameForm::Array(*count),
        None => intrinsic_form(name),
    }
}

/// Whether a name is an array.
pub fn is_array(declarations: &Declarations, name: &Name) -> bool
    ensures { result ≡ is_array_name (context_in declarations.now) name.now }
{
    matches!(form_of(declarations, name), NameForm::Array(_))
}

/// The type that a statement gives a name, or else this one (X3.9-1966, section 7.2.1.6).
fn type_or(declarations: &Declarations, name: &Name, unsaid: TypeWord) -> TypeWord
    ensures { result ≡ type_in name.now (context_in declarations.now).notes unsaid }
{
    match value_of(&declarations.words, name.as_bytes()) {
        Some(word) => *word,
        None => unsaid,
    }
}

/// The type of a name (X3.9-1966, section 5.3).
fn type_of(declarations: &Declarations, name: &Name) -> TypeWord
    ensures { result ≡ type_of (context_in declarations.now) name.now }
{
    type_or(declarations, name, by_header(declarations.header, name))
}

/// Whether a type is outside the profile.
pub fn is_other(word: TypeWord) -> bool
    ensures { result ≡ is_other word }
{
    matches!(word, TypeWord::Other)
}

/// Whether a name is declared of a type outside the profile.
pub fn is_foreign(declarations: &Declarations, name: &Name) -> bool
    ensures { result ≡ is_foreign (context_in declarations.now) name.now }
{
    is_other(type_or(declarations, name, given_by(declarations.header, name)))
}

/// Whether it is an undeclared name that would be real.
pub fn is_real_by_letter(declarations: &Declarations, name: &Name) -> bool
    ensures { result ≡ is_real_by_letter (context_in declarations.now) name.now }
{
    // Whatever its declarations say, a name with the letter of an integer is none.
    is_other(by_header(declarations.header, name))
        && (is_other(type_of(declarations, name)) && !is_foreign(declarations, name))
}

/// The type of a name's values.
pub fn kind_of(declarations: &Declarations, name: &Name) -> Kind
    ensures { result ≡ kind_of (context_in declarations.now) name.now }
{
    match type_of(declarations, name) {
        TypeWord::Logical => Kind::Logical,
        TypeWord::Integer | TypeWord::Other => Kind::Integer,
    }
}

/// Whether a type is INTEGER.
pub fn is_integer(kind: Kind) -> bool
    ensures { result ≡ is_integer kind }
{
    matches!(kind, Kind::Integer)
}

/// Whether a name is an integer variable.
pub fn is_counter(declarations: &Declarations, name: &Name) -> bool
    ensures { result ≡ is_counter (context_in declarations.now) name.now }
{
    !is_array(declarations, name) && is_integer(kind_of(declarations, name))
}

/// Whether an array has so many dimensions, or an intrinsic function takes so many arguments.
pub fn takes(form: NameForm, count: usize) -> bool
    ensures { result ≡ takes form count }
{
    match form {
        NameForm::Array(dimensions) => count == dimensions,
        NameForm::Intrinsic(arity) => takes_many(arity, count),
        NameForm::Plain => true,
    }
}

fn takes_many(arity: Arity, count: usize) -> bool
    ensures { result ≡ takes_many arity count }
{
    match arity {
        Arity::One => count == 1,
        Arity::Two => count == 2,
        Arity::More => count >= 2,
    }
}

fn is_text(name: &Name, text: &[u8]) -> bool
    ensures { result ≡ bytes_eq text.now name.now }
{
    text == name.as_bytes()
}

// Intrinsic functions have names of three to five letters.
fn intrinsic_form(name: &Name) -> NameForm
    ensures { result ≡ form_by (known intrinsics name.now) }
{
    let size = name.as_bytes().len();
    if size < 3 || 5 < size {
        return NameForm::Plain;
    }
    listed_form(name)
}

fn listed_form(name: &Name) -> NameForm
    ensures { result ≡ form_by (known intrinsics name.now) }
{
    if is_text(name, b"IABS") {
        NameForm::Intrinsic(Arity::One)
    } else if is_text(name, b"MOD") || is_text(name, b"ISIGN") || is_text(name, b"IDIM") {
        NameForm::Intrinsic(Arity::Two)
    } else if is_text(name, b"MAX0") || is_text(name, b"MIN0") {
        NameForm::Intrinsic(Arity::More)
    } else {
        NameForm::Plain
    }
}

/// The type that a header gives a name, or INTEGER.
fn given_by(header: &Header, name: &Name) -> TypeWord
    ensures { result ≡ given_by name.now (header_of header.now) }
{
    match header {
        Header::Func(Some(word), own, _) if name.is_same(own) => *word,
        _ => TypeWord::Integer,
    }
}

/// Whether a name is a dummy of the unit.
pub fn is_dummy(declarations: &Declarations, name: &Name) -> bool
    ensures { result ≡ is_dummy (context_in declarations.now) name.now }
{
    match declarations.header {
        Header::Sub(_, dummies) => is_among(dummies, name),
        Header::Func(_, _, dummies) => is_among(dummies, name),
        Header::Main | Header::Block => false,
    }
}

fn is_among(names: &[Name], name: &Name) -> bool
    ensures { result ≡ list_any (bytes_eq name.now) names.now }
{
    names.iter().any(|other| name.is_same(other))
}

/// The type of a name that no statement declares.
fn by_header(header: &Header, name: &Name) -> TypeWord
    ensures { result ≡ by_header name.now (header_of header.now) }
{
    match header {
        Header::Func(Some(word), own, _) => {
            if name.is_same(own) {
                *word
            } else {
                by_letter(name)
            }
        }
        _ => by_letter(name),
    }
}

fn by_letter(name: &Name) -> TypeWord
    ensures { result ≡ by_letter name.now }
{
    match name.as_bytes() {
        [first, ..] => {
            if b'I' <= *first && *first <= b'N' {
                TypeWord::Integer
            } else {
                TypeWord::Other
            }
        }
        [] => TypeWord::Other,
    }
}
