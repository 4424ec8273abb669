// What the productions of types make.
ghost use Rattle.std.specs.Prelude.{◌≡◌, ◌∷◌, [], None, Some, false, true, IfOk, reverse};
ghost use Rattle.efl_tree.specs.Syntax.{Named, Shape};
ghost use Rattle.efl_tree.specs.Views.{type_of, vars_of, groups_of};
ghost use Rattle.efl_parse_values.specs.Values.{value, values, at, typed, group, var, bound, upper, integer, groups_if_any};
ghost use Rattle.efl_parse_values.specs.Parts.{nowhere, place_in, name_in, integer_in, type_in, as_groups, groups_part, as_vars, as_bounds, upper_part};
ghost use Rattle.efl_parse_expressions.specs.Declared.{plain_type as plain_type_so, type_named as type_named_so, bounded as bounded_so, opposite as opposite_so, signed as signed_so};

use efl_parse_values::{
    CountValue, NOWHERE, TypeValue, Value, into_groups_if_any, into_name, into_type, is_minus,
    is_word, ordered, place_of, pop_value, skip, take_integer, take_place, take_sign,
    take_upper_if_any,
};
use efl_tree::{EflBound, EflGroup, EflName, EflType, EflVar};
use ground::{List, Place};
use std::alloc::Global;

fn typed_value(place: Place, kind: EflType) -> Value
    ensures { value result ≡ typed place (type_of kind) }
{
    Value::Type(TypeValue::Typed(place, kind))
}

pub fn shape(name: Option<EflName>, groups: List<EflGroup>) -> EflType
    ensures { type_of result ≡ Shape name (groups_of groups.items) }
{
    EflType::Shape(name, groups)
}

fn plain_type(part: Value, long: bool) -> EflType
    ensures { type_of result ≡ plain_type_so (value part) long }
{
    if is_word(b"REAL", &part) {
        EflType::Real(long)
    } else if is_word(b"COMPLEX", &part) {
        EflType::Complex(long)
    } else if is_word(b"LOGICAL", &part) {
        EflType::Logical
    } else {
        EflType::Integer
    }
}

pub fn plain_by(parts: &mut Vec<Value>) -> Value
    ensures { value result ≡ typed (place_in (at 0 (values parts.old.items))) (plain_type_so (at 0 (values parts.old.items)) false) }
{
    let word = pop_value(parts);
    let place = place_of(&word);
    typed_value(place, plain_type(word, false))
}

pub fn long_by(parts: &mut Vec<Value>) -> Value
    ensures { value result ≡ typed (place_in (at 1 (values parts.old.items))) (plain_type_so (at 0 (values parts.old.items)) true) }
{
    let kind = plain_type(pop_value(parts), true);
    typed_value(take_place(pop_value(parts)), kind)
}

/// The type that a name is.
fn named_value(part: Value) -> Value
    ensures { value result ≡ typed (place_in (value part)) (Named (name_in (value part))) }
{
    let place = place_of(&part);
    typed_value(place, EflType::Named(into_name(part)))
}

pub fn named_by(parts: &mut Vec<Value>) -> Value
    ensures { value result ≡ typed (place_in (at 0 (values parts.old.items))) (Named (name_in (at 0 (values parts.old.items)))) }
{
    named_value(pop_value(parts))
}

pub fn named_before_by(parts: &mut Vec<Value>) -> Value
    ensures { value result ≡ typed (place_in (at 1 (values parts.old.items))) (Named (name_in (at 1 (values parts.old.items)))) }
{
    skip(parts);
    named_value(pop_value(parts))
}

/// A type behind `struct`.
pub fn struct_by(parts: &mut Vec<Value>) -> Value
    ensures { value result ≡ typed (place_in (at 1 (values parts.old.items))) (type_in (at 0 (values parts.old.items))) }
{
    let kind = into_type(pop_value(parts));
    typed_value(take_place(pop_value(parts)), kind)
}

/// A shape with no name.
pub fn nameless_by(alloc: Global, parts: &mut Vec<Value>) -> Value
    ensures { value result ≡ typed nowhere (Shape None (as_groups (at 0 (values parts.old.items)))) }
{
    let groups = ordered::<EflGroup>(alloc, pop_value(parts));
    typed_value(NOWHERE, shape(None, groups))
}

pub fn nameless_before_by(alloc: Global, parts: &mut Vec<Value>) -> Value
    ensures { value result ≡ typed nowhere (Shape None (as_groups (at 1 (values parts.old.items)))) }
{
    skip(parts);
    nameless_by(alloc, parts)
}

fn type_named(name: EflName, groups: Option<List<EflGroup>>) -> EflType
    ensures { type_of result ≡ type_named_so name (groups_if_any groups) }
{
    match groups {
        Some(groups) => shape(Some(name), groups),
        None => EflType::Named(name),
    }
}

pub fn type_named_by(parts: &mut Vec<Value>) -> Value
    ensures { value result ≡ typed (place_in (at 1 (values parts.old.items))) (type_named_so (name_in (at 1 (values parts.old.items))) (groups_part (at 0 (values parts.old.items)))) }
{
    let groups = into_groups_if_any(pop_value(parts));
    let part = pop_value(parts);
    let place = place_of(&part);
    typed_value(place, type_named(into_name(part), groups))
}

/// Members or variables of one type.
pub fn group_by(alloc: Global, parts: &mut Vec<Value>) -> Value
    ensures { value result ≡ group (type_in (at 2 (values parts.old.items))) (as_vars (at 1 (values parts.old.items))) (place_in (at 2 (values parts.old.items))) }
{
    skip(parts);
    let variables = ordered::<EflVar>(alloc, pop_value(parts));
    let part = pop_value(parts);
    let place = place_of(&part);
    let kind = into_type(part);
    Value::Type(TypeValue::Group(EflGroup {
        kind,
        variables,
        place,
    }))
}

pub fn variable_by(alloc: Global, parts: &mut Vec<Value>) -> Value
    ensures { value result ≡ var (record { name = name_in (at 1 (values parts.old.items)); bounds = as_bounds (at 0 (values parts.old.items)) }) }
{
    let bounds = ordered::<EflBound>(alloc, pop_value(parts));
    let name = into_name(pop_value(parts));
    Value::Type(TypeValue::Var(EflVar { name, bounds }))
}

fn bounded(number: i64, upper: Option<Option<i64>>) -> EflBound
    ensures { result ≡ bounded_so number upper }
{
    match upper {
        Some(high) => EflBound {
            low: Some(number),
            high,
        },
        None => EflBound {
            low: None,
            high: Some(number),
        },
    }
}

pub fn star_bound() -> Value
    ensures { value result ≡ bound (record { low = None; high = None }) }
{
    Value::Type(TypeValue::Bound(EflBound {
        low: None,
        high: None,
    }))
}

pub fn bound_by(parts: &mut Vec<Value>) -> Value
    ensures { value result ≡ bound (bounded_so (integer_in (at 1 (values parts.old.items))) (upper_part (at 0 (values parts.old.items)))) }
{
    let upper = take_upper_if_any(pop_value(parts));
    let number = take_integer(pop_value(parts));
    Value::Type(TypeValue::Bound(bounded(number, upper)))
}

pub fn star_upper() -> Value
    ensures { value result ≡ upper None }
{
    Value::Count(CountValue::Upper(None))
}

pub fn upper_by(parts: &mut Vec<Value>) -> Value
    ensures { value result ≡ upper (Some (integer_in (at 0 (values parts.old.items)))) }
{
    let number = take_integer(pop_value(parts));
    Value::Count(CountValue::Upper(Some(number)))
}

fn opposite(number: i64) -> i64
    ensures { result ≡ opposite_so number }
{
    if number < 0 { 0 } else { -number }
}

/// A number with a sign before it.
pub fn signed(sign: Value, number: i64) -> i64
    ensures { result ≡ signed_so (value sign) number }
{
    if is_minus(take_sign(sign)) {
        opposite(number)
    } else {
        number
    }
}

pub fn integer_by(parts: &mut Vec<Value>) -> Value
    ensures { value result ≡ integer (integer_in (at 0 (values parts.old.items))) }
{
    Value::Count(CountValue::Integer(take_integer(pop_value(parts))))
}

pub fn signed_integer_by(parts: &mut Vec<Value>) -> Value
    ensures { value result ≡ integer (signed_so (at 1 (values parts.old.items)) (integer_in (at 0 (values parts.old.items)))) }
{
    let number = take_integer(pop_value(parts));
    Value::Count(CountValue::Integer(signed(pop_value(parts), number)))
}
