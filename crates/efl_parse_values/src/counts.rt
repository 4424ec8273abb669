// Names, numbers and letters, taken out of values.
ghost use Rattle.std.specs.Prelude.{◌≡◌, ◌∷◌, ℕ, ℤ, List, reverse, refl};
ghost use Rattle.efl_tree.specs.Syntax.{Text as Word};
ghost use Rattle.efl_parse_values.specs.Values.{value, names, integers, ranges};
ghost use Rattle.efl_parse_values.specs.Parts.{name_in, integer_in, range_in, as_names, as_integers, as_ranges, upper_part, count_in, loop_in};

use crate::lists::Item;
use crate::value::{CountValue, ProcedureValue, Value};
use crate::words::{into_name, take_integer};
use efl_tree::{EflName, LoopKind};
use std::alloc::Global;

impl Item for EflName {
    ghost Plain = { List Word };

    ghost plain = { λ xs. xs };

    ghost more = { λ x rest. x ∷ rest };

    ghost listed = { λ xs. names xs };

    ghost list_in = { as_names };

    ghost with_item = { λ v rest. name_in v ∷ rest };

    ghost plain_more = { λ x xs. refl };

    fn into_item(alloc: Global, part: Value) -> EflName
        ensures { (rest : List Word) → result ∷ rest ≡ name_in (value part) ∷ rest }
    {
        into_name(part)
    }

    fn into_list(alloc: Global, part: Value) -> Vec<EflName>
        ensures { (reverse result.items) ≡ as_names (value part) }
    {
        match part {
            Value::Count(CountValue::Names(list)) => list,
            Value::Procedure(ProcedureValue::Heading(_, list)) => list,
            other => {
                drop(other);
                Vec::new(alloc)
            }
        }
    }

    fn list_value(list: Vec<EflName>) -> Value
        ensures { value result ≡ names ((reverse list.items)) }
    {
        Value::Count(CountValue::Names(list))
    }
}

impl Item for i64 {
    ghost Plain = { List ℤ };

    ghost plain = { λ xs. xs };

    ghost more = { λ x rest. x ∷ rest };

    ghost listed = { λ xs. integers xs };

    ghost list_in = { as_integers };

    ghost with_item = { λ v rest. integer_in v ∷ rest };

    ghost plain_more = { λ x xs. refl };

    fn into_item(_alloc: Global, part: Value) -> i64
        ensures { (rest : List ℤ) → result ∷ rest ≡ integer_in (value part) ∷ rest }
    {
        take_integer(part)
    }

    fn into_list(alloc: Global, part: Value) -> Vec<i64>
        ensures { (reverse result.items) ≡ as_integers (value part) }
    {
        match part {
            Value::Count(CountValue::Integers(list)) => list,
            other => {
                drop(other);
                Vec::new(alloc)
            }
        }
    }

    fn list_value(list: Vec<i64>) -> Value
        ensures { value result ≡ integers ((reverse list.items)) }
    {
        Value::Count(CountValue::Integers(list))
    }
}

impl Item for (u8, u8) {
    ghost Plain = { List (ℕ × ℕ) };

    ghost plain = { λ xs. xs };

    ghost more = { λ x rest. x ∷ rest };

    ghost listed = { λ xs. ranges xs };

    ghost list_in = { as_ranges };

    ghost with_item = { λ v rest. range_in v ∷ rest };

    ghost plain_more = { λ x xs. refl };

    fn into_item(_alloc: Global, part: Value) -> (u8, u8)
        ensures { (rest : List (ℕ × ℕ)) → result ∷ rest ≡ range_in (value part) ∷ rest }
    {
        take_range(part)
    }

    fn into_list(alloc: Global, part: Value) -> Vec<(u8, u8)>
        ensures { (reverse result.items) ≡ as_ranges (value part) }
    {
        match part {
            Value::Count(CountValue::Ranges(list)) => list,
            other => {
                drop(other);
                Vec::new(alloc)
            }
        }
    }

    fn list_value(list: Vec<(u8, u8)>) -> Value
        ensures { value result ≡ ranges ((reverse list.items)) }
    {
        Value::Count(CountValue::Ranges(list))
    }
}

pub fn take_range(part: Value) -> (u8, u8)
    ensures { result ≡ range_in (value part) }
{
    match part {
        Value::Count(CountValue::Range(range)) => range,
        other => {
            drop(other);
            (0, 0)
        }
    }
}

/// An upper bound, which is missing where it is `*`.
pub fn take_upper_if_any(part: Value) -> Option<Option<i64>>
    ensures { result ≡ upper_part (value part) }
{
    match part {
        Value::Count(CountValue::Upper(upper)) => Some(upper),
        other => {
            drop(other);
            None
        }
    }
}

/// What `break` and `next` count, and the kind that they name.
pub fn take_leaving(part: Value) -> (u32, Option<LoopKind>)
    ensures count { result.0 ≡ count_in (value part) }
    ensures kind { result.1 ≡ loop_in (value part) }
{
    match part {
        Value::Count(CountValue::Leaving(count, kind)) => (count, kind),
        other => {
            drop(other);
            (1, None)
        }
    }
}
