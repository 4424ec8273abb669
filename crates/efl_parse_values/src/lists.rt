// Parts of a production, and lists of parts, whatever they are lists of.
ghost use Rattle.std.specs.Prelude.{◌≡◌, ◌∷◌, [], List, reverse, IfOk};
ghost use Rattle.efl_parse_values.specs.Values.{Val, value, values, last_of, others, at};

use crate::value::Value;
use ground::List;
use std::alloc::{AllocError, Global};

/// Takes the last part, or nothing.
pub fn pop_value(parts: &mut Vec<Value>) -> Value
    ensures first { value result ≡ last_of (values parts.old.items) }
    ensures rest { values parts.new.items ≡ others (values parts.old.items) }
{
    match parts.pop() {
        Some(last) => last,
        None => Value::Nothing,
    }
}

/// Passes over the last part.
pub fn skip(parts: &mut Vec<Value>)
    ensures { values parts.new.items ≡ others (values parts.old.items) }
{
    drop(pop_value(parts));
}

/// A part of a text that stands in lists. A value has a list with its last item first.
pub trait Item: Sized + Drop {
    /// A list as plain data.
    ghost Plain: { Type 0 };

    ghost plain: { List Self → Plain };

    /// An item in front of a list.
    ghost more: { Self → Plain → Plain };

    /// The part that gives a list, and the list that a part gives.
    ghost listed: { Plain → Val };

    ghost list_in: { Val → Plain };

    /// What a part gives, in front of a list.
    ghost with_item: { Val → Plain → Plain };

    fn into_item(alloc: Global, part: Value) -> Self
        ensures { (rest : Plain) → more result rest ≡ with_item (value part) rest };

    fn into_list(alloc: Global, part: Value) -> Vec<Self>
        ensures { plain (reverse result.items) ≡ list_in (value part) };

    fn list_value(list: Vec<Self>) -> Value
        ensures { value result ≡ listed (plain (reverse list.items)) };

    ghost plain_more: { (x : Self) (xs : List Self) → plain (x ∷ xs) ≡ more x (plain xs) };
}

/// A list with nothing in it.
pub fn no_items<T: Item>(alloc: Global) -> Value
    ensures { value result ≡ T.listed (T.plain []) }
{
    T::list_value(Vec::new(alloc))
}

/// A list in order.
pub fn ordered<T: Item>(alloc: Global, part: Value) -> List<T>
    ensures { T.plain result.items ≡ T.list_in (value part) }
{
    let mut list: Vec<T> = T::into_list(alloc, part);
    list.reverse();
    list
}

/// A list with one more in front.
pub fn longer<T: Item>(alloc: Global, first: T, rest: Value) -> Result<Value, AllocError>
    ensures { IfOk result (λ v. value v ≡ T.listed (T.more first (T.list_in (value rest)))) }
{
    let mut items: Vec<T> = T::into_list(alloc, rest);
    items.push(first)?;
    Ok(T::list_value(items))
}

/// The list that is the last part, with the part before it in front.
pub fn more_by<T: Item>(alloc: Global, parts: &mut Vec<Value>) -> Result<Value, AllocError>
    ensures more { IfOk result (λ v. value v ≡ T.listed (T.with_item (at 1 (values parts.old.items)) (T.list_in (at 0 (values parts.old.items))))) }
    ensures rest { values parts.new.items ≡ others (others (values parts.old.items)) }
{
    let rest = pop_value(parts);
    let first = T::into_item(alloc, pop_value(parts));
    longer(alloc, first, rest)
}
