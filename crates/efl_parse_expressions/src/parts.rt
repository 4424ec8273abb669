// Productions that give what one of their parts does, or a list.
ghost use Rattle.std.specs.Prelude.{◌≡◌, IfOk};
ghost use Rattle.efl_parse_values.specs.Values.{value, values, last_of, at, nothing};

use efl_parse_values::{Item, Value, more_by, pop_value, skip};
use std::alloc::{AllocError, Global};

pub fn last_by(parts: &mut Vec<Value>) -> Value
    ensures { value result ≡ last_of (values parts.old.items) }
{
    pop_value(parts)
}

pub fn second_by(parts: &mut Vec<Value>) -> Value
    ensures { value result ≡ at 1 (values parts.old.items) }
{
    skip(parts);
    pop_value(parts)
}

pub fn third_by(parts: &mut Vec<Value>) -> Value
    ensures { value result ≡ at 2 (values parts.old.items) }
{
    skip(parts);
    second_by(parts)
}

/// The list that is the part before the last, with the part before that in front.
pub fn enclosed_by<T: Item>(alloc: Global, parts: &mut Vec<Value>) -> Result<Value, AllocError>
    ensures { IfOk result (λ v. value v ≡ T.listed (T.with_item (at 2 (values parts.old.items)) (T.list_in (at 1 (values parts.old.items))))) }
{
    skip(parts);
    more_by::<T>(alloc, parts)
}
