// Where commas stand in a FORMAT.
ghost use Rattle.std.specs.Prelude.{◌≡◌, ◌&&◌, ℕ, Option};
ghost use Rattle.stmt_reader.specs.Formats.{Field, Items, Nest, Nothing, Then, is_separated, may_begin as may_begin_in, may_end as may_end_in, may_point as may_point_in};
ghost use Rattle.stmt_formats.specs.States.{before_of, item_of, items_of, separated_behind};

use crate::items::Item;

/// What stands before: nothing, a comma, a slash, or another field.
#[derive(Clone, Copy)]
pub enum Before {
    Nothing,
    Comma,
    Stroke,
    Field,
}

impl Before {
    fn may_begin(self) -> bool
        ensures { result ≡ may_begin_in (before_of self) }
    {
        match self {
            Before::Field => false,
            _ => true,
        }
    }

    fn may_point(self) -> bool
        ensures { result ≡ may_point_in (before_of self) }
    {
        match self {
            Before::Field => true,
            Before::Stroke => true,
            _ => false,
        }
    }

    fn may_end(self) -> bool
        ensures { result ≡ may_end_in (before_of self) }
    {
        match self {
            Before::Comma => false,
            _ => true,
        }
    }
}

/// Whether a comma stands between two fields, which may be missing beside a slash.
#[cycle(are_separated)]
pub fn are_separated(items: &[Item]) -> bool
    ensures { result ≡ is_separated Nothing (items_of items.now) }
{
    let mut before = Before::Nothing;
    for item in items {
        match behind(before, item) {
            None => return false,
            Some(next) => before = next,
        }
    }
    before.may_end()
}

#[cycle(are_separated)]
fn behind(before: Before, item: &Item) -> Option<Before>
    ensures { (rest : Items) → is_separated (before_of before) (Then (item_of item.now) rest) ≡ separated_behind result rest }
{
    match item {
        Item::Stroke => Some(Before::Stroke),
        Item::Point => {
            if before.may_point() {
                Some(Before::Comma)
            } else {
                None
            }
        }
        Item::Nest(_count, inside) => behind_nest(before, inside),
        Item::Edit(_, _) => behind_field(before),
        Item::Words(_) => behind_field(before),
    }
}

#[cycle(are_separated)]
fn behind_nest(before: Before, inside: &[Item]) -> Option<Before>
    ensures { (n : Option ℕ) (rest : Items) → is_separated (before_of before) (Then (Nest n (items_of inside.now)) rest) ≡ separated_behind result rest }
{
    if !are_separated(inside) {
        return None;
    }
    behind_field(before)
}

fn behind_field(before: Before) -> Option<Before>
    ensures { (rest : Items) → (may_begin_in (before_of before) && is_separated Field rest) ≡ separated_behind result rest }
{
    if before.may_begin() {
        Some(Before::Field)
    } else {
        None
    }
}
