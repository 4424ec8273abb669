// The items of a FORMAT, taken token by token.
ghost use Rattle.std.specs.Prelude.{◌≡◌, ◌++◌, ◌∷◌, [], None, IfOk, map};
ghost use Rattle.stmt_reader.specs.declared.token.Token.TheVariants.{Number as NumberData, Word as WordData, Open as OpenData, Close as CloseData};
ghost use Rattle.stmt_reader.specs.Formats.{At, Edit, add as add_in, all_taken, close as close_in, items_of as items_of_tokens, take as take_in};
ghost use Rattle.stmt_formats.specs.States.{arounds_onto, has_some, item_of, items_if, place_if, place_of};

use crate::items::Item;
use f66_tree::Operator;
use ground::{List, Text};
use std::alloc::{AllocError, Global};
use stmt_reader::Token;

/// A pair of parentheses that is open: its count, and what stands before it.
#[derive(Drop)]
pub struct Around {
    count: Option<u32>,
    before: List<Item>,
}

/// The parentheses that are open, the innermost last; the items in the innermost; and a number that stands last.
#[derive(Drop)]
pub struct Place {
    around: List<Around>,
    before: List<Item>,
    count: Option<u32>,
}

/// The items that tokens spell, if they spell some.
pub fn read_items(alloc: Global, tokens: &[Token]) -> Result<Option<List<Item>>, AllocError>
    ensures { IfOk result (λ r. items_if r ≡ items_of_tokens tokens.now) }
{
    let mut place = Place {
        around: Vec::new(alloc),
        before: Vec::new(alloc),
        count: None,
    };
    for token in tokens {
        match take(alloc, place, token)? {
            None => return Ok(None),
            Some(next) => place = next,
        }
    }
    Ok(whole(place))
}

#[tactic(auto, using(crate::proofs::PlaceLemmas::counted_none))]
fn whole(place: Place) -> Option<List<Item>>
    ensures { items_if result ≡ all_taken (place_of place) }
{
    match place.count {
        Some(_) => None,
        None => alone(place.around, place.before),
    }
}

/// The items, if no parentheses are open.
#[tactic(auto, using(crate::proofs::PlaceLemmas::none_open))]
fn alone(around: List<Around>, before: List<Item>) -> Option<List<Item>>
    ensures { items_if result ≡ all_taken (At (arounds_onto around.items []) (map item_of before.items) None) }
{
    if has_around(&around) {
        return None;
    }
    Some(before)
}

#[tactic(auto, using(crate::proofs::PlaceLemmas::some_around))]
fn has_around(all: &[Around]) -> bool
    ensures { result ≡ has_some (arounds_onto all.now []) }
{
    match all {
        [] => false,
        [_, ..] => true,
    }
}

/// Takes one token.
fn take(alloc: Global, place: Place, token: &Token) -> Result<Option<Place>, AllocError>
    ensures { IfOk result (λ p. place_if p ≡ take_in (place_of place) token.now) }
{
    match token {
        Token::Number(n) => Ok(number(place, *n)),
        Token::Word(text) => edit(place, text),
        Token::Chars(text) => {
            let item = Item::Words(text.clone()?);
            add(place, item)
        }
        Token::Joint(Operator::Div) => add(place, Item::Stroke),
        Token::Comma => add(place, Item::Point),
        Token::Open => open(alloc, place),
        Token::Close => close(place),
        _ => Ok(None),
    }
}

fn number(place: Place, n: u32) -> Option<Place>
    ensures { place_if result ≡ take_in (place_of place) (NumberData n) }
{
    match place.count {
        Some(_) => None,
        None => Some(Place {
            around: place.around,
            before: place.before,
            count: Some(n),
        }),
    }
}

fn edit(place: Place, text: &Text) -> Result<Option<Place>, AllocError>
    ensures { IfOk result (λ p. place_if p ≡ take_in (place_of place) (WordData text.now)) }
{
    let item = edit_item(place.count, text)?;
    let before = with_item(place.before, item)?;
    Ok(Some(Place {
        around: place.around,
        before,
        count: None,
    }))
}

fn edit_item(count: Option<u32>, text: &Text) -> Result<Item, AllocError>
    ensures { IfOk result (λ i. item_of i ≡ Edit count text.now) }
{
    Ok(Item::Edit(count, text.clone()?))
}

fn with_item(before: List<Item>, item: Item) -> Result<List<Item>, AllocError>
    ensures { IfOk result (λ r. r.items ≡ before.items ++ item ∷ []) }
{
    let mut items = before;
    items.push(item)?;
    Ok(items)
}

/// Adds an item that has no count.
fn add(place: Place, item: Item) -> Result<Option<Place>, AllocError>
    ensures { IfOk result (λ p. place_if p ≡ add_in (arounds_onto place.around.items []) (map item_of place.before.items) place.count (item_of item)) }
{
    match place.count {
        Some(_) => Ok(None),
        None => Ok(Some(Place {
            around: place.around,
            before: with_item(place.before, item)?,
            count: None,
        })),
    }
}

fn open(alloc: Global, place: Place) -> Result<Option<Place>, AllocError>
    ensures { IfOk result (λ p. place_if p ≡ take_in (place_of place) OpenData) }
{
    let Place {
        mut around,
        before,
        count,
    } = place;
    around.push(Around { count, before })?;
    Ok(Some(Place {
        around,
        before: Vec::new(alloc),
        count: None,
    }))
}

fn close(place: Place) -> Result<Option<Place>, AllocError>
    ensures { IfOk result (λ p. place_if p ≡ take_in (place_of place) CloseData) }
{
    match place.count {
        Some(_) => Ok(None),
        None => close_around(place.around, place.before),
    }
}

fn close_around(around: List<Around>, inside: List<Item>) -> Result<Option<Place>, AllocError>
    ensures { IfOk result (λ p. place_if p ≡ close_in (arounds_onto around.items []) (map item_of inside.items)) }
{
    let mut around = around;
    match around.pop() {
        None => Ok(None),
        Some(outer) => {
            let before = with_item(outer.before, Item::Nest(outer.count, inside))?;
            Ok(Some(Place {
                around,
                before,
                count: None,
            }))
        }
    }
}
