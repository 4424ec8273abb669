// EQUIVALENCE and DATA (X3.9-1966, sections 7.2.1.4 and 7.2.2).
ghost use Rattle.std.specs.Prelude.{◌≡◌, ◌∷◌, [], ◌^◌, ◌<◌, ℕ, List, IfOk, length, map};
ghost use Rattle.std.specs.Option.{option_map};
ghost use Rattle.f66_tree.specs.Syntax.{Formula, Item};
ghost use Rattle.f66_tree.specs.Views.{chained, formula_of, formulas_of, initial_of, preset_of as preset_view};
ghost use Rattle.stmt_reader.specs.Acts.{act_if};
ghost use Rattle.stmt_reader.specs.Cutting.{is_comma as is_comma_token};
ghost use Rattle.stmt_reader.specs.Declarations.{constant_of, equivalences_of, group_in as group_of_tree, group_of, place_of, places_in, preset_of, presets_in, presets_of, value_of};
ghost use Rattle.stmt_reader.specs.Splitting.{is_slash, split};
ghost use Rattle.stmt_reader.specs.Stacks.{formula_if};
ghost use Rattle.stmt_reader.specs.Taking.{place_if};
ghost use Rattle.stmt_parts.specs.Lists.{all_pieces, kept, list_if, onto, presets_by, with_last};

use crate::lists::{Member, read_list};
use f66_tree::{Expr, Name, Operator, PresetPart, StmtKind};
use ground::{List, Text};
use std::alloc::{AllocError, Global};
use stmt_reader::{Stop, Token, add_copies, cut_at, place, read_expression};

/// Groups of places that share storage.
pub struct Groups;

impl Member for Groups {
    type Read = List<Expr>;

    ghost Plain = { List Formula };

    ghost plain = { λ group. map formula_of group.items };

    ghost member_of = { group_of };

    fn read(alloc: Global, tokens: &[Token]) -> Result<Option<List<Expr>>, AllocError> {
        match tokens {
            [Token::Open, ..] => {
                let mut all = Vec::new(alloc);
                all.push(Token::Word(Text::from_slice(alloc, b"E".as_slice())?))?;
                add_copies(&mut all, tokens)?;
                match read_expression(alloc, &all)? {
                    None => Ok(None),
                    Some(e) => Ok(group_in(e)),
                }
            }
            _ => Ok(None),
        }
    }
}

/// A group is read as the arguments of a name.
fn group_in(e: Expr) -> Option<List<Expr>>
    ensures { option_map (λ group. map formula_of group.items) result ≡ group_of_tree (formula_of e) }
{
    match e {
        Expr::Item(item) => {
            let (name, list) = Box::into_inner(item);
            places_of(name, list)
        }
        _ => None,
    }
}

/// A group has two places or more.
fn places_of(name: Name, list: List<Expr>) -> Option<List<Expr>>
    ensures { option_map (λ group. map formula_of group.items) result ≡ group_of_tree (Item name (formulas_of list.items)) }
{
    if list.len() < 2 {
        return None;
    }
    if are_places(&list) { Some(list) } else { None }
}

fn are_places(list: &[Expr]) -> bool
    ensures { kept result (map formula_of list.now) ≡ places_in (chained (map formula_of list.now)) }
{
    match list {
        [] => true,
        [e, list @ ..] => is_place(e) && are_places(list),
    }
}

fn is_place(e: &Expr) -> bool
    ensures { kept result (formula_of e.now) ≡ place_if (formula_of e.now) }
{
    match e {
        Expr::Ref(_) => true,
        Expr::Item(_) => true,
        _ => false,
    }
}

/// An EQUIVALENCE, behind its word.
pub fn read_equivalence(alloc: Global, tokens: &[Token]) -> Result<Option<StmtKind>, AllocError>
    requires { length tokens.now < 2 ^ 63 }
    ensures { IfOk result (λ s. act_if s ≡ equivalences_of tokens.now) }
{
    match read_list::<Groups>(alloc, tokens)? {
        None => Ok(None),
        Some(groups) => Ok(Some(StmtKind::Equivalence(groups))),
    }
}

/// Variables and elements of arrays.
pub struct Places;

impl Member for Places {
    type Read = Expr;

    ghost Plain = { Formula };

    ghost plain = { formula_of };

    ghost member_of = { place_of };

    fn read(alloc: Global, tokens: &[Token]) -> Result<Option<Expr>, AllocError> {
        match read_expression(alloc, tokens)? {
            None => Ok(None),
            Some(e) => Ok(place(e)),
        }
    }
}

/// Constants with their counts.
pub struct Values;

impl Member for Values {
    type Read = (u32, Expr);

    ghost Plain = { ℕ × Formula };

    ghost plain = { initial_of };

    ghost member_of = { value_of };

    fn read(alloc: Global, tokens: &[Token]) -> Result<Option<(u32, Expr)>, AllocError> {
        match tokens {
            [
                Token::Number(count),
                Token::Joint(Operator::Mul),
                tokens @ ..,
            ] => counted(alloc, *count, tokens),
            _ => counted(alloc, 1, tokens),
        }
    }
}

fn counted(alloc: Global, count: u32, tokens: &[Token]) -> Result<Option<(u32, Expr)>, AllocError>
    ensures { IfOk result (λ v. option_map initial_of v ≡ option_map (λ c. (count, c)) (constant_of tokens.now)) }
{
    match constant(alloc, tokens)? {
        None => Ok(None),
        Some(e) => Ok(Some((count, e))),
    }
}

fn constant(alloc: Global, tokens: &[Token]) -> Result<Option<Expr>, AllocError>
    ensures { IfOk result (λ e. formula_if e ≡ constant_of tokens.now) }
{
    match tokens {
        [token] => Ok(bare_constant(token)),
        [Token::Joint(Operator::Add), Token::Number(n)] => {
            let e = Expr::Int(i64::from(*n));
            Ok(Some(Expr::Plus(Box::new(alloc, e)?)))
        }
        [Token::Joint(Operator::Sub), Token::Number(n)] => {
            let e = Expr::Int(i64::from(*n));
            Ok(Some(Expr::Minus(Box::new(alloc, e)?)))
        }
        _ => Ok(None),
    }
}

fn bare_constant(token: &Token) -> Option<Expr>
    ensures { formula_if result ≡ constant_of (token.now ∷ []) }
{
    match token {
        Token::Number(n) => Some(Expr::Int(i64::from(*n))),
        Token::Truth(b) => Some(Expr::Truth(*b)),
        Token::Chars(text) => match text.as_bytes() {
            [c] => Some(Expr::Letter(*c)),
            _ => None,
        },
        _ => None,
    }
}

/// A DATA, behind its word.
pub fn read_data(alloc: Global, tokens: &[Token]) -> Result<Option<StmtKind>, AllocError>
    requires { length tokens.now < 2 ^ 63 }
    ensures { IfOk result (λ s. act_if s ≡ presets_of tokens.now) }
{
    match add_presets(alloc, Vec::new(alloc), tokens)? {
        None => Ok(None),
        Some(parts) => Ok(Some(StmtKind::Preset(parts))),
    }
}

/// The parts before, and those that tokens give: places, and values between slashes.
#[cycle(presets)]
fn add_presets(
    alloc: Global,
    before: List<PresetPart>,
    tokens: &[Token],
) -> Result<Option<List<PresetPart>>, AllocError>
    requires { length tokens.now < 2 ^ 63 }
    ensures { IfOk result (λ r. list_if preset_view r ≡ onto (map preset_view before.items) (presets_by (split is_slash 0 tokens.now))) }
{
    match cut_at(tokens, 0, Stop::Slash) {
        None => Ok(None),
        Some(at) => add_values(alloc, before, &tokens[..at], &tokens[at + 1..]),
    }
}

/// The parts before, one with these places, whose values stand before the next slash, and those behind.
#[cycle(presets)]
fn add_values(
    alloc: Global,
    before: List<PresetPart>,
    places: &[Token],
    tokens: &[Token],
) -> Result<Option<List<PresetPart>>, AllocError>
    requires places { length places.now < 2 ^ 63 }
    requires tokens { length tokens.now < 2 ^ 63 }
    ensures { IfOk result (λ r. list_if preset_view r ≡ onto (map preset_view before.items) (presets_in places.now (all_pieces (split is_slash 0 tokens.now)))) }
{
    match cut_at(tokens, 0, Stop::Slash) {
        None => Ok(None),
        Some(at) => add_parts(alloc, before, places, &tokens[..at], &tokens[at + 1..]),
    }
}

/// The parts before, one with these places and values, and those behind a comma.
#[cycle(presets)]
fn add_parts(
    alloc: Global,
    before: List<PresetPart>,
    places: &[Token],
    values: &[Token],
    behind: &[Token],
) -> Result<Option<List<PresetPart>>, AllocError>
    requires places { length places.now < 2 ^ 63 }
    requires values { length values.now < 2 ^ 63 }
    requires behind { length behind.now < 2 ^ 63 }
    ensures { IfOk result (λ r. list_if preset_view r ≡ onto (map preset_view before.items) (presets_in places.now (values.now ∷ all_pieces (split is_slash 0 behind.now)))) }
{
    match behind {
        [] => add_preset(alloc, before, places, values),
        [token, next @ ..] => {
            if !is_comma(token) {
                return Ok(None);
            }
            match add_preset(alloc, before, places, values)? {
                None => Ok(None),
                Some(parts) => add_presets(alloc, parts, next),
            }
        }
    }
}

fn is_comma(token: &Token) -> bool
    ensures { result ≡ is_comma_token token.now }
{
    match token {
        Token::Comma => true,
        _ => false,
    }
}

/// The parts before, and the one with these places and values.
fn add_preset(
    alloc: Global,
    before: List<PresetPart>,
    places: &[Token],
    values: &[Token],
) -> Result<Option<List<PresetPart>>, AllocError>
    requires places { length places.now < 2 ^ 63 }
    requires values { length values.now < 2 ^ 63 }
    ensures { IfOk result (λ r. list_if preset_view r ≡ with_last (map preset_view before.items) (preset_of places.now values.now)) }
{
    match preset(alloc, places, values)? {
        None => Ok(None),
        Some(part) => {
            let mut parts = before;
            parts.push(part)?;
            Ok(Some(parts))
        }
    }
}

fn preset(
    alloc: Global,
    places: &[Token],
    values: &[Token],
) -> Result<Option<PresetPart>, AllocError>
    requires places { length places.now < 2 ^ 63 }
    requires values { length values.now < 2 ^ 63 }
    ensures { IfOk result (λ p. option_map preset_view p ≡ preset_of places.now values.now) }
{
    let Some(places) = read_list::<Places>(alloc, places)? else {
        return Ok(None);
    };
    let Some(values) = read_list::<Values>(alloc, values)? else {
        return Ok(None);
    };
    Ok(Some(PresetPart { places, values }))
}
