// Names with dimensions, and the statements that have lists of them (X3.9-1966, sections 7.2.1.2, 7.2.1.3 and 7.2.1.6).
ghost use Rattle.std.specs.Prelude.{◌≡◌, ◌∷◌, [], ◌^◌, ◌<◌, IfOk, length, map};
ghost use Rattle.std.specs.Option.{option_map};
ghost use Rattle.f66_tree.specs.Syntax.{Declared as DeclaredData};
ghost use Rattle.f66_tree.specs.Views.{area_of as area_view, chained, declared_of as declared_view, formula_of, par_of};
ghost use Rattle.stmt_reader.specs.Acts.{act_if, par_option};
ghost use Rattle.stmt_reader.specs.Cutting.{is_comma};
ghost use Rattle.stmt_reader.specs.Declarations.{area_of, areas_of, commons_in, commons_of, declarations_of, declared_in as declared_of_tree, declared_of, dimensions_of, par_in as par_of_tree, pars_in as pars_of_tree, types_of};
ghost use Rattle.stmt_reader.specs.Splitting.{is_slash, list_of, split};
ghost use Rattle.stmt_reader.specs.Taking.{then_if};
ghost use Rattle.stmt_parts.specs.Lists.{all_pieces, area_with, list_if, onto, with_last};

use crate::lists::{Member, read_list};
use f66_tree::{Area, Declared, Expr, Name, Par, StmtKind, TypeWord};
use ground::List;
use std::alloc::{AllocError, Global};
use stmt_reader::{Stop, Token, cut_at, read_expression};

/// Names with dimensions.
pub struct Declarations;

impl Member for Declarations {
    type Read = Declared;

    ghost Plain = { DeclaredData };

    ghost plain = { declared_view };

    ghost member_of = { declared_of };

    fn read(alloc: Global, tokens: &[Token]) -> Result<Option<Declared>, AllocError> {
        match read_expression(alloc, tokens)? {
            None => Ok(None),
            Some(e) => declared_in(alloc, e),
        }
    }
}

fn declared_in(alloc: Global, e: Expr) -> Result<Option<Declared>, AllocError>
    ensures { IfOk result (λ d. option_map declared_view d ≡ declared_of_tree (formula_of e)) }
{
    match e {
        Expr::Ref(name) => Ok(Some(Declared {
            name,
            sizes: Vec::new(alloc),
        })),
        Expr::Item(item) => {
            let (name, list) = Box::into_inner(item);
            match pars_in(Vec::new(alloc), &list)? {
                None => Ok(None),
                Some(sizes) => Ok(Some(Declared { name, sizes })),
            }
        }
        _ => Ok(None),
    }
}

/// The dimensions before, with those of a list behind them.
fn pars_in(before: List<Par>, list: &[Expr]) -> Result<Option<List<Par>>, AllocError>
    ensures { IfOk result (λ r. list_if par_of r ≡ onto (map par_of before.items) (pars_of_tree (chained (map formula_of list.now)))) }
{
    match list {
        [] => Ok(Some(before)),
        [e, list @ ..] => match par_in(e)? {
            None => Ok(None),
            Some(par) => {
                let mut pars = before;
                pars.push(par)?;
                pars_in(pars, list)
            }
        },
    }
}

fn par_in(e: &Expr) -> Result<Option<Par>, AllocError>
    ensures { IfOk result (λ p. par_option p ≡ par_of_tree (formula_of e.now)) }
{
    match e {
        Expr::Int(value) => Ok(Some(Par::Number(*value))),
        Expr::Ref(name) => Ok(Some(Par::Variable(name.copy()?))),
        _ => Ok(None),
    }
}

/// A type statement, behind its word.
pub fn read_types(
    alloc: Global,
    word: TypeWord,
    tokens: &[Token],
) -> Result<Option<StmtKind>, AllocError>
    requires { length tokens.now < 2 ^ 63 }
    ensures { IfOk result (λ s. act_if s ≡ types_of word tokens.now) }
{
    match read_list::<Declarations>(alloc, tokens)? {
        None => Ok(None),
        Some(list) => Ok(Some(StmtKind::Typed(word, list))),
    }
}

/// A DIMENSION, behind its word.
pub fn read_dimension(alloc: Global, tokens: &[Token]) -> Result<Option<StmtKind>, AllocError>
    requires { length tokens.now < 2 ^ 63 }
    ensures { IfOk result (λ s. act_if s ≡ dimensions_of tokens.now) }
{
    match read_list::<Declarations>(alloc, tokens)? {
        None => Ok(None),
        Some(list) => Ok(Some(StmtKind::Dimension(list))),
    }
}

/// A COMMON, behind its word.
pub fn read_common(alloc: Global, tokens: &[Token]) -> Result<Option<StmtKind>, AllocError>
    requires { length tokens.now < 2 ^ 63 }
    ensures { IfOk result (λ s. act_if s ≡ commons_of tokens.now) }
{
    match areas(alloc, tokens)? {
        None => Ok(None),
        Some(areas) => Ok(Some(StmtKind::Common(areas))),
    }
}

/// Blank common, where its names come first, and the blocks behind slashes.
fn areas(alloc: Global, tokens: &[Token]) -> Result<Option<List<Area>>, AllocError>
    requires { length tokens.now < 2 ^ 63 }
    ensures { IfOk result (λ r. list_if area_view r ≡ commons_in (split is_slash 0 tokens.now)) }
{
    match cut_at(tokens, 0, Stop::Slash) {
        None => blank_common(alloc, tokens),
        Some(at) => areas_from(alloc, &tokens[..at], &tokens[at + 1..]),
    }
}

fn blank_common(alloc: Global, list: &[Token]) -> Result<Option<List<Area>>, AllocError>
    requires { length list.now < 2 ^ 63 }
    ensures { IfOk result (λ r. list_if area_view r ≡ commons_in (list.now, [])) }
{
    if list.is_empty() {
        return Ok(None);
    }
    add_area(alloc, Vec::new(alloc), &[], list)
}

/// Blank common with the names before the first slash, where there are some, and the blocks behind it.
fn areas_from(
    alloc: Global,
    list: &[Token],
    behind: &[Token],
) -> Result<Option<List<Area>>, AllocError>
    requires list { length list.now < 2 ^ 63 }
    requires behind { length behind.now < 2 ^ 63 }
    ensures { IfOk result (λ r. list_if area_view r ≡ commons_in (list.now, all_pieces (split is_slash 0 behind.now))) }
{
    if list.is_empty() {
        return add_areas(alloc, Vec::new(alloc), behind);
    }
    match add_area(alloc, Vec::new(alloc), &[], list)? {
        None => Ok(None),
        Some(areas) => add_areas(alloc, areas, behind),
    }
}

/// The blocks before, and those that tokens behind a slash give: a name, a slash and a list, and so on.
#[cycle(areas)]
fn add_areas(
    alloc: Global,
    before: List<Area>,
    tokens: &[Token],
) -> Result<Option<List<Area>>, AllocError>
    requires { length tokens.now < 2 ^ 63 }
    ensures { IfOk result (λ r. list_if area_view r ≡ onto (map area_view before.items) (areas_of (all_pieces (split is_slash 0 tokens.now)))) }
{
    match cut_at(tokens, 0, Stop::Slash) {
        None => Ok(None),
        Some(at) => add_named(alloc, before, &tokens[..at], &tokens[at + 1..]),
    }
}

/// The blocks before, one with this name, whose list stands before the next slash, and those behind.
#[cycle(areas)]
fn add_named(
    alloc: Global,
    before: List<Area>,
    name: &[Token],
    tokens: &[Token],
) -> Result<Option<List<Area>>, AllocError>
    requires { length tokens.now < 2 ^ 63 }
    ensures { IfOk result (λ r. list_if area_view r ≡ onto (map area_view before.items) (areas_of (name.now ∷ all_pieces (split is_slash 0 tokens.now)))) }
{
    match cut_at(tokens, 0, Stop::Slash) {
        None => add_area(alloc, before, name, tokens),
        Some(at) => match add_area(alloc, before, name, &tokens[..at])? {
            None => Ok(None),
            Some(areas) => add_areas(alloc, areas, &tokens[at + 1..]),
        },
    }
}

/// The blocks before, and the one with this name and this list.
fn add_area(
    alloc: Global,
    before: List<Area>,
    name: &[Token],
    list: &[Token],
) -> Result<Option<List<Area>>, AllocError>
    requires { length list.now < 2 ^ 63 }
    ensures { IfOk result (λ r. list_if area_view r ≡ with_last (map area_view before.items) (area_of name.now list.now)) }
{
    match area(alloc, name, list)? {
        None => Ok(None),
        Some(area) => {
            let mut areas = before;
            areas.push(area)?;
            Ok(Some(areas))
        }
    }
}

fn area(alloc: Global, name: &[Token], list: &[Token]) -> Result<Option<Area>, AllocError>
    requires { length list.now < 2 ^ 63 }
    ensures { IfOk result (λ a. option_map area_view a ≡ area_of name.now list.now) }
{
    match name {
        [] => named_area(alloc, None, list),
        [Token::Word(text)] => {
            let name = Name::new(text.clone()?);
            named_area(alloc, Some(name), list)
        }
        _ => Ok(None),
    }
}

fn named_area(alloc: Global, name: Option<Name>, list: &[Token]) -> Result<Option<Area>, AllocError>
    requires { length list.now < 2 ^ 63 }
    ensures { IfOk result (λ a. option_map area_view a ≡ then_if (declarations_of list.now) (area_with name)) }
{
    match read_list::<Declarations>(alloc, list)? {
        None => Ok(None),
        Some(list) => Ok(Some(Area { name, list })),
    }
}
