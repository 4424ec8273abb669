// Expressions.

ghost use Rattle.std.specs.Prelude.{◌≡◌, IfOk, map};
ghost use Rattle.grammar.specs.declared.language.Symbol.TheVariants.{Nonterminal as nonterminal_symbol};
ghost use Rattle.f66_tree.specs.Syntax.{Int, Not, Group, Pair};
ghost use Rattle.f66_tree.specs.Views.{formula_of};
ghost use Rattle.rat_parse_table.specs.declared.table.Nonterminal.TheVariants as nonterminals;
ghost use Rattle.rat_parse_values.specs.Values.{tok, formula, formulas, located};
ghost use Rattle.rat_parse_values.specs.Parts.{kind_integer};
ghost use Rattle.rat_parse_values.specs.Phrases.{signed as signed_so};
ghost use Rattle.rat_descent.specs.Reading.{Reads, Formed};

use crate::reader::{Reader, close_production, is_at, open_production, take_token};
use crate::tokens::{name_of, name_token, number_token, operator_at};
use descent::GiveUp;
use f66_tree::{Expr, Operator, applied, paired};
use ground::{List, Place, Token};
use rat_parse_table::{Production, Terminal};
use rat_parse_values::{integer_of_kind, is_minus, is_true, sign_of_kind};
use std::alloc::{AllocError, Global};
use std::mem;

/// An expression behind this sign.
pub fn signed(alloc: Global, sign: &Token, e: Expr) -> Result<Expr, AllocError>
    ensures { IfOk result (λ r. formula_of r ≡ signed_so (tok sign.now) (formula_of e)) }
{
    let minus = is_minus(sign_of_kind(&sign.kind));
    let e = Box::new(alloc, e)?;
    if minus {
        Ok(Expr::Minus(e))
    } else {
        Ok(Expr::Plus(e))
    }
}

// The levels of an expression leave what they read in a place that they are handed: an operand that no operator follows is not moved
// from level to level.

fn put(e: &mut Expr, value: Expr)
    ensures { e.new ≡ value }
{
    drop(mem::replace(e, value));
}

/// What stands in the place of an expression that is not read yet.
pub fn unread() -> Expr {
    Expr::Truth(false)
}

fn constant(number: &Token) -> Expr
    ensures { formula_of result ≡ Int (kind_integer number.now.kind) }
{
    Expr::Int(integer_of_kind(&number.kind))
}

/// The expression with an operator and another operand behind it.
fn join(alloc: Global, e: &mut Expr, operator: Operator, right: Expr) -> Result<(), AllocError>
    ensures { IfOk result (λ nothing. formula_of e.new ≡ Pair operator (formula_of e.old) (formula_of right)) }
{
    let left = mem::replace(e, unread());
    put(e, paired(alloc, operator, left, right)?);
    Ok(())
}

fn negate(alloc: Global, e: &mut Expr) -> Result<(), AllocError>
    ensures { IfOk result (λ nothing. formula_of e.new ≡ Not (formula_of e.old)) }
{
    let operand = mem::replace(e, unread());
    put(e, Expr::Not(Box::new(alloc, operand)?));
    Ok(())
}

fn sign(alloc: Global, sign: &Token, e: &mut Expr) -> Result<(), AllocError>
    ensures { IfOk result (λ nothing. formula_of e.new ≡ signed_so (tok sign.now) (formula_of e.old)) }
{
    let operand = mem::replace(e, unread());
    put(e, signed(alloc, sign, operand)?);
    Ok(())
}

fn grouped(alloc: Global, e: Expr) -> Result<Expr, AllocError>
    ensures { IfOk result (λ r. formula_of r ≡ Group (formula_of e)) }
{
    let e = Box::new(alloc, e)?;
    Ok(Expr::Group(e))
}

/// Operands of `.OR.`. So many expressions may still stand inside one another.
#[cycle(expression)]
pub fn expression(alloc: Global, reader: &mut Reader<'_>, room: usize) -> Result<Expr, GiveUp>
    ensures { IfOk result (λ e. Reads (nonterminal_symbol nonterminals.Expr) reader.old (formula (formula_of e)) reader.new) }
{
    open_production(reader, Production::Expr);
    let mut e = unread();
    conjunction(alloc, reader, room, &mut e)?;
    'more: for _ in 0..reader.rest.len() {
        if !is_at(reader, Terminal::Or) {
            close_production(reader, Production::Expr);
            return Ok(e);
        }
        let operator = operator_at(take_token(reader, Terminal::Or)?);
        let mut right = unread();
        conjunction(alloc, reader, room, &mut right)?;
        join(alloc, &mut e, operator, right)?;
    }
    Err(GiveUp)
}

#[cycle(expression)]
fn conjunction(
    alloc: Global,
    reader: &mut Reader<'_>,
    room: usize,
    e: &mut Expr,
) -> Result<(), GiveUp>
    ensures { IfOk result (λ nothing. Reads (nonterminal_symbol nonterminals.Conjunction) reader.old (formula (formula_of e.new)) reader.new) }
{
    negation(alloc, reader, room, e)?;
    'more: for _ in 0..reader.rest.len() {
        if !is_at(reader, Terminal::And) {
            return Ok(());
        }
        let operator = operator_at(take_token(reader, Terminal::And)?);
        let mut right = unread();
        negation(alloc, reader, room, &mut right)?;
        join(alloc, e, operator, right)?;
    }
    Err(GiveUp)
}

#[cycle(expression)]
fn negation(alloc: Global, reader: &mut Reader<'_>, room: usize, e: &mut Expr) -> Result<(), GiveUp>
    ensures { IfOk result (λ nothing. Reads (nonterminal_symbol nonterminals.Negation) reader.old (formula (formula_of e.new)) reader.new) }
{
    if !is_at(reader, Terminal::Not) {
        relational(alloc, reader, room, e)?;
        return Ok(());
    }
    open_production(reader, Production::Negated);
    take_token(reader, Terminal::Not)?;
    relational(alloc, reader, room, e)?;
    close_production(reader, Production::Negated);
    negate(alloc, e)?;
    Ok(())
}

#[cycle(expression)]
fn relational(
    alloc: Global,
    reader: &mut Reader<'_>,
    room: usize,
    e: &mut Expr,
) -> Result<(), GiveUp>
    ensures { IfOk result (λ nothing. Reads (nonterminal_symbol nonterminals.Relational) reader.old (formula (formula_of e.new)) reader.new) }
{
    sum(alloc, reader, room, e)?;
    if !is_at(reader, Terminal::Relation) {
        return Ok(());
    }
    let operator = operator_at(take_token(reader, Terminal::Relation)?);
    let mut right = unread();
    sum(alloc, reader, room, &mut right)?;
    join(alloc, e, operator, right)?;
    Ok(())
}

#[cycle(expression)]
fn sum(alloc: Global, reader: &mut Reader<'_>, room: usize, e: &mut Expr) -> Result<(), GiveUp>
    ensures { IfOk result (λ nothing. Reads (nonterminal_symbol nonterminals.Sum) reader.old (formula (formula_of e.new)) reader.new) }
{
    first_term(alloc, reader, room, e)?;
    'more: for _ in 0..reader.rest.len() {
        if !is_at(reader, Terminal::Adding) {
            return Ok(());
        }
        let operator = operator_at(take_token(reader, Terminal::Adding)?);
        let mut right = unread();
        term(alloc, reader, room, &mut right)?;
        join(alloc, e, operator, right)?;
    }
    Err(GiveUp)
}

#[cycle(expression)]
fn first_term(
    alloc: Global,
    reader: &mut Reader<'_>,
    room: usize,
    e: &mut Expr,
) -> Result<(), GiveUp>
    ensures { IfOk result (λ nothing. Reads (nonterminal_symbol nonterminals.FirstTerm) reader.old (formula (formula_of e.new)) reader.new) }
{
    if !is_at(reader, Terminal::Adding) {
        term(alloc, reader, room, e)?;
        return Ok(());
    }
    open_production(reader, Production::SignedTerm);
    let token = take_token(reader, Terminal::Adding)?;
    term(alloc, reader, room, e)?;
    close_production(reader, Production::SignedTerm);
    sign(alloc, token, e)?;
    Ok(())
}

#[cycle(expression)]
fn term(alloc: Global, reader: &mut Reader<'_>, room: usize, e: &mut Expr) -> Result<(), GiveUp>
    ensures { IfOk result (λ nothing. Reads (nonterminal_symbol nonterminals.Term) reader.old (formula (formula_of e.new)) reader.new) }
{
    factor(alloc, reader, room, e)?;
    'more: for _ in 0..reader.rest.len() {
        let operator = if is_at(reader, Terminal::Star) {
            operator_at(take_token(reader, Terminal::Star)?)
        } else if is_at(reader, Terminal::Slash) {
            operator_at(take_token(reader, Terminal::Slash)?)
        } else {
            return Ok(());
        };
        let mut right = unread();
        factor(alloc, reader, room, &mut right)?;
        join(alloc, e, operator, right)?;
    }
    Err(GiveUp)
}

#[cycle(expression)]
fn factor(alloc: Global, reader: &mut Reader<'_>, room: usize, e: &mut Expr) -> Result<(), GiveUp>
    ensures { IfOk result (λ nothing. Reads (nonterminal_symbol nonterminals.Factor) reader.old (formula (formula_of e.new)) reader.new) }
{
    prime(alloc, reader, room, e)?;
    if !is_at(reader, Terminal::Power) {
        return Ok(());
    }
    let operator = operator_at(take_token(reader, Terminal::Power)?);
    let mut right = unread();
    prime(alloc, reader, room, &mut right)?;
    join(alloc, e, operator, right)?;
    Ok(())
}

#[cycle(expression)]
fn prime(alloc: Global, reader: &mut Reader<'_>, room: usize, e: &mut Expr) -> Result<(), GiveUp>
    ensures { IfOk result (λ nothing. Formed nonterminals.Prime reader.old (formula_of e.new) reader.new) }
{
    match reader.seen {
        Terminal::Octal | Terminal::Number => {
            put(e, constant(number_token(reader)?));
            Ok(())
        }
        Terminal::Truth => {
            let sign = sign_of_kind(&take_token(reader, Terminal::Truth)?.kind);
            put(e, Expr::Truth(is_true(sign)));
            Ok(())
        }
        Terminal::Open => group(alloc, reader, room, e),
        _ => {
            read_reference(alloc, reader, room, e)?;
            Ok(())
        }
    }
}

#[cycle(expression)]
fn group(alloc: Global, reader: &mut Reader<'_>, room: usize, e: &mut Expr) -> Result<(), GiveUp>
    ensures { IfOk result (λ nothing. Formed nonterminals.Prime reader.old (formula_of e.new) reader.new) }
{
    let Some(room) = room.checked_sub(1) else {
        return Err(GiveUp);
    };
    open_production(reader, Production::GroupPrime);
    take_token(reader, Terminal::Open)?;
    let inner = expression(alloc, reader, room)?;
    take_token(reader, Terminal::Close)?;
    put(e, grouped(alloc, inner)?);
    Ok(())
}

/// A name, alone or with subscripts. It answers the name's place.
#[cycle(expression)]
pub fn read_reference(
    alloc: Global,
    reader: &mut Reader<'_>,
    room: usize,
    e: &mut Expr,
) -> Result<Place, GiveUp>
    ensures { IfOk result (λ place. Reads (nonterminal_symbol nonterminals.Ref) reader.old (located place (formula_of e.new)) reader.new) }
{
    open_production(reader, Production::Ref);
    let token = name_token(reader)?;
    let name = name_of(token)?;
    if !is_at(reader, Terminal::Open) {
        close_production(reader, Production::Ref);
        put(e, Expr::Ref(name));
        return Ok(token.place);
    }
    let list = subscripts(alloc, reader, room)?;
    close_production(reader, Production::Ref);
    put(e, applied(name, list)?);
    Ok(token.place)
}

/// The same as a value, with its place.
pub fn reference(
    alloc: Global,
    reader: &mut Reader<'_>,
    room: usize,
) -> Result<(Place, Expr), GiveUp>
    ensures { IfOk result (λ e. Reads (nonterminal_symbol nonterminals.Ref) reader.old (located e.0 (formula_of e.1)) reader.new) }
{
    let mut e = unread();
    let place = read_reference(alloc, reader, room, &mut e)?;
    Ok((place, e))
}

/// Expressions in parentheses.
#[cycle(expression)]
pub fn subscripts(alloc: Global, reader: &mut Reader<'_>, room: usize) -> Result<List<Expr>, GiveUp>
    ensures { IfOk result (λ list. Reads (nonterminal_symbol nonterminals.Subscripts) reader.old (formulas (map formula_of list.items)) reader.new) }
{
    let Some(room) = room.checked_sub(1) else {
        return Err(GiveUp);
    };
    take_token(reader, Terminal::Open)?;
    let first = expression(alloc, reader, room)?;
    let mut list = Vec::new(alloc);
    list.push(first)?;
    'more: for _ in 0..reader.rest.len() {
        if !is_at(reader, Terminal::Comma) {
            take_token(reader, Terminal::Close)?;
            return Ok(list);
        }
        take_token(reader, Terminal::Comma)?;
        list.push(expression(alloc, reader, room)?)?;
    }
    Err(GiveUp)
}
