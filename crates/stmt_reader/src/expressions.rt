// Expressions from tokens.
ghost use Rattle.std.specs.Prelude.{◌≡◌, [], ◌∷◌, ◌++◌, IfOk, map};
ghost use Rattle.f66_tree.specs.Syntax.{Item};
ghost use Rattle.f66_tree.specs.Views.{chained, formula_of};
ghost use Rattle.stmt_reader.specs.Machine.{Has, Wants, close as close_in, comma as comma_in, expression_of, final, joint as joint_in, reduced, sign as sign_in, step as step_at, unless_above as unless_above_in, within as within_in};
ghost use Rattle.stmt_reader.specs.Stacks.{formula_if, frame_of, frames, state_of};

use crate::stack::{Operand, Stack, Waiting, closed_by, left_level, level};
use crate::token::Token;
use f66_tree::{Expr, Name, Operator};
use ground::{List, Text};
use std::alloc::{AllocError, Global};

/// The expression that tokens spell, if they spell one.
pub fn read_expression(alloc: Global, tokens: &[Token]) -> Result<Option<Expr>, AllocError>
    ensures { IfOk result (λ e. formula_if e ≡ expression_of tokens.now) }
{
    let mut stack = Stack::new(alloc);
    let mut operand = Operand::Wanted;
    for token in tokens {
        operand = step(alloc, &mut stack, operand, token)?;
    }
    match operand {
        Operand::Here(e) => whole(alloc, &mut stack, e),
        _ => Ok(None),
    }
}

fn whole(alloc: Global, stack: &mut Stack, operand: Expr) -> Result<Option<Expr>, AllocError>
    ensures { IfOk result (λ e. formula_if e ≡ final (Has (formula_of operand) (frames stack.old))) }
{
    let e = reduce(alloc, stack, 0, operand)?;
    match stack.pop() {
        None => Ok(Some(e)),
        Some(_) => Ok(None),
    }
}

/// Takes one token.
fn step(
    alloc: Global,
    stack: &mut Stack,
    operand: Operand,
    token: &Token,
) -> Result<Operand, AllocError>
    ensures { IfOk result (λ o. state_of o (frames stack.new) ≡ step_at (state_of operand (frames stack.old)) token.now) }
{
    match operand {
        Operand::Wanted => begin(stack, token),
        Operand::Here(e) => go_on(alloc, stack, e, token),
        Operand::Stuck => Ok(Operand::Stuck),
    }
}

/// Takes a token where an operand is wanted.
fn begin(stack: &mut Stack, token: &Token) -> Result<Operand, AllocError>
    ensures { IfOk result (λ o. state_of o (frames stack.new) ≡ step_at (Wants (frames stack.old)) token.now) }
{
    match token {
        Token::Word(text) => Ok(Operand::Here(Expr::Ref(name_of(text)?))),
        Token::Number(n) => Ok(Operand::Here(Expr::Int(i64::from(*n)))),
        Token::Truth(b) => Ok(Operand::Here(Expr::Truth(*b))),
        Token::Not => unless_above(stack, 2, Waiting::Denied),
        Token::Joint(operator) => sign(stack, *operator),
        Token::Open => {
            stack.push(Waiting::Opened)?;
            Ok(Operand::Wanted)
        }
        _ => Ok(Operand::Stuck),
    }
}

/// Takes a token behind an operand.
fn go_on(
    alloc: Global,
    stack: &mut Stack,
    operand: Expr,
    token: &Token,
) -> Result<Operand, AllocError>
    ensures { IfOk result (λ o. state_of o (frames stack.new) ≡ step_at (Has (formula_of operand) (frames stack.old)) token.now) }
{
    match token {
        Token::Joint(operator) => {
            let e = reduce(alloc, stack, left_level(*operator), operand)?;
            unless_above(stack, level(*operator), Waiting::Before(*operator, e))
        }
        Token::Open => within(alloc, stack, operand),
        Token::Comma => {
            let e = reduce(alloc, stack, 0, operand)?;
            comma(stack, e)
        }
        Token::Close => {
            let e = reduce(alloc, stack, 0, operand)?;
            close(alloc, stack, e)
        }
        _ => Ok(Operand::Stuck),
    }
}

/// A parenthesis behind a name.
fn within(alloc: Global, stack: &mut Stack, operand: Expr) -> Result<Operand, AllocError>
    ensures { IfOk result (λ o. state_of o (frames stack.new) ≡ within_in (formula_of operand) (frames stack.old)) }
{
    match operand {
        Expr::Ref(name) => {
            stack.push(Waiting::Within(name, Vec::new(alloc)))?;
            Ok(Operand::Wanted)
        }
        _ => Ok(Operand::Stuck),
    }
}

fn comma(stack: &mut Stack, operand: Expr) -> Result<Operand, AllocError>
    ensures { IfOk result (λ o. state_of o (frames stack.new) ≡ comma_in (Has (formula_of operand) (frames stack.old))) }
{
    match stack.pop() {
        Some(Waiting::Within(name, mut before)) => {
            before.push(operand)?;
            stack.push(Waiting::Within(name, before))?;
            Ok(Operand::Wanted)
        }
        _ => Ok(Operand::Stuck),
    }
}

fn close(alloc: Global, stack: &mut Stack, operand: Expr) -> Result<Operand, AllocError>
    ensures { IfOk result (λ o. state_of o (frames stack.new) ≡ close_in (Has (formula_of operand) (frames stack.old))) }
{
    match stack.pop() {
        Some(Waiting::Opened) => Ok(Operand::Here(Expr::Group(Box::new(alloc, operand)?))),
        Some(Waiting::Within(name, before)) => Ok(Operand::Here(applied(name, before, operand)?)),
        _ => Ok(Operand::Stuck),
    }
}

/// A name with its arguments, the last of which is this one.
fn applied(name: Name, before: List<Expr>, last: Expr) -> Result<Expr, AllocError>
    ensures { IfOk result (λ e. formula_of e ≡ Item name (chained (map formula_of before.items ++ formula_of last ∷ []))) }
{
    let mut list = before;
    list.push(last)?;
    f66_tree::applied(name, list)
}

fn name_of(text: &Text) -> Result<Name, AllocError>
    ensures { IfOk result (λ name. name ≡ text.now) }
{
    Ok(Name::new(text.clone()?))
}

/// The operand, after what waits above a level is closed.
fn reduce(alloc: Global, stack: &mut Stack, level: u8, operand: Expr) -> Result<Expr, AllocError>
    ensures { IfOk result (λ e. reduced level (frames stack.old) (formula_of operand) ≡ Has (formula_of e) (frames stack.new)) }
{
    if stack.floor() <= level {
        return Ok(operand);
    }
    match stack.pop() {
        None => Ok(operand),
        Some(waiting) => {
            let operand = closed_by(alloc, waiting, operand)?;
            reduce(alloc, stack, level, operand)
        }
    }
}

/// Lets something wait, if it may stand here.
fn unless_above(stack: &mut Stack, level: u8, waiting: Waiting) -> Result<Operand, AllocError>
    ensures { IfOk result (λ o. state_of o (frames stack.new) ≡ unless_above_in (frames stack.old) level (frame_of waiting)) }
{
    if stack.floor() > level {
        return Ok(Operand::Stuck);
    }
    stack.push(waiting)?;
    Ok(Operand::Wanted)
}

fn sign(stack: &mut Stack, operator: Operator) -> Result<Operand, AllocError>
    ensures { IfOk result (λ o. state_of o (frames stack.new) ≡ sign_in operator (frames stack.old)) }
{
    match operator {
        Operator::Add => unless_above(stack, 4, Waiting::Raised),
        Operator::Sub => unless_above(stack, 4, Waiting::Lowered),
        _ => Ok(Operand::Stuck),
    }
}
