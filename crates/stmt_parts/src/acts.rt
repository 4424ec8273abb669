// Jumps, calls, loops and conditions (X3.9-1966, sections 7.1.2.1 to 7.1.2.8).
ghost use Rattle.std.specs.Prelude.{◌≡◌, ◌^◌, ◌<◌, ◌≤◌, ℕ, true, IfOk, IfSome, length};
ghost use Rattle.std.specs.List.{list_all};
ghost use Rattle.f66_tree.specs.Syntax.{Formula};
ghost use Rattle.f66_tree.specs.Views.{formula_of};
ghost use Rattle.stmt_reader.specs.Acts.{act_if, par_option};
ghost use Rattle.stmt_reader.specs.Stacks.{formula_if};
ghost use Rattle.stmt_reader.specs.Statements.{argument_of, call_of, call_with, computed_of, condition_of, goto_of, label_of, letter_of, loop_of, selects_with, signs_of, signs_with, stop_of, loop_if, stop_alone as stop_with_behind, stop_with, octal_after, is_octal as is_octal_digit};
ghost use Rattle.stmt_reader.specs.Cutting.{is_comma};
ghost use Rattle.stmt_reader.specs.Splitting.{list_of};
ghost use Rattle.stmt_reader.specs.Taking.{par_if, then_if};
ghost use Rattle.stmt_parts.specs.Lists.{computed_by, condition_in, greatest_before, labels_if};

use crate::lists::{Member, read_list};
use f66_tree::{Counting, Expr, Name, Par, StmtKind};
use ground::{List, Text};
use std::alloc::{AllocError, Global};
use stmt_reader::{Stop, Token, cut_at, read_expression, without};

/// A GO TO, behind its word.
pub fn read_goto(tokens: &[Token]) -> Option<StmtKind>
    ensures { act_if result ≡ goto_of tokens.now }
{
    match tokens {
        [Token::Number(label)] => Some(StmtKind::Goto(*label)),
        _ => None,
    }
}

/// Labels.
pub struct Labels;

impl Member for Labels {
    type Read = u32;

    ghost Plain = { ℕ };

    ghost plain = { λ label. label };

    ghost member_of = { label_of };

    fn read(_alloc: Global, tokens: &[Token]) -> Result<Option<u32>, AllocError> {
        match tokens {
            [Token::Number(label)] => Ok(Some(*label)),
            _ => Ok(None),
        }
    }
}

/// A computed GO TO, behind its words.
pub fn read_computed(alloc: Global, tokens: &[Token]) -> Result<Option<StmtKind>, AllocError>
    requires { length tokens.now < 2 ^ 63 }
    ensures { IfOk result (λ s. act_if s ≡ computed_of tokens.now) }
{
    match tokens {
        [Token::Open, tokens @ ..] => match cut_at(tokens, 0, Stop::Close) {
            None => Ok(None),
            Some(at) => selects(alloc, &tokens[..at], &tokens[at + 1..]),
        },
        _ => Ok(None),
    }
}

fn selects(alloc: Global, labels: &[Token], index: &[Token]) -> Result<Option<StmtKind>, AllocError>
    requires { length labels.now < 2 ^ 63 }
    ensures { IfOk result (λ s. act_if s ≡ selects_with labels.now index.now) }
{
    match index {
        [Token::Comma, Token::Word(text)] => selects_by(alloc, labels, text),
        _ => Ok(None),
    }
}

fn selects_by(alloc: Global, labels: &[Token], text: &Text) -> Result<Option<StmtKind>, AllocError>
    requires { length labels.now < 2 ^ 63 }
    ensures { IfOk result (λ s. act_if s ≡ then_if (list_of label_of is_comma labels.now) (computed_by text.now)) }
{
    match read_labels(alloc, labels)? {
        None => Ok(None),
        Some(labels) => {
            let index = Name::new(text.clone()?);
            Ok(Some(StmtKind::Computed(labels, index)))
        }
    }
}

fn read_labels(alloc: Global, tokens: &[Token]) -> Result<Option<List<u32>>, AllocError>
    requires { length tokens.now < 2 ^ 63 }
    ensures { IfOk result (λ r. labels_if r ≡ list_of label_of is_comma tokens.now) }
{
    match read_list::<Labels>(alloc, tokens)? {
        None => Ok(None),
        Some(labels) => Ok(Some(labels)),
    }
}

/// Arguments of a CALL.
pub struct Arguments;

impl Member for Arguments {
    type Read = Expr;

    ghost Plain = { Formula };

    ghost plain = { formula_of };

    ghost member_of = { argument_of };

    fn read(alloc: Global, tokens: &[Token]) -> Result<Option<Expr>, AllocError> {
        match letter(tokens) {
            Some(e) => Ok(Some(e)),
            None => read_expression(alloc, tokens),
        }
    }
}

fn letter(tokens: &[Token]) -> Option<Expr>
    ensures { formula_if result ≡ letter_of tokens.now }
{
    match tokens {
        [Token::Chars(text)] => match text.as_bytes() {
            [c] => Some(Expr::Letter(*c)),
            _ => None,
        },
        _ => None,
    }
}

/// A CALL, behind its word.
pub fn read_call(alloc: Global, tokens: &[Token]) -> Result<Option<StmtKind>, AllocError>
    requires { length tokens.now < 2 ^ 63 }
    ensures { IfOk result (λ s. act_if s ≡ call_of tokens.now) }
{
    match tokens {
        [Token::Word(text)] => {
            let name = Name::new(text.clone()?);
            Ok(Some(StmtKind::Invoke(name, Vec::new(alloc))))
        }
        [Token::Word(text), Token::Open, tokens @ ..] => match cut_at(tokens, 0, Stop::Close) {
            None => Ok(None),
            Some(at) => invocation(alloc, text, &tokens[..at], &tokens[at + 1..]),
        },
        _ => Ok(None),
    }
}

fn invocation(
    alloc: Global,
    text: &Text,
    arguments: &[Token],
    behind: &[Token],
) -> Result<Option<StmtKind>, AllocError>
    requires { length arguments.now < 2 ^ 63 }
    ensures { IfOk result (λ s. act_if s ≡ call_with text.now arguments.now behind.now) }
{
    if !behind.is_empty() {
        return Ok(None);
    }
    match read_list::<Arguments>(alloc, arguments)? {
        None => Ok(None),
        Some(list) => {
            let name = Name::new(text.clone()?);
            Ok(Some(StmtKind::Invoke(name, list)))
        }
    }
}

/// The condition in parentheses, and where what follows it begins.
pub fn read_condition(alloc: Global, tokens: &[Token]) -> Result<Option<(Expr, usize)>, AllocError>
    requires { length tokens.now < 2 ^ 63 }
    ensures condition { IfOk result (λ c. condition_in c tokens.now ≡ condition_of tokens.now) }
    ensures within { IfOk result (λ o. IfSome o (λ c. c.1 ≤ length tokens.now)) }
{
    match tokens {
        [Token::Open, tokens @ ..] => match cut_at(tokens, 0, Stop::Close) {
            None => Ok(None),
            Some(at) => match read_expression(alloc, &tokens[..at])? {
                None => Ok(None),
                Some(e) => Ok(Some((e, at + 2))),
            },
        },
        _ => Ok(None),
    }
}

/// An arithmetic IF, behind its condition.
pub fn read_signs(
    alloc: Global,
    condition: Expr,
    tokens: &[Token],
) -> Result<Option<StmtKind>, AllocError>
    requires { length tokens.now < 2 ^ 63 }
    ensures { IfOk result (λ s. act_if s ≡ signs_of (formula_of condition) tokens.now) }
{
    match read_labels(alloc, tokens)? {
        None => Ok(None),
        Some(labels) => Ok(signs(condition, &labels)),
    }
}

fn signs(condition: Expr, labels: &[u32]) -> Option<StmtKind>
    ensures { act_if result ≡ signs_with (formula_of condition) labels.now }
{
    match labels {
        [below, zero, above] => Some(StmtKind::Sign(condition, *below, *zero, *above)),
        _ => None,
    }
}

/// A DO, behind its word.
pub fn read_loop(alloc: Global, tokens: &[Token]) -> Result<Option<StmtKind>, AllocError>
    ensures { IfOk result (λ s. act_if s ≡ loop_of tokens.now) }
{
    match tokens {
        [
            Token::Number(label),
            Token::Word(text),
            Token::Equals,
            first,
            Token::Comma,
            last,
        ] => loop_with(
            alloc,
            *label,
            text,
            par(first)?,
            par(last)?,
            Some(Par::Number(1)),
        ),
        [
            Token::Number(label),
            Token::Word(text),
            Token::Equals,
            first,
            Token::Comma,
            last,
            Token::Comma,
            step,
        ] => loop_with(alloc, *label, text, par(first)?, par(last)?, par(step)?),
        _ => Ok(None),
    }
}

fn loop_with(
    alloc: Global,
    label: u32,
    text: &Text,
    first: Option<Par>,
    last: Option<Par>,
    step: Option<Par>,
) -> Result<Option<StmtKind>, AllocError>
    ensures { IfOk result (λ s. act_if s ≡ loop_if label text.now (par_option first) (par_option last) (par_option step)) }
{
    match (first, last, step) {
        (Some(first), Some(last), Some(step)) => {
            let variable = Name::new(text.clone()?);
            let counting = Counting {
                variable,
                first,
                last,
                step,
            };
            Ok(Some(StmtKind::Loop(label, Box::new(alloc, counting)?)))
        }
        _ => Ok(None),
    }
}

/// A constant or a variable, if the token is one.
pub fn par(token: &Token) -> Result<Option<Par>, AllocError>
    ensures { IfOk result (λ p. par_option p ≡ par_if token.now) }
{
    match token {
        Token::Number(n) => Ok(Some(Par::Number(i64::from(*n)))),
        Token::Word(text) => Ok(Some(Par::Variable(Name::new(text.clone()?)))),
        _ => Ok(None),
    }
}

/// A STOP: one to five octal digits, or none, behind the letters of the first word.
pub fn read_stop(tokens: &[Token]) -> Option<StmtKind>
    ensures { act_if result ≡ stop_of tokens.now }
{
    match tokens {
        [Token::Word(word), behind @ ..] => match without(b"STOP", word.as_bytes()) {
            None => None,
            Some(digits) => stop_alone(digits, behind),
        },
        _ => None,
    }
}

fn stop_alone(digits: &[u8], behind: &[Token]) -> Option<StmtKind>
    ensures { act_if result ≡ stop_with_behind digits.now behind.now }
{
    if behind.is_empty() {
        stop_with_digits(digits)
    } else {
        None
    }
}

fn stop_with_digits(digits: &[u8]) -> Option<StmtKind>
    ensures { act_if result ≡ stop_with digits.now }
{
    if digits.is_empty() {
        return Some(StmtKind::Stop(None));
    }
    if digits.len() <= 5 && are_octal(digits) {
        return Some(StmtKind::Stop(Some(octal_value(0, digits))));
    }
    None
}

fn are_octal(digits: &[u8]) -> bool
    ensures { result ≡ list_all is_octal_digit digits.now }
{
    digits.iter().all(|c| is_octal(*c))
}

fn is_octal(c: u8) -> bool
    ensures { result ≡ is_octal_digit c }
{
    b'0' <= c && c <= b'7'
}

/// The value of a number with these octal digits behind it, five at most.
fn octal_value(number: u16, digits: &[u8]) -> u16
    requires short { length digits.now ≤ 5 }
    requires small { number ≤ greatest_before (length digits.now) }
    requires octal { list_all is_octal_digit digits.now ≡ true }
    ensures { result ≡ octal_after number digits.now }
{
    match digits {
        [] => number,
        [c, digits @ ..] => octal_value(number * 8 + u16::from(*c - b'0'), digits),
    }
}
