// Statements of Ratfor in memory, from their parts.

ghost use Rattle.std.specs.Prelude.{◌≡◌, false, true, map, IfOk};
ghost use Rattle.f66_tree.specs.Syntax.{NoFormula};
ghost use Rattle.f66_tree.specs.Views.{formula_of, formulas_of, declared_of};
ghost use Rattle.rat_tree.specs.Syntax.{Block, Repeat, RepeatUntil, Do, Switch, AndClause};
ghost use Rattle.rat_tree.specs.Views.{command as command_seen, commands as commands_of, clauses as clauses_of, clause_then};
ghost use Rattle.rat_parse_values.specs.Values.{tok, command, declareds, range_of};
ghost use Rattle.rat_parse_values.specs.Choices.{boxed_command, chosen};
ghost use Rattle.rat_parse_values.specs.Statements.{declares, labelled_value, left};
ghost use Rattle.rat_descent.specs.Statements.{stated, unlabelled, until_of, repeated_so};

use crate::tokens::{is_next, type_at};
use f66_tree::{Counting, Declared, Expr, Name, StmtKind};
use ground::{List, Place, Token};
use rat_parse_values::Range;
use rat_tree::{RatCase, RatKind, RatStmt};
use std::alloc::{AllocError, Global};

/// The statement with this label.
pub fn marked(label: u32, place: Place, kind: RatKind) -> RatStmt
    ensures { stated result ≡ labelled_value label (unlabelled place kind) }
{
    let label = Some(label);
    RatStmt { label, place, kind }
}

/// The statement without a label.
pub fn unmarked(place: Place, kind: RatKind) -> RatStmt
    ensures { stated result ≡ unlabelled place kind }
{
    let label = None;
    RatStmt { label, place, kind }
}

/// Names of this type.
pub fn declaring(word: &Token, list: List<Declared>) -> (Place, RatKind)
    ensures { unlabelled result.0 result.1 ≡ command word.now.place (declares (tok word.now) (declareds (map declared_of list.items))) }
{
    let place = word.place;
    (place, RatKind::Plain(StmtKind::Typed(type_at(word), list)))
}

pub fn block(place: Place, list: List<RatStmt>) -> (Place, RatKind)
    ensures { unlabelled result.0 result.1 ≡ command place (Block place (commands_of list.items)) }
{
    (place, RatKind::Block(list))
}

pub fn choose(
    place: Place,
    test: Expr,
    body: Box<RatStmt>,
    other: Option<Box<RatStmt>>,
) -> (Place, RatKind)
    ensures { unlabelled result.0 result.1 ≡ command place (chosen place (formula_of test) (command_seen body.value) (boxed_command other)) }
{
    match other {
        Some(other) => (place, RatKind::If(test, body, Some(other))),
        None => (place, RatKind::If(test, body, None)),
    }
}

pub fn repeat(place: Place, body: Box<RatStmt>, until: Option<(Expr, Place)>) -> (Place, RatKind)
    ensures { unlabelled result.0 result.1 ≡ command place (repeated_so place (command_seen body.value) (until_of until)) }
{
    match until {
        Some((test, until)) => (place, RatKind::Repeat(body, Some((test, until)))),
        None => (place, RatKind::Repeat(body, None)),
    }
}

pub fn count(
    alloc: Global,
    place: Place,
    variable: Name,
    range: Range,
    body: Box<RatStmt>,
) -> Result<(Place, RatKind), AllocError>
    ensures { IfOk result (λ s. unlabelled s.0 s.1 ≡ command place (Do place variable (range_of range).first (range_of range).last (range_of range).step (command_seen body.value))) }
{
    let Range { first, last, step } = range;
    let counting = Counting {
        variable,
        first,
        last,
        step,
    };
    Ok((place, RatKind::Do(Box::new(alloc, counting)?, body)))
}

pub fn switch_by(place: Place, test: Expr, list: List<RatCase>) -> (Place, RatKind)
    ensures { unlabelled result.0 result.1 ≡ command place (Switch place (formula_of test) (clauses_of list.items)) }
{
    (place, RatKind::Switch(test, list))
}

pub fn tested(tests: List<Expr>, body: List<RatStmt>, place: Place) -> RatCase
    ensures { clause_then result ≡ AndClause (formulas_of tests.items) false (commands_of body.items) place }
{
    let fallback = false;
    RatCase {
        tests,
        fallback,
        body,
        place,
    }
}

pub fn untested(alloc: Global, body: List<RatStmt>, place: Place) -> RatCase
    ensures { clause_then result ≡ AndClause NoFormula true (commands_of body.items) place }
{
    let tests = Vec::new(alloc);
    let fallback = true;
    RatCase {
        tests,
        fallback,
        body,
        place,
    }
}

/// A BREAK or a NEXT.
pub fn leaving(word: &Token, count: u32) -> (Place, RatKind)
    ensures { unlabelled result.0 result.1 ≡ command word.now.place (left (tok word.now) word.now.place count) }
{
    let place = word.place;
    if is_next(word) {
        (place, RatKind::Next(count))
    } else {
        (place, RatKind::Break(count))
    }
}
