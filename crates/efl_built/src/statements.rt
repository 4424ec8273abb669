// The first form of statements that is not built yet.
ghost use Rattle.std.specs.Prelude.{◌≡◌};
ghost use Rattle.efl_tree.specs.Syntax.{Block};
ghost use Rattle.efl_tree.specs.Views.{stmt_of, kind_of, stmts_of, cases_of, decls_of};
ghost use Rattle.efl_built.specs.Walks.{first_stated as first_stated_seen, first_within as first_within_seen, first_listed as first_listed_seen, first_chosen as first_chosen_seen, first_other as first_other_seen, first_until as first_until_seen};

use crate::declarations::first_declared;
use crate::expressions::{is_expression_unbuilt, is_statement_unbuilt};
use efl_tree::{EflCase, EflDecl, EflExpr, EflKind, EflStmt};
use ground::Place;

/// Where the first form of a statement with all that it holds stands that is not built.
#[cycle(first_stated)]
fn first_stated(statement: &EflStmt) -> Option<Place>
    ensures { result ≡ first_stated_seen (stmt_of statement.now) }
{
    if is_statement_unbuilt(&statement.kind) {
        return Some(statement.place);
    }
    first_within(&statement.kind)
}

/// In what a statement holds.
#[cycle(first_stated)]
fn first_within(kind: &EflKind) -> Option<Place>
    ensures { result ≡ first_within_seen (kind_of kind.now) }
{
    match kind {
        EflKind::Block(declarations, list) => first_in_block(declarations, list),
        EflKind::If(_, body, other) => {
            if let Some(place) = first_stated(body) {
                return Some(place);
            }
            first_other(other)
        }
        EflKind::While(_, body) => first_stated(body),
        EflKind::For(_, _, _, body) => first_stated(body),
        EflKind::Repeat(body, until) => {
            if let Some(place) = first_stated(body) {
                return Some(place);
            }
            first_until(until)
        }
        EflKind::Do(_, _, _, _, body) => first_stated(body),
        EflKind::Switch(_, list) => first_chosen(list),
        _ => None,
    }
}

/// In the statement behind `else`.
#[cycle(first_stated)]
fn first_other(other: &Option<Box<EflStmt>>) -> Option<Place>
    ensures { result ≡ first_other_seen other.now }
{
    match other {
        None => None,
        Some(other) => first_stated(other),
    }
}

/// In the condition of `until`.
fn first_until(until: &Option<(EflExpr, Place)>) -> Option<Place>
    ensures { result ≡ first_until_seen until.now }
{
    match until {
        Some((test, place)) if is_expression_unbuilt(test) => Some(*place),
        _ => None,
    }
}

#[cycle(first_stated)]
fn first_in_block(declarations: &[EflDecl], list: &[EflStmt]) -> Option<Place>
    ensures { result ≡ first_within_seen (Block (decls_of declarations.now) (stmts_of list.now)) }
{
    if let Some(place) = first_declared(declarations) {
        return Some(place);
    }
    first_listed(list)
}

#[cycle(first_stated)]
pub fn first_listed(list: &[EflStmt]) -> Option<Place>
    ensures { result ≡ first_listed_seen (stmts_of list.now) }
{
    for statement in list {
        if let Some(place) = first_stated(statement) {
            return Some(place);
        }
    }
    None
}

/// In the clauses of a switch.
#[cycle(first_stated)]
fn first_chosen(list: &[EflCase]) -> Option<Place>
    ensures { result ≡ first_chosen_seen (cases_of list.now) }
{
    for clause in list {
        if let Some(place) = first_listed(&clause.body) {
            return Some(place);
        }
    }
    None
}
