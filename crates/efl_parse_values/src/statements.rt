// Statements, clauses and lists, taken out of values.
ghost use Rattle.std.specs.Prelude.{◌≡◌, [], false, reverse, refl};
ghost use Rattle.efl_tree.specs.Syntax.{EflStmts, AndStmt, NoStmt, EflCases, AndCase};
ghost use Rattle.efl_tree.specs.Views.{decls_of, stmt_of, stmts_of, case_then, cases_of};
ghost use Rattle.efl_parse_values.specs.Values.{value, stmts, clauses};
ghost use Rattle.efl_parse_values.specs.Parts.{nowhere, as_stmt, as_stmts, with_clause, as_clauses, decls_in, body_in};

use crate::lists::Item;
use crate::value::{Lists, StatementValue, Value};
use crate::words::NOWHERE;
use efl_tree::{EflCase, EflKind, EflStmt};
use ground::{List, Place};
use std::alloc::Global;

impl Item for EflStmt {
    ghost Plain = { EflStmts };

    ghost plain = { stmts_of };

    ghost more = { λ x rest. AndStmt (stmt_of x) rest };

    ghost listed = { λ xs. stmts xs };

    ghost list_in = { as_stmts };

    ghost with_item = { λ v rest. AndStmt (as_stmt v) rest };

    ghost plain_more = { λ x xs. refl };

    fn into_item(alloc: Global, part: Value) -> EflStmt
        ensures { (rest : EflStmts) → AndStmt (stmt_of result) rest ≡ AndStmt (as_stmt (value part)) rest }
    {
        into_statement(alloc, part)
    }

    fn into_list(alloc: Global, part: Value) -> Vec<EflStmt>
        ensures { stmts_of (reverse result.items) ≡ as_stmts (value part) }
    {
        match part {
            Value::Statement(StatementValue::Statements(list)) => list,
            other => {
                drop(other);
                Vec::new(alloc)
            }
        }
    }

    fn list_value(list: Vec<EflStmt>) -> Value
        ensures { value result ≡ stmts (stmts_of (reverse list.items)) }
    {
        Value::Statement(StatementValue::Statements(list))
    }
}

pub fn into_statement(alloc: Global, part: Value) -> EflStmt
    ensures { stmt_of result ≡ as_stmt (value part) }
{
    match part {
        Value::Statement(StatementValue::Statement(statement)) => Box::into_inner(statement),
        other => {
            drop(other);
            EflStmt {
                labels: Vec::new(alloc),
                place: NOWHERE,
                kind: EflKind::Empty,
            }
        }
    }
}

impl Item for EflCase {
    ghost Plain = { EflCases };

    ghost plain = { cases_of };

    ghost more = { λ x rest. case_then x rest };

    ghost listed = { λ xs. clauses xs };

    ghost list_in = { as_clauses };

    ghost with_item = { λ v rest. with_clause v rest };

    ghost plain_more = { λ x xs. refl };

    fn into_item(alloc: Global, part: Value) -> EflCase
        ensures { (rest : EflCases) → case_then result rest ≡ with_clause (value part) rest }
    {
        into_clause(alloc, part)
    }

    fn into_list(alloc: Global, part: Value) -> Vec<EflCase>
        ensures { cases_of (reverse result.items) ≡ as_clauses (value part) }
    {
        match part {
            Value::Statement(StatementValue::Clauses(list)) => list,
            other => {
                drop(other);
                Vec::new(alloc)
            }
        }
    }

    fn list_value(list: Vec<EflCase>) -> Value
        ensures { value result ≡ clauses (cases_of (reverse list.items)) }
    {
        Value::Statement(StatementValue::Clauses(list))
    }
}

pub fn clause(tests: List<i64>, fallback: bool, body: List<EflStmt>, place: Place) -> EflCase
    ensures { case_then result ≡ AndCase tests.items fallback (stmts_of body.items) place }
{
    EflCase {
        tests,
        fallback,
        body,
        place,
    }
}

fn into_clause(alloc: Global, part: Value) -> EflCase
    ensures { case_then result ≡ with_clause (value part) }
{
    match part {
        Value::Statement(StatementValue::Clause(clause)) => clause,
        other => {
            drop(other);
            empty_clause(alloc)
        }
    }
}

fn empty_clause(alloc: Global) -> EflCase
    ensures { case_then result ≡ AndCase [] false NoStmt nowhere }
{
    clause(Vec::new(alloc), false, Vec::new(alloc), NOWHERE)
}

/// Declarations and the statements behind them, the last of each first.
pub fn into_lists(alloc: Global, part: Value) -> Lists
    ensures declarations { decls_of (reverse result.declarations.items) ≡ decls_in (value part) }
    ensures body { stmts_of (reverse result.body.items) ≡ body_in (value part) }
{
    match part {
        Value::Statement(StatementValue::Lists(lists)) => lists,
        other => {
            drop(other);
            Lists {
                declarations: Vec::new(alloc),
                body: Vec::new(alloc),
            }
        }
    }
}
