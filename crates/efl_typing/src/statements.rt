// The statements of a body.
ghost use Rattle.std.specs.Prelude.{◌≡◌, IfOk};
ghost use Rattle.efl_tree.specs.declared.statement.EflCase.{out-EflCase};
ghost use Rattle.efl_tree.specs.Syntax as efl;
ghost use Rattle.efl_tree.specs.Views.{expr_of, expr_if_any, decls_of, kind_of, stmt_of, stmts_of, cases_of};
ghost use Rattle.efl_typing.specs.Statements.{IsStatement, IsStatementIn, IsKind, IsEither, IsBlock, AreStatements, IsClause, AreClauses};

use crate::copies::{copied_labels, copied_tests};
use crate::items::typed_range;
use crate::transfers::{typed_act, typed_goto, typed_read, typed_return, typed_write};
use efl_bindings::{
    Scopes, Site, Table, block_table, into, typed_action_if_any, typed_expression, typed_if_any,
    variable_number, within,
};
use efl_tree::{EflCase, EflDecl, EflExpr, EflKind, EflName, EflStmt};
use efl_typed_tree::{TypedClause, TypedKind, TypedRange, TypedStmt};
use ground::{List, Place};
use std::alloc::{AllocError, Global};

#[cycle(typing)]
fn typed_statement<'a>(
    alloc: Global,
    statement: &'a EflStmt,
    site: &Site<'_, 'a>,
) -> Result<TypedStmt, AllocError>
    ensures { IfOk result (IsStatement (stmt_of statement.now) site.now) }
{
    let labels = copied_labels(alloc, &statement.labels)?;
    let kind = typed_kind(alloc, &statement.kind, site)?;
    Ok(TypedStmt {
        labels,
        place: statement.place,
        kind,
    })
}

#[cycle(typing)]
fn typed_boxed<'a>(
    alloc: Global,
    statement: &'a EflStmt,
    site: &Site<'_, 'a>,
) -> Result<Box<TypedStmt>, AllocError>
    ensures { IfOk result (λ b. IsStatement (stmt_of statement.now) site.now b.value) }
{
    let typed = typed_statement(alloc, statement, site)?;
    Ok(Box::new(alloc, typed)?)
}

/// The statement with this number.
#[cycle(typing)]
fn typed_at<'a>(
    alloc: Global,
    number: usize,
    statement: &'a EflStmt,
    site: &Site<'_, 'a>,
) -> Result<TypedStmt, AllocError>
    ensures { IfOk result (IsStatementIn number (stmt_of statement.now) site.now) }
{
    let inside = into(site, number);
    typed_statement(alloc, statement, &inside)
}

/// The statements of a list.
#[cycle(typing)]
pub fn typed_statements<'a>(
    alloc: Global,
    list: &'a [EflStmt],
    site: &Site<'_, 'a>,
) -> Result<List<TypedStmt>, AllocError>
    ensures { IfOk result (λ ts. AreStatements (stmts_of list.now) site.now ts.items) }
{
    let mut statements = Vec::new(alloc);
    for (number, statement) in list.iter().enumerate() {
        statements.push(typed_at(alloc, number, statement, site)?)?;
    }
    Ok(statements)
}

/// What a statement is.
#[cycle(typing)]
fn typed_kind<'a>(
    alloc: Global,
    kind: &'a EflKind,
    site: &Site<'_, 'a>,
) -> Result<TypedKind, AllocError>
    ensures { IfOk result (IsKind (kind_of kind.now) site.now) }
{
    match kind {
        EflKind::Empty => Ok(TypedKind::Empty),
        EflKind::Block(declarations, list) => typed_block(alloc, declarations, list, site),
        EflKind::Act(e) => typed_act(alloc, e, site),
        EflKind::If(e, body, None) => typed_if(alloc, body, e, site),
        EflKind::If(e, body, Some(other)) => {
            let first = typed_branch(alloc, 0, body, &*site)?;
            typed_either(alloc, other, first, e, site)
        }
        EflKind::While(e, body) => typed_while(alloc, body, e, site),
        EflKind::For(first, e, step, body) => typed_for(alloc, body, first, e, step, site),
        EflKind::Repeat(body, None) => typed_repeat(alloc, body, site),
        EflKind::Repeat(body, Some((e, at))) => typed_until(alloc, body, e, *at, site),
        EflKind::Do(name, first, last, step, body) => {
            typed_do(alloc, body, name, first, last, step, site)
        }
        EflKind::Switch(e, list) => typed_switch(alloc, list, e, site),
        EflKind::Break(count, kind) => Ok(TypedKind::Break(*count, *kind)),
        EflKind::Next(count, kind) => Ok(TypedKind::Next(*count, *kind)),
        EflKind::Return(e) => typed_return(alloc, e, site),
        EflKind::Goto(label) => typed_goto(label, site),
        EflKind::Write(unit, items) => typed_write(alloc, unit, items, site),
        EflKind::Read(unit, items) => typed_read(alloc, unit, items, site),
    }
}

/// A block, whose names hide those around it.
#[cycle(typing)]
fn typed_block<'a>(
    alloc: Global,
    declarations: &'a [EflDecl],
    list: &'a [EflStmt],
    site: &Site<'_, 'a>,
) -> Result<TypedKind, AllocError>
    ensures { IfOk result (IsKind (efl.Block (decls_of declarations.now) (stmts_of list.now)) site.now) }
{
    let table = block_table(alloc, declarations, &*site)?;
    typed_inside(alloc, list, &table, &*site)
}

/// The statements of a block of these variables.
#[cycle(typing)]
fn typed_inside<'a>(
    alloc: Global,
    list: &'a [EflStmt],
    table: &Table<'a>,
    site: &Site<'_, 'a>,
) -> Result<TypedKind, AllocError>
    ensures { IfOk result (IsBlock (stmts_of list.now) table.now site.now) }
{
    let scopes = Scopes::Inside(&*table, site.scopes);
    let inner = within(&*site, &scopes);
    let body = typed_statements(alloc, list, &inner)?;
    Ok(TypedKind::Block(body))
}

#[cycle(typing)]
fn typed_if<'a>(
    alloc: Global,
    body: &'a EflStmt,
    e: &EflExpr,
    site: &Site<'_, 'a>,
) -> Result<TypedKind, AllocError>
    ensures { IfOk result (IsKind (efl.If (expr_of e.now) (stmt_of body.now)) site.now) }
{
    let body = typed_boxed(alloc, body, site)?;
    let test = typed_expression(alloc, e, site)?;
    Ok(TypedKind::If(test, body, None))
}

/// An `if` whose first statement is typed, with the one behind `else`.
#[cycle(typing)]
fn typed_either<'a>(
    alloc: Global,
    other: &'a EflStmt,
    first: Box<TypedStmt>,
    e: &EflExpr,
    site: &Site<'_, 'a>,
) -> Result<TypedKind, AllocError>
    ensures { IfOk result (IsEither (expr_of e.now) (stmt_of other.now) site.now first.value) }
{
    let second = typed_branch(alloc, 1, other, &*site)?;
    let test = typed_expression(alloc, e, &*site)?;
    Ok(TypedKind::If(test, first, Some(second)))
}

/// One of two statements of an `if`, by its number.
#[cycle(typing)]
fn typed_branch<'a>(
    alloc: Global,
    number: usize,
    statement: &'a EflStmt,
    site: &Site<'_, 'a>,
) -> Result<Box<TypedStmt>, AllocError>
    ensures { IfOk result (λ b. IsStatementIn number (stmt_of statement.now) site.now b.value) }
{
    let typed = typed_at(alloc, number, statement, &*site)?;
    Ok(Box::new(alloc, typed)?)
}

#[cycle(typing)]
fn typed_while<'a>(
    alloc: Global,
    body: &'a EflStmt,
    e: &EflExpr,
    site: &Site<'_, 'a>,
) -> Result<TypedKind, AllocError>
    ensures { IfOk result (IsKind (efl.While (expr_of e.now) (stmt_of body.now)) site.now) }
{
    let body = typed_boxed(alloc, body, site)?;
    let test = typed_expression(alloc, e, site)?;
    Ok(TypedKind::While(test, body))
}

#[cycle(typing)]
fn typed_for<'a>(
    alloc: Global,
    body: &'a EflStmt,
    first: &Option<EflExpr>,
    e: &Option<EflExpr>,
    step: &Option<EflExpr>,
    site: &Site<'_, 'a>,
) -> Result<TypedKind, AllocError>
    ensures { IfOk result (IsKind (efl.For (expr_if_any first.now) (expr_if_any e.now) (expr_if_any step.now) (stmt_of body.now)) site.now) }
{
    let body = typed_boxed(alloc, body, site)?;
    let first = typed_action_if_any(alloc, first, site)?;
    let step = typed_action_if_any(alloc, step, site)?;
    let test = typed_if_any(alloc, e, site)?;
    Ok(TypedKind::For(first, test, step, body))
}

#[cycle(typing)]
fn typed_repeat<'a>(
    alloc: Global,
    body: &'a EflStmt,
    site: &Site<'_, 'a>,
) -> Result<TypedKind, AllocError>
    ensures { IfOk result (IsKind (efl.Repeat (stmt_of body.now)) site.now) }
{
    let body = typed_boxed(alloc, body, site)?;
    Ok(TypedKind::Repeat(body, None))
}

#[cycle(typing)]
fn typed_until<'a>(
    alloc: Global,
    body: &'a EflStmt,
    e: &EflExpr,
    at: Place,
    site: &Site<'_, 'a>,
) -> Result<TypedKind, AllocError>
    ensures { IfOk result (IsKind (efl.RepeatUntil (stmt_of body.now) (expr_of e.now) at) site.now) }
{
    let body = typed_boxed(alloc, body, site)?;
    let test = typed_expression(alloc, e, site)?;
    Ok(TypedKind::Repeat(body, Some((test, at))))
}

#[cycle(typing)]
fn typed_do<'a>(
    alloc: Global,
    body: &'a EflStmt,
    name: &EflName,
    first: &EflExpr,
    last: &EflExpr,
    step: &Option<EflExpr>,
    site: &Site<'_, 'a>,
) -> Result<TypedKind, AllocError>
    ensures { IfOk result (IsKind (efl.Do name.now (expr_of first.now) (expr_of last.now) (expr_if_any step.now) (stmt_of body.now)) site.now) }
{
    let body = typed_boxed(alloc, body, site)?;
    let range = typed_range(alloc, first, last, step, site)?;
    let variable = variable_number(name.as_bytes(), site);
    Ok(TypedKind::Do(variable, range, body))
}

#[cycle(typing)]
fn typed_switch<'a>(
    alloc: Global,
    list: &'a [EflCase],
    e: &EflExpr,
    site: &Site<'_, 'a>,
) -> Result<TypedKind, AllocError>
    ensures { IfOk result (IsKind (efl.Switch (expr_of e.now) (cases_of list.now)) site.now) }
{
    let clauses = typed_clauses(alloc, list, site)?;
    let test = typed_expression(alloc, e, site)?;
    Ok(TypedKind::Switch(test, clauses))
}

/// The clauses of a switch.
#[cycle(typing)]
fn typed_clauses<'a>(
    alloc: Global,
    list: &'a [EflCase],
    site: &Site<'_, 'a>,
) -> Result<List<TypedClause>, AllocError>
    ensures { IfOk result (λ ts. AreClauses (cases_of list.now) site.now ts.items) }
{
    let mut clauses = Vec::new(alloc);
    for (number, clause) in list.iter().enumerate() {
        clauses.push(typed_clause(alloc, number, clause, site)?)?;
    }
    Ok(clauses)
}

/// The clause with this number.
#[cycle(typing)]
fn typed_clause<'a>(
    alloc: Global,
    number: usize,
    clause: &'a EflCase,
    site: &Site<'_, 'a>,
) -> Result<TypedClause, AllocError>
    ensures { IfOk result (IsClause number (out-EflCase clause.now).tests.items (out-EflCase clause.now).fallback (stmts_of (out-EflCase clause.now).body.items) (out-EflCase clause.now).place site.now) }
{
    let inside = into(site, number);
    let tests = copied_tests(alloc, &clause.tests)?;
    let body = typed_statements(alloc, &clause.body, &inside)?;
    Ok(TypedClause {
        tests,
        fallback: clause.fallback,
        body,
        place: clause.place,
    })
}
