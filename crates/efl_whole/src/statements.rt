// The calls of statements and blocks.
ghost use Rattle.std.specs.Prelude.{◌≡◌, OnOk, map};
ghost use Rattle.efl_tree.specs.Syntax.{Block};
ghost use Rattle.efl_tree.specs.Views.{stmt_of, kind_of, stmts_of, cases_of, decl_of, decls_of};
ghost use Rattle.efl_whole.specs.Roles.{behind_all};
ghost use Rattle.efl_whole.specs.RoleViews.{roles_of};
ghost use Rattle.efl_whole.specs.Calls.{entering, declaration_calls, declarations_calls, statement_calls, within_calls, statements_calls, clauses_calls};
ghost use Rattle.efl_whole.specs.CallViews.{calls_of, site_of, other_calls, until_calls};

use crate::calls::{Calls, Site};
use crate::expressions::{add_declaration, add_expression, add_own};
use crate::listing::{know_by, list_block};
use crate::roles::{Roles, Scopes};
use efl_tree::{EflCase, EflDecl, EflExpr, EflKind, EflStmt};
use ground::Place;
use std::alloc::{AllocError, Global};

/// The calls of a statement with all that it holds.
#[cycle(add)]
fn add_statement<'a>(
    alloc: Global,
    statement: &'a EflStmt,
    site: &Site<'_, 'a>,
    calls: &mut Calls,
) -> Result<(), AllocError>
    ensures { OnOk result (calls_of calls.new ≡ statement_calls (site_of site.now) (stmt_of statement.now) (calls_of calls.old)) }
{
    add_own(&statement.kind, &*site, statement.place, calls)?;
    add_within(alloc, &statement.kind, &*site, calls)
}

/// The calls of what a statement holds.
#[cycle(add)]
fn add_within<'a>(
    alloc: Global,
    kind: &'a EflKind,
    site: &Site<'_, 'a>,
    calls: &mut Calls,
) -> Result<(), AllocError>
    ensures { OnOk result (calls_of calls.new ≡ within_calls (site_of site.now) (kind_of kind.now) (calls_of calls.old)) }
{
    match kind {
        EflKind::Block(declarations, list) => add_block(alloc, declarations, list, &*site, calls),
        EflKind::If(_, body, other) => {
            add_statement(alloc, body, &*site, calls)?;
            add_other(alloc, other, &*site, calls)
        }
        EflKind::While(_, body) => add_statement(alloc, body, &*site, calls),
        EflKind::For(_, _, _, body) => add_statement(alloc, body, &*site, calls),
        EflKind::Repeat(body, until) => {
            add_statement(alloc, body, &*site, calls)?;
            add_until(until, &*site, calls)
        }
        EflKind::Do(_, _, _, _, body) => add_statement(alloc, body, &*site, calls),
        EflKind::Switch(_, list) => add_clauses(alloc, list, &*site, calls),
        _ => Ok(()),
    }
}

/// The calls of the statement behind `else`.
#[cycle(add)]
fn add_other<'a>(
    alloc: Global,
    other: &'a Option<Box<EflStmt>>,
    site: &Site<'_, 'a>,
    calls: &mut Calls,
) -> Result<(), AllocError>
    ensures { OnOk result (calls_of calls.new ≡ other_calls (site_of site.now) other.now (calls_of calls.old)) }
{
    match other {
        None => Ok(()),
        Some(other) => add_statement(alloc, other, &*site, calls),
    }
}

/// The calls of the condition of `until`.
fn add_until(
    until: &Option<(EflExpr, Place)>,
    site: &Site,
    calls: &mut Calls,
) -> Result<(), AllocError>
    ensures { OnOk result (calls_of calls.new ≡ until_calls (site_of site.now) until.now (calls_of calls.old)) }
{
    match until {
        None => Ok(()),
        Some((test, place)) => add_expression(test, site, *place, calls),
    }
}

/// The calls of a block.
#[cycle(add)]
fn add_block<'a>(
    alloc: Global,
    declarations: &'a [EflDecl],
    list: &'a [EflStmt],
    site: &Site<'_, 'a>,
    calls: &mut Calls,
) -> Result<(), AllocError>
    ensures { OnOk result
        (calls_of calls.new ≡ within_calls (site_of site.now) (Block (decls_of declarations.now) (stmts_of list.now)) (calls_of calls.old)) }
{
    let block = list_block(alloc, declarations, site.scopes)?;
    let mut own = block.variables;
    add_declarations(declarations, &*site, &mut own, calls)?;
    add_inside(alloc, &own, list, &*site, calls)
}

/// The calls of declarations, in a block with the names before the first of them. The structures of each become known.
pub fn add_declarations<'a>(
    list: &'a [EflDecl],
    site: &Site<'_, 'a>,
    own: &mut Roles<'a>,
    calls: &mut Calls,
) -> Result<(), AllocError>
    ensures names { OnOk result (roles_of own.new ≡ behind_all (decls_of list.now) (roles_of own.old)) }
    ensures calls { OnOk result (calls_of calls.new ≡ declarations_calls (site_of site.now) (decls_of list.now) (roles_of own.old) (calls_of calls.old)) }
{
    for declaration in list {
        add_among(declaration, site, &*own, calls)?;
        know_by(&declaration.kind, own)?;
    }
    Ok(())
}

/// The calls of a declaration in a block with these names.
fn add_among<'a>(
    declaration: &EflDecl,
    site: &Site<'_, 'a>,
    own: &Roles<'a>,
    calls: &mut Calls,
) -> Result<(), AllocError>
    ensures { OnOk result
        (calls_of calls.new ≡ declaration_calls (entering (roles_of own.now) (site_of site.now)) (decl_of declaration.now) (calls_of calls.old)) }
{
    let scopes = Scopes::Inside(own, site.scopes);
    let inside = Site {
        numbers: site.numbers,
        unit: site.unit,
        scopes: &scopes,
    };
    add_declaration(declaration, &inside, calls)
}

/// The calls of statements in a block with these names.
#[cycle(add)]
pub fn add_inside<'a>(
    alloc: Global,
    own: &Roles<'a>,
    list: &'a [EflStmt],
    site: &Site<'_, 'a>,
    calls: &mut Calls,
) -> Result<(), AllocError>
    ensures { OnOk result
        (calls_of calls.new ≡ statements_calls (entering (roles_of own.now) (site_of site.now)) (stmts_of list.now) (calls_of calls.old)) }
{
    let scopes = Scopes::Inside(&*own, site.scopes);
    let inside = Site {
        numbers: site.numbers,
        unit: site.unit,
        scopes: &scopes,
    };
    add_statements(alloc, list, &inside, calls)
}

#[cycle(add)]
fn add_statements<'a>(
    alloc: Global,
    list: &'a [EflStmt],
    site: &Site<'_, 'a>,
    calls: &mut Calls,
) -> Result<(), AllocError>
    ensures { OnOk result (calls_of calls.new ≡ statements_calls (site_of site.now) (stmts_of list.now) (calls_of calls.old)) }
{
    for statement in list {
        add_statement(alloc, statement, &*site, calls)?;
    }
    Ok(())
}

/// The calls of the clauses of a switch.
#[cycle(add)]
fn add_clauses<'a>(
    alloc: Global,
    list: &'a [EflCase],
    site: &Site<'_, 'a>,
    calls: &mut Calls,
) -> Result<(), AllocError>
    ensures { OnOk result (calls_of calls.new ≡ clauses_calls (site_of site.now) (cases_of list.now) (calls_of calls.old)) }
{
    for clause in list {
        add_statements(alloc, &clause.body, &*site, calls)?;
    }
    Ok(())
}
