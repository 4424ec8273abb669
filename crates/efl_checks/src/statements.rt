// The statements of a procedure.
ghost use Rattle.std.specs.Prelude.{[], ◌∷◌, OnOk, List, false};
ghost use Rattle.efl_tree.specs.Syntax.{Text, Block as ABlock};
ghost use Rattle.efl_tree.specs.Views.{kind_of, stmt_of, stmts_of, cases_of, decls_of};
ghost use Rattle.efl_scope.specs.Parts.{part, States, into, in_list, parts_of, parts_within, parts_in, clauses_in};
ghost use Rattle.efl_checks.specs.Walks.{IsFit, KindFits, AllFit, CasesFit, OtherFits, IsListed, Adds, Reads, ReadsInside, first_parts, other_parts, until_parts};

use crate::sites::{names_at, site_at};
use efl_blocks::{Homes, Position, Types, open_block};
use efl_declarations::check_declarations;
use efl_expressions::{Block, Blocks};
use efl_places::check_value;
use efl_reading::{Site, Walk, count_condition, count_statement};
use efl_statements::{Chosen, clause_rule, statement_rule};
use efl_tree::{EflCase, EflDecl, EflExpr, EflKind, EflStmt};
use ground::{Kind, Place};
use std::alloc::{AllocError, Global};

/// The statements of a block whose declarations have come, among the blocks around it.
#[cycle(check)]
pub fn check_inside<'a>(
    alloc: Global,
    list: &'a [EflStmt],
    known: &Block<'a>,
    site: &Site<'_, 'a>,
    types: &mut Types<'a>,
    walk: &mut Walk,
) -> Result<(), AllocError>
    ensures { OnOk result (ReadsInside types.old known.now site.now walk.old (stmts_of list.now) types.new walk.new) }
{
    let blocks = Blocks::Inside(&*known, site.blocks);
    let homes = Homes::Inside(site.position, &*known, site.homes);
    let inside = site_at(site.procedure, site.position, site.formals, &blocks, &homes);
    check_statements(alloc, list, &inside, types, walk)
}

#[cycle(check)]
fn check_statements<'a>(
    alloc: Global,
    list: &'a [EflStmt],
    site: &Site<'_, 'a>,
    types: &mut Types<'a>,
    walk: &mut Walk,
) -> Result<(), AllocError>
    ensures { OnOk result (Reads types.old site.now walk.old (AllFit (stmts_of list.now)) (λ a. parts_in 0 a (stmts_of list.now)) types.new walk.new) }
{
    for (number, statement) in list.iter().enumerate() {
        check_at(alloc, number, statement, &*site, types, walk)?;
    }
    Ok(())
}

/// The statement with this number.
#[cycle(check)]
fn check_at<'a>(
    alloc: Global,
    number: usize,
    statement: &'a EflStmt,
    site: &Site<'_, 'a>,
    types: &mut Types<'a>,
    walk: &mut Walk,
) -> Result<(), AllocError>
    ensures { OnOk result (Reads types.old site.now walk.old (IsFit (stmt_of statement.now)) (λ a. parts_of (into number a) (stmt_of statement.now)) types.new walk.new) }
{
    let position = Position::Inside(number, site.position);
    let inside = site_at(
        site.procedure,
        &position,
        site.formals,
        site.blocks,
        site.homes,
    );
    check_statement(alloc, statement, &inside, types, walk)
}

/// A statement with all that it holds.
#[cycle(check)]
fn check_statement<'a>(
    alloc: Global,
    statement: &'a EflStmt,
    site: &Site<'_, 'a>,
    types: &mut Types<'a>,
    walk: &mut Walk,
) -> Result<(), AllocError>
    ensures { OnOk result (Reads types.old site.now walk.old (IsFit (stmt_of statement.now) × IsListed site.now.position.now) (λ a. parts_of a (stmt_of statement.now)) types.new walk.new) }
{
    note_statement(
        alloc,
        &statement.kind,
        statement.place,
        &*site,
        &*types,
        walk,
    )?;
    check_within(alloc, &statement.kind, &*site, types, walk)
}

/// A statement by itself.
fn note_statement<'a>(
    alloc: Global,
    kind: &EflKind,
    place: Place,
    site: &Site<'_, 'a>,
    types: &Types<'a>,
    walk: &mut Walk,
) -> Result<(), AllocError>
    ensures { OnOk result ((ls : List Text) → Adds types.now site.now walk.old (λ a. part a place (States ls (kind_of kind.now)) ∷ []) walk.new) }
{
    let names = names_at(site, types);
    walk.progress.note(place, statement_rule(kind, &names));
    count_statement(alloc, kind, site, &mut walk.storage)
}

/// What a statement holds.
#[cycle(check)]
fn check_within<'a>(
    alloc: Global,
    kind: &'a EflKind,
    site: &Site<'_, 'a>,
    types: &mut Types<'a>,
    walk: &mut Walk,
) -> Result<(), AllocError>
    ensures { OnOk result (Reads types.old site.now walk.old (KindFits (kind_of kind.now) × IsListed site.now.position.now) (λ a. parts_within a (kind_of kind.now)) types.new walk.new) }
{
    match kind {
        EflKind::Block(declarations, list) => {
            check_block(alloc, declarations, list, &*site, types, walk)
        }
        EflKind::If(_, body, other) => {
            check_first(alloc, body, other, &*site, types, walk)?;
            check_other(alloc, other, &*site, types, walk)
        }
        EflKind::While(_, body) => check_statement(alloc, body, &*site, types, walk),
        EflKind::For(_, _, _, body) => check_statement(alloc, body, &*site, types, walk),
        EflKind::Repeat(body, until) => {
            check_statement(alloc, body, &*site, types, walk)?;
            note_until(alloc, until, &*site, &*types, walk)
        }
        EflKind::Do(_, _, _, _, body) => check_statement(alloc, body, &*site, types, walk),
        EflKind::Switch(_, list) => check_clauses(alloc, list, &*site, types, walk),
        EflKind::Empty
        | EflKind::Act(_)
        | EflKind::Break(_, _)
        | EflKind::Next(_, _)
        | EflKind::Return(_)
        | EflKind::Goto(_)
        | EflKind::Write(_, _)
        | EflKind::Read(_, _) => Ok(()),
    }
}

/// The statement of an `if`, which has a number where another stands behind `else`.
#[cycle(check)]
fn check_first<'a>(
    alloc: Global,
    body: &'a EflStmt,
    other: &Option<Box<EflStmt>>,
    site: &Site<'_, 'a>,
    types: &mut Types<'a>,
    walk: &mut Walk,
) -> Result<(), AllocError>
    ensures { OnOk result (Reads types.old site.now walk.old (IsFit (stmt_of body.now) × IsListed site.now.position.now) (first_parts (stmt_of body.now) other.now) types.new walk.new) }
{
    match other {
        None => check_statement(alloc, body, &*site, types, walk),
        Some(_) => check_at(alloc, 0, body, &*site, types, walk),
    }
}

/// The statement behind `else`.
#[cycle(check)]
fn check_other<'a>(
    alloc: Global,
    other: &'a Option<Box<EflStmt>>,
    site: &Site<'_, 'a>,
    types: &mut Types<'a>,
    walk: &mut Walk,
) -> Result<(), AllocError>
    ensures { OnOk result (Reads types.old site.now walk.old (OtherFits other.now) (other_parts other.now) types.new walk.new) }
{
    match other {
        None => Ok(()),
        Some(other) => check_at(alloc, 1, other, &*site, types, walk),
    }
}

/// The condition of `until`.
fn note_until<'a>(
    alloc: Global,
    until: &Option<(EflExpr, Place)>,
    site: &Site<'_, 'a>,
    types: &Types<'a>,
    walk: &mut Walk,
) -> Result<(), AllocError>
    ensures { OnOk result (Adds types.now site.now walk.old (until_parts until.now) walk.new) }
{
    match until {
        None => Ok(()),
        Some((test, place)) => {
            let names = names_at(site, types);
            walk.progress
                .note(*place, check_value(Kind::Logical, test, &names));
            count_condition(alloc, test, site, &mut walk.storage)
        }
    }
}

/// A block: its declarations, and then its statements.
#[cycle(check)]
fn check_block<'a>(
    alloc: Global,
    declarations: &'a [EflDecl],
    list: &'a [EflStmt],
    site: &Site<'_, 'a>,
    types: &mut Types<'a>,
    walk: &mut Walk,
) -> Result<(), AllocError>
    ensures { OnOk result (Reads types.old site.now walk.old (KindFits (ABlock (decls_of declarations.now) (stmts_of list.now)) × IsListed site.now.position.now) (λ a. parts_within a (ABlock (decls_of declarations.now) (stmts_of list.now))) types.new walk.new) }
{
    let mut known = open_block(alloc, declarations, site.blocks, types)?;
    let inner = site_at(site.procedure, site.position, &[], site.blocks, site.homes);
    check_declarations(alloc, declarations, &inner, &mut known, types, walk)?;
    check_inside(alloc, list, &known, &*site, types, walk)
}

/// The clauses of a switch.
#[cycle(check)]
fn check_clauses<'a>(
    alloc: Global,
    list: &'a [EflCase],
    site: &Site<'_, 'a>,
    types: &mut Types<'a>,
    walk: &mut Walk,
) -> Result<(), AllocError>
    ensures { OnOk result (Reads types.old site.now walk.old (CasesFit (cases_of list.now)) (λ a. clauses_in 0 a [] false (cases_of list.now)) types.new walk.new) }
{
    let mut chosen = Chosen::new(alloc);
    for (number, clause) in list.iter().enumerate() {
        let rule = clause_rule(&mut chosen, &clause.tests, clause.fallback)?;
        walk.progress.note(clause.place, rule);
        check_body(alloc, number, &clause.body, &*site, types, walk)?;
    }
    Ok(())
}

/// The statements of the clause with this number.
#[cycle(check)]
fn check_body<'a>(
    alloc: Global,
    number: usize,
    list: &'a [EflStmt],
    site: &Site<'_, 'a>,
    types: &mut Types<'a>,
    walk: &mut Walk,
) -> Result<(), AllocError>
    ensures { OnOk result (Reads types.old site.now walk.old (AllFit (stmts_of list.now)) (λ a. parts_in 0 (in_list (stmts_of list.now) (into number a)) (stmts_of list.now)) types.new walk.new) }
{
    let position = Position::Inside(number, site.position);
    let inside = site_at(
        site.procedure,
        &position,
        site.formals,
        site.blocks,
        site.homes,
    );
    check_statements(alloc, list, &inside, types, walk)
}
