// The statements of a procedure.
ghost use Rattle.std.specs.Prelude.{◌≡◌, OnOk, IfOk, map};
ghost use Rattle.efl_tree.specs.Views.{stmt_of, kind_of, stmts_of, cases_of, expr_of, decls_of};
ghost use Rattle.efl_tree.specs.Syntax.{Block};
ghost use Rattle.efl_scope.specs.ScopeRules.{no_name, misses_target, leaves_none};
ghost use Rattle.efl_scope.specs.Uses.{uses_of, uses_by};
ghost use Rattle.efl_scope.specs.Sights.{in_loop, rule_of_uses, rule_of_statement, noting, noting_statement, labels_of, reaching, knowing, hiding, opening_seen, declarations_seen, statement_seen, within_seen, statements_seen, clauses_seen};
ghost use Rattle.efl_scope.specs.AreaViews.{agreeing_of};
ghost use Rattle.efl_scope.specs.NameViews.{chain_of, names_in};
ghost use Rattle.efl_scope.specs.BlockViews.{kinds_of, known_of};
ghost use Rattle.efl_scope.specs.LoopViews.{loops_of};
ghost use Rattle.efl_scope.specs.WalkViews.{walk_of, sight_of};
ghost use Rattle.efl_scope.specs.SettingViews.{setting_of, other_seen, until_seen};

use crate::{
    Areas, Blocks, Flaw, Kinds, Loops, NameChain, NameSet, ScopeRule, Walk, add_labels,
    finds_break, finds_next, has_flaw, has_name, hide_declared, is_statement_flawed, or_rule,
    see_block_declarations,
};
use efl_tree::{EflCase, EflDecl, EflExpr, EflKind, EflStmt, LoopKind};
use ground::Place;
use std::alloc::{AllocError, Global};

/// What is around a statement: the names of structures, the labels that it can reach, and the loops and switches.
#[derive(Clone, Copy, Drop)]
pub struct Setting<'c, 'a> {
    pub known: &'c Blocks<'c, 'a>,
    pub reach: &'c NameChain<'c, 'a>,
    pub loops: &'c Loops<'c>,
}

/// A statement with all that it holds.
#[cycle(see)]
fn see_statement<'a>(
    alloc: Global,
    agreeing: &Areas,
    statement: &'a EflStmt,
    setting: &Setting<'_, 'a>,
    walk: &mut Walk<'a>,
) -> Result<(), AllocError>
    ensures { OnOk result
        (walk_of walk.new ≡ statement_seen (agreeing_of agreeing.now) (setting_of setting.now) (stmt_of statement.now) (walk_of walk.old)) }
{
    walk.take_labels(&statement.labels)?;
    note_statement(statement.place, &statement.kind, &*setting, walk);
    see_within(alloc, &*agreeing, &statement.kind, &*setting, walk)
}

/// A statement by itself, whose labels have come.
fn note_statement(place: Place, kind: &EflKind, setting: &Setting, walk: &mut Walk)
    ensures { walk_of walk.new ≡ noting_statement (setting_of setting.now) place (kind_of kind.now) (walk_of walk.old) }
{
    let rule = statement_rule(kind, setting, walk.labels.again);
    walk.note(place, rule);
}

fn statement_rule(kind: &EflKind, setting: &Setting, again: bool) -> Option<ScopeRule>
    ensures { result ≡ rule_of_statement (setting_of setting.now) again (kind_of kind.now) }
{
    let laid = is_statement_flawed(kind, setting.known, Flaw::LaidOver);
    let out = or_rule(None, laid, ScopeRule::OutOfProfileType);
    let misused = is_statement_flawed(kind, setting.known, Flaw::Misused);
    let duplicate = or_rule(out, misused, ScopeRule::DuplicateName);
    let lost = again || misses_label(kind, setting.reach);
    let label = or_rule(duplicate, lost, ScopeRule::BadLabel);
    or_rule(label, misses_loop(kind, setting.loops), ScopeRule::BadBreak)
}

fn misses_label(kind: &EflKind, reach: &NameChain) -> bool
    ensures { result ≡ misses_target (chain_of reach.now) (kind_of kind.now) }
{
    match kind {
        EflKind::Goto(label) => !has_name(reach, label.as_bytes()),
        _ => false,
    }
}

fn misses_loop(kind: &EflKind, loops: &Loops) -> bool
    ensures { result ≡ leaves_none (loops_of loops.now) (kind_of kind.now) }
{
    match kind {
        EflKind::Break(count, of) => !finds_break(loops, *count, *of),
        EflKind::Next(count, of) => !finds_next(loops, *count, *of),
        _ => false,
    }
}

/// What a statement holds.
#[cycle(see)]
fn see_within<'a>(
    alloc: Global,
    agreeing: &Areas,
    kind: &'a EflKind,
    setting: &Setting<'_, 'a>,
    walk: &mut Walk<'a>,
) -> Result<(), AllocError>
    ensures { OnOk result
        (walk_of walk.new ≡ within_seen (agreeing_of agreeing.now) (setting_of setting.now) (kind_of kind.now) (walk_of walk.old)) }
{
    match kind {
        EflKind::Block(declarations, list) => {
            see_block(alloc, &*agreeing, declarations, list, &*setting, walk)
        }
        EflKind::If(_, body, other) => {
            see_statement(alloc, &*agreeing, body, &*setting, walk)?;
            see_other(alloc, &*agreeing, other, &*setting, walk)
        }
        EflKind::While(_, body) => {
            see_body(alloc, &*agreeing, LoopKind::While, body, &*setting, walk)
        }
        EflKind::For(_, _, _, body) => {
            see_body(alloc, &*agreeing, LoopKind::For, body, &*setting, walk)
        }
        EflKind::Repeat(body, until) => {
            see_body(alloc, &*agreeing, LoopKind::Repeat, body, &*setting, walk)?;
            note_until(until, &*setting, walk);
            Ok(())
        }
        EflKind::Do(_, _, _, _, body) => {
            see_body(alloc, &*agreeing, LoopKind::Do, body, &*setting, walk)
        }
        EflKind::Switch(_, list) => see_clauses(alloc, &*agreeing, list, &*setting, walk),
        _ => Ok(()),
    }
}

/// The statement behind `else`.
#[cycle(see)]
fn see_other<'a>(
    alloc: Global,
    agreeing: &Areas,
    other: &'a Option<Box<EflStmt>>,
    setting: &Setting<'_, 'a>,
    walk: &mut Walk<'a>,
) -> Result<(), AllocError>
    ensures { OnOk result
        (walk_of walk.new ≡ other_seen (agreeing_of agreeing.now) (setting_of setting.now) other.now (walk_of walk.old)) }
{
    match other {
        None => Ok(()),
        Some(other) => see_statement(alloc, &*agreeing, other, &*setting, walk),
    }
}

/// The body of a loop of this kind.
#[cycle(see)]
fn see_body<'a>(
    alloc: Global,
    agreeing: &Areas,
    kind: LoopKind,
    body: &'a EflStmt,
    setting: &Setting<'_, 'a>,
    walk: &mut Walk<'a>,
) -> Result<(), AllocError>
    ensures { OnOk result
        (walk_of walk.new ≡ statement_seen (agreeing_of agreeing.now) (in_loop kind (setting_of setting.now)) (stmt_of body.now) (walk_of walk.old)) }
{
    let loops = Loops::Inside(kind, setting.loops);
    let inside = Setting {
        known: setting.known,
        reach: setting.reach,
        loops: &loops,
    };
    see_statement(alloc, &*agreeing, body, &inside, walk)
}

/// The condition of `until`.
fn note_until(until: &Option<(EflExpr, Place)>, setting: &Setting, walk: &mut Walk)
    ensures { walk_of walk.new ≡ until_seen (setting_of setting.now) until.now (walk_of walk.old) }
{
    if let Some((test, place)) = until {
        let rule = condition_rule(test, setting.known);
        walk.note(*place, rule);
    }
}

fn condition_rule(test: &EflExpr, known: &Blocks) -> Option<ScopeRule>
    ensures { result ≡ rule_of_uses (known_of known.now) (uses_of (expr_of test.now)) }
{
    let laid = has_flaw(test, known, Flaw::LaidOver);
    let out = or_rule(None, laid, ScopeRule::OutOfProfileType);
    or_rule(
        out,
        has_flaw(test, known, Flaw::Misused),
        ScopeRule::DuplicateName,
    )
}

/// A block: its declarations, and then its statements.
#[cycle(see)]
fn see_block<'a>(
    alloc: Global,
    agreeing: &Areas,
    declarations: &'a [EflDecl],
    list: &'a [EflStmt],
    setting: &Setting<'_, 'a>,
    walk: &mut Walk<'a>,
) -> Result<(), AllocError>
    ensures { OnOk result
        (walk_of walk.new
        ≡ within_seen (agreeing_of agreeing.now) (setting_of setting.now) (Block (decls_of declarations.now) (stmts_of list.now)) (walk_of walk.old)) }
{
    let kinds = open_block(alloc, &*agreeing, declarations, &*setting, walk)?;
    let known = Blocks::Inside(&kinds, setting.known);
    see_list_of(
        alloc,
        &*agreeing,
        list,
        &known,
        setting.reach,
        setting.loops,
        walk,
    )
}

/// The declarations of an inner block, and what they make of its names.
fn open_block<'a>(
    alloc: Global,
    agreeing: &Areas,
    declarations: &'a [EflDecl],
    setting: &Setting<'_, 'a>,
    walk: &mut Walk<'a>,
) -> Result<Kinds<'a>, AllocError>
    ensures { IfOk result (λ kinds.
        sight_of kinds setting.now.known.now walk.new
        ≡ (declarations_seen (agreeing_of agreeing.now) no_name (decls_of declarations.now) (opening_seen (hiding (decls_of declarations.now) (known_of setting.now.known.now)) (walk_of walk.old))).sight) }
{
    let mut kinds = Kinds::new(alloc);
    hide_declared(declarations, &mut kinds)?;
    see_block_declarations(
        alloc,
        agreeing,
        &NameChain::Outside,
        declarations,
        kinds,
        setting.known,
        walk,
    )
}

/// A list of statements, whose labels they can reach.
#[cycle(see)]
pub fn see_list_of<'a>(
    alloc: Global,
    agreeing: &Areas,
    list: &'a [EflStmt],
    known: &Blocks<'_, 'a>,
    reach: &NameChain<'_, 'a>,
    loops: &Loops,
    walk: &mut Walk<'a>,
) -> Result<(), AllocError>
    ensures { OnOk result
        (walk_of walk.new
        ≡ statements_seen (agreeing_of agreeing.now) (reaching (stmts_of list.now) (record { known = known_of known.now; reach = chain_of reach.now; loops = loops_of loops.now })) (stmts_of list.now) (walk_of walk.old)) }
{
    let labels = labels_in(alloc, list)?;
    let inner = NameChain::Inside(&labels, &*reach);
    let setting = Setting {
        known: &*known,
        reach: &inner,
        loops: &*loops,
    };
    see_each(alloc, &*agreeing, list, &setting, walk)
}

/// The labels that stand directly in a list.
fn labels_in<'a>(alloc: Global, list: &'a [EflStmt]) -> Result<NameSet<'a>, AllocError>
    ensures { IfOk result (λ labels. names_in labels ≡ labels_of (stmts_of list.now) no_name) }
{
    let mut labels = NameSet::new(alloc);
    for statement in list {
        add_labels(&statement.labels, &mut labels)?;
    }
    Ok(labels)
}

#[cycle(see)]
fn see_each<'a>(
    alloc: Global,
    agreeing: &Areas,
    list: &'a [EflStmt],
    setting: &Setting<'_, 'a>,
    walk: &mut Walk<'a>,
) -> Result<(), AllocError>
    ensures { OnOk result
        (walk_of walk.new ≡ statements_seen (agreeing_of agreeing.now) (setting_of setting.now) (stmts_of list.now) (walk_of walk.old)) }
{
    for statement in list {
        see_statement(alloc, &*agreeing, statement, &*setting, walk)?;
    }
    Ok(())
}

/// The clauses of a switch.
#[cycle(see)]
fn see_clauses<'a>(
    alloc: Global,
    agreeing: &Areas,
    list: &'a [EflCase],
    setting: &Setting<'_, 'a>,
    walk: &mut Walk<'a>,
) -> Result<(), AllocError>
    ensures { OnOk result
        (walk_of walk.new ≡ clauses_seen (agreeing_of agreeing.now) (in_loop LoopKind.Switch (setting_of setting.now)) (cases_of list.now) (walk_of walk.old)) }
{
    let loops = Loops::Inside(LoopKind::Switch, setting.loops);
    for clause in list {
        see_list_of(
            alloc,
            &*agreeing,
            &clause.body,
            setting.known,
            setting.reach,
            &loops,
            walk,
        )?;
    }
    Ok(())
}
