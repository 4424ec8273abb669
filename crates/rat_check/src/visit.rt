// The walk over a unit in reading order.
ghost use Rattle.std.specs.Prelude.{◌≡◌, suc, OnOk, None, false};
ghost use Rattle.rat_tree.specs.Views.{command, commands, clauses};
ghost use Rattle.rat_check.specs.Parts.{parts_of, parts_in, clause_parts, with_labels};
ghost use Rattle.rat_check.specs.FormViews.{depth_of, other_parts, until_parts, case_parts};
ghost use Rattle.rat_check.specs.PartViews.{survey_of};
ghost use Rattle.rat_check.specs.Survey.{is_among, noting_all};

use crate::{Around, Form, Survey};
use f66_tree::{Counting, Expr};
use ground::Place;
use rat_tree::{RatCase, RatKind, RatStmt};
use std::alloc::AllocError;

/// A statement with all that it holds.
#[cycle(visit)]
#[tactic(auto, using(crate::proofs::PartLemmas::part_steps))]
fn visit<'a>(
    statement: &'a RatStmt,
    around: &Around,
    survey: &mut Survey<'a>,
) -> Result<(), AllocError>
    ensures { OnOk result (survey_of survey.new ≡ noting_all (parts_of (depth_of around.now) (is_among survey.old.reach) None (command statement.now)) (survey_of survey.old)) }
{
    let label = statement.label;
    let place = statement.place;
    let inside = Around::Inside(&*around);
    match &statement.kind {
        RatKind::Empty => survey.note(&*around, label, place, Form::Bare),
        RatKind::Block(list) => {
            survey.note(&*around, label, place, Form::Bare)?;
            visit_list(list, &*around, survey)
        }
        RatKind::If(test, body, other) => {
            survey.note(&*around, label, place, Form::Condition(test))?;
            visit(body, &*around, survey)?;
            visit_other(other, &*around, survey)
        }
        RatKind::While(test, body) => {
            survey.note(&*around, label, place, Form::Condition(test))?;
            visit(body, &inside, survey)
        }
        RatKind::For(head, body) => {
            let form = Form::ForHead(&head.first, &head.test, &head.step);
            survey.note(&*around, label, place, form)?;
            visit(body, &inside, survey)
        }
        RatKind::Repeat(body, until) => {
            survey.note(&*around, label, place, Form::RepeatHead)?;
            visit(body, &inside, survey)?;
            note_until(until, &*around, survey)
        }
        RatKind::Do(counting, body) => {
            let Counting {
                variable,
                first,
                last,
                step,
            } = &**counting;
            survey.note(
                &*around,
                label,
                place,
                Form::DoHead(variable, first, last, step),
            )?;
            visit(body, &inside, survey)
        }
        RatKind::Switch(value, list) => {
            survey.note(&*around, label, place, Form::Selector(value))?;
            visit_clauses(list, &*around, survey)
        }
        RatKind::Break(count) => survey.note(&*around, label, place, Form::LoopExit(*count)),
        RatKind::Next(count) => survey.note(&*around, label, place, Form::LoopExit(*count)),
        RatKind::Return(value) => { survey.note(&*around, label, place, Form::ReturnHead(value)) }
        RatKind::Plain(kind) => survey.note(&*around, label, place, Form::Statement(kind)),
    }
}

// The statement behind `else`.
#[cycle(visit)]
fn visit_other<'a>(
    other: &'a Option<Box<RatStmt>>,
    around: &Around,
    survey: &mut Survey<'a>,
) -> Result<(), AllocError>
    ensures { OnOk result (survey_of survey.new ≡ noting_all (other_parts (depth_of around.now) (is_among survey.old.reach) other.now) (survey_of survey.old)) }
{
    match other {
        None => Ok(()),
        Some(other) => visit(other, &*around, survey),
    }
}

// The condition of `until`.
fn note_until<'a>(
    until: &'a Option<(Expr, Place)>,
    around: &Around,
    survey: &mut Survey<'a>,
) -> Result<(), AllocError>
    ensures { OnOk result (survey_of survey.new ≡ noting_all (until_parts (depth_of around.now) (is_among survey.old.reach) until.now) (survey_of survey.old)) }
{
    match until {
        None => Ok(()),
        Some((test, place)) => survey.note(around, None, *place, Form::Condition(test)),
    }
}

/// The statements of a list, whose labels they can reach.
#[cycle(visit)]
pub fn visit_list<'a>(
    list: &'a [RatStmt],
    around: &Around,
    survey: &mut Survey<'a>,
) -> Result<(), AllocError>
    ensures { OnOk result (survey_of survey.new ≡ noting_all (parts_in (depth_of around.now) (with_labels (commands list.now) (is_among survey.old.reach)) (commands list.now)) (survey_of survey.old)) }
{
    let outside = survey.enter(list)?;
    visit_each(list, &*around, survey)?;
    survey.leave(outside);
    Ok(())
}

#[cycle(visit)]
fn visit_each<'a>(
    list: &'a [RatStmt],
    around: &Around,
    survey: &mut Survey<'a>,
) -> Result<(), AllocError>
    ensures { OnOk result (survey_of survey.new ≡ noting_all (parts_in (depth_of around.now) (is_among survey.old.reach) (commands list.now)) (survey_of survey.old)) }
{
    for statement in list {
        visit(statement, &*around, survey)?;
    }
    Ok(())
}

#[cycle(visit)]
fn visit_clauses<'a>(
    list: &'a [RatCase],
    around: &Around,
    survey: &mut Survey<'a>,
) -> Result<(), AllocError>
    ensures { OnOk result (survey_of survey.new ≡ noting_all (clause_parts (depth_of around.now) (is_among survey.old.reach) false (clauses list.now)) (survey_of survey.old)) }
{
    let mut seen = false;
    for clause in list {
        visit_clause(clause, seen & clause.fallback, &*around, survey)?;
        seen |= clause.fallback;
    }
    Ok(())
}

#[cycle(visit)]
fn visit_clause<'a>(
    clause: &'a RatCase,
    second: bool,
    around: &Around,
    survey: &mut Survey<'a>,
) -> Result<(), AllocError>
    ensures { OnOk result (survey_of survey.new ≡ noting_all (case_parts (depth_of around.now) (is_among survey.old.reach) second clause.now) (survey_of survey.old)) }
{
    let form = Form::CaseList(&clause.tests, second);
    survey.note(&*around, None, clause.place, form)?;
    visit_list(&clause.body, &*around, survey)
}
