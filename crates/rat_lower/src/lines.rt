// Single statements of FORTRAN, put behind others.
ghost use Rattle.std.specs.Prelude.{◌≡◌, ◌∷◌, ◌++◌, IfOk, OnOk, None};
ghost use Rattle.f66_tree.specs.Syntax.{unlabelled_line, Assign, When, Goto, Group, Loop, Ref};
ghost use Rattle.f66_tree.specs.Views.{formula_of, formulas_of, par_of, act_of, lines_of};
ghost use Rattle.rat_tree.specs.Views.{act_if_any, formula_if_any};
ghost use Rattle.rat_tree.specs.Meaning.{pred_of};
ghost use Rattle.rat_lower.specs.Around.{rings_of, behind_mark};
ghost use Rattle.rat_lower.specs.Code.{jump, label_again, label_behind, unless, here, with_test, with_act, with_return, case_test, each_test};
ghost use Rattle.rat_lower.specs.Emitted.{Adds};

use crate::{Around, Maker, label_again, label_behind};
use f66_tree::{Counting, Expr, Name, Operator, Stmt, StmtKind, paired};
use ground::{List, Place};
use rat_tree::{RatKind, RatStmt};
use std::alloc::{AllocError, Global};

pub fn put(
    code: &mut List<Stmt>,
    label: Option<u32>,
    place: Place,
    kind: StmtKind,
) -> Result<(), AllocError>
    ensures { OnOk result (Adds (lines_of code.old.items) (lines_of code.new.items) (λ rest. record { label = label; place = place; act = act_of kind } ∷ rest)) }
{
    code.push(Stmt { label, place, kind })?;
    Ok(())
}

/// GO TO label.
pub fn put_jump(code: &mut List<Stmt>, place: Place, label: u32) -> Result<(), AllocError>
    ensures { OnOk result (Adds (lines_of code.old.items) (lines_of code.new.items) (λ rest. jump place label ∷ rest)) }
{
    put(code, None, place, StmtKind::Goto(label))
}

/// A jump behind the loop with this number, counted from the inside.
pub fn put_break(
    code: &mut List<Stmt>,
    place: Place,
    count: u32,
    around: &Around,
) -> Result<(), AllocError>
    ensures { OnOk result (Adds (lines_of code.old.items) (lines_of code.new.items) (λ rest. jump place (label_behind (rings_of around.now) (pred_of count)) ∷ rest)) }
{
    let depth = count.saturating_sub(1);
    put_jump(code, place, label_behind(around, depth))
}

/// A jump to the next turn of the loop with this number.
pub fn put_next(
    code: &mut List<Stmt>,
    place: Place,
    count: u32,
    around: &Around,
) -> Result<(), AllocError>
    ensures { OnOk result (Adds (lines_of code.old.items) (lines_of code.new.items) (λ rest. jump place (label_again (rings_of around.now) (pred_of count)) ∷ rest)) }
{
    let depth = count.saturating_sub(1);
    put_jump(code, place, label_again(around, depth))
}

/// A CONTINUE with this label.
pub fn put_here(code: &mut List<Stmt>, place: Place, label: u32) -> Result<(), AllocError>
    ensures { OnOk result (Adds (lines_of code.old.items) (lines_of code.new.items) (λ rest. here label place ∷ rest)) }
{
    put(code, Some(label), place, StmtKind::Continue)
}

// IF (test) GO TO label
fn put_choice(
    alloc: Global,
    code: &mut List<Stmt>,
    place: Place,
    test: Expr,
    label: u32,
) -> Result<(), AllocError>
    ensures { OnOk result (Adds (lines_of code.old.items) (lines_of code.new.items) (λ rest. unlabelled_line place (When (formula_of test) (Goto label)) ∷ rest)) }
{
    let jump = Box::new(alloc, StmtKind::Goto(label))?;
    put(code, None, place, StmtKind::When(test, jump))
}

// The expression in parentheses.
fn grouped(alloc: Global, e: Expr) -> Result<Box<Expr>, AllocError>
    ensures { IfOk result (λ group. formula_of group.value ≡ Group (formula_of e)) }
{
    let e = Box::new(alloc, e)?;
    Ok(Box::new(alloc, Expr::Group(e))?)
}

/// IF(.NOT.(e))GO TO label.
pub fn put_unless(
    alloc: Global,
    code: &mut List<Stmt>,
    place: Place,
    e: Expr,
    label: u32,
) -> Result<(), AllocError>
    ensures { OnOk result (Adds (lines_of code.old.items) (lines_of code.new.items) (λ rest. unless place (formula_of e) label ∷ rest)) }
{
    let test = Expr::Not(grouped(alloc, e)?);
    put_choice(alloc, code, place, test, label)
}

// Leaves a loop where its test fails.
fn put_test(
    alloc: Global,
    code: &mut List<Stmt>,
    place: Place,
    test: Option<Expr>,
    label: u32,
) -> Result<(), AllocError>
    ensures { OnOk result (Adds (lines_of code.old.items) (lines_of code.new.items) (with_test place (formula_if_any test) label)) }
{
    match test {
        None => Ok(()),
        Some(e) => put_unless(alloc, code, place, e, label),
    }
}

/// What stands before the body of a loop: its label, and its test where it has one, which leaves it.
pub fn put_head(
    alloc: Global,
    code: &mut List<Stmt>,
    place: Place,
    head: u32,
    test: Option<Expr>,
    behind: u32,
) -> Result<(), AllocError>
    ensures { OnOk result (Adds (lines_of code.old.items) (lines_of code.new.items) (λ rest. here head place ∷ with_test place (formula_if_any test) behind rest)) }
{
    put_here(code, place, head)?;
    put_test(alloc, code, place, test, behind)
}

/// What a loop does behind each turn: the label, and the step where it has one.
pub fn put_turn(
    code: &mut List<Stmt>,
    place: Place,
    again: u32,
    step: Option<StmtKind>,
) -> Result<(), AllocError>
    ensures { OnOk result (Adds (lines_of code.old.items) (lines_of code.new.items) (λ rest. here again place ∷ with_act place (act_if_any step) rest)) }
{
    put_here(code, place, again)?;
    put_act(code, place, step)
}

/// The end of a loop: back to its head, and the label behind it.
pub fn put_back(
    code: &mut List<Stmt>,
    place: Place,
    head: u32,
    behind: u32,
) -> Result<(), AllocError>
    ensures { OnOk result (Adds (lines_of code.old.items) (lines_of code.new.items) (λ rest. jump place head ∷ here behind place ∷ rest)) }
{
    put_jump(code, place, head)?;
    put_here(code, place, behind)
}

/// Between the two statements of an if: the first is left, and the second begins.
pub fn put_otherwise(
    code: &mut List<Stmt>,
    place: Place,
    behind: u32,
    otherwise: u32,
) -> Result<(), AllocError>
    ensures { OnOk result (Adds (lines_of code.old.items) (lines_of code.new.items) (λ rest. jump place behind ∷ here otherwise place ∷ rest)) }
{
    put_jump(code, place, behind)?;
    put_here(code, place, otherwise)
}

/// A statement that is there or not.
pub fn put_act(
    code: &mut List<Stmt>,
    place: Place,
    kind: Option<StmtKind>,
) -> Result<(), AllocError>
    ensures { OnOk result (Adds (lines_of code.old.items) (lines_of code.new.items) (with_act place (act_if_any kind))) }
{
    match kind {
        None => Ok(()),
        Some(kind) => put(code, None, place, kind),
    }
}

/// The label of a statement that is not plain, at a CONTINUE of its own.
pub fn put_mark(code: &mut List<Stmt>, statement: &RatStmt) -> Result<(), AllocError>
    ensures { OnOk result (Adds (lines_of code.old.items) (lines_of code.new.items) (behind_mark statement.now.label statement.now.place statement.now.kind)) }
{
    match (&statement.kind, statement.label) {
        (RatKind::Plain(_), _) | (_, None) => Ok(()),
        (_, Some(label)) => put_here(code, statement.place, label),
    }
}

/// DO end variable = first, last, step.
pub fn put_do(
    alloc: Global,
    code: &mut List<Stmt>,
    place: Place,
    end: u32,
    counting: Counting,
) -> Result<(), AllocError>
    ensures { OnOk result (Adds (lines_of code.old.items) (lines_of code.new.items) (λ rest. unlabelled_line place (Loop end counting.variable (par_of counting.first) (par_of counting.last) (par_of counting.step)) ∷ rest)) }
{
    let counting = Box::new(alloc, counting)?;
    put(code, None, place, StmtKind::Loop(end, counting))
}

/// RETURN, behind the store of a function's value where there is one.
pub fn put_return(
    maker: &Maker,
    code: &mut List<Stmt>,
    place: Place,
    value: Option<Expr>,
) -> Result<(), AllocError>
    ensures { OnOk result (Adds (lines_of code.old.items) (lines_of code.new.items) (with_return maker.now.own place (formula_if_any value))) }
{
    if let Some(e) = value {
        put_value(code, place, maker.own()?, e)?;
    }
    put(code, None, place, StmtKind::Return)
}

/// A value is put into a name.
pub fn put_value(code: &mut List<Stmt>, place: Place, name: Name, e: Expr) -> Result<(), AllocError>
    ensures { OnOk result (Adds (lines_of code.old.items) (lines_of code.new.items) (λ rest. unlabelled_line place (Assign (Ref name) (formula_of e)) ∷ rest)) }
{
    put(code, None, place, StmtKind::Assign(Expr::Ref(name), e))
}

// IF(name .EQ. (e))GO TO label
fn put_case(
    alloc: Global,
    code: &mut List<Stmt>,
    place: Place,
    name: Name,
    e: Expr,
    label: u32,
) -> Result<(), AllocError>
    ensures { OnOk result (Adds (lines_of code.old.items) (lines_of code.new.items) (λ rest. unlabelled_line place (When (case_test name (formula_of e)) (Goto label)) ∷ rest)) }
{
    let value = Expr::Group(Box::new(alloc, e)?);
    let test = paired(alloc, Operator::Eq, Expr::Ref(name), value)?;
    put_choice(alloc, code, place, test, label)
}

/// The case expressions of a clause, each of which leads to its label.
pub fn put_cases(
    maker: &Maker,
    code: &mut List<Stmt>,
    place: Place,
    cases: List<Expr>,
    label: u32,
) -> Result<(), AllocError>
    ensures { OnOk result (Adds (lines_of code.old.items) (lines_of code.new.items) (each_test maker.now.spare place (formulas_of cases.items) label)) }
{
    for e in cases {
        let name = maker.spare()?;
        put_case(maker.alloc(), code, place, name, e, label)?;
    }
    Ok(())
}

/// Other statements are put behind.
pub fn append(code: &mut List<Stmt>, mut others: List<Stmt>) -> Result<(), AllocError>
    ensures { OnOk result (Adds (lines_of code.old.items) (lines_of code.new.items) (λ rest. lines_of others.items ++ rest)) }
{
    code.append(&mut others)?;
    Ok(())
}
