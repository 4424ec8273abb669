// What the parts of a unit say of names.
ghost use Rattle.std.specs.Prelude.{◌≡◌, ◌++◌, ◌∷◌, [], OnOk};
ghost use Rattle.f66_tree.specs.Views.{formula_of, formulas_of, header_of, act_of};
ghost use Rattle.rat_tree.specs.Views.{act_if_any, formula_if_any};
ghost use Rattle.f66_names.specs.ActViews.{act_said, acts_of};
ghost use Rattle.rat_check.specs.Said.{said_by, value_acts, condition_if_any, said_if_any, returned_act, returned_if_any};
ghost use Rattle.rat_check.specs.FormViews.{form_of};

use crate::Form;
use f66_names::Saying;
use f66_tree::{Expr, Header, StmtKind};
use std::alloc::AllocError;

/// What a part of a unit with this header says of names, in reading order, into a list that has had what another says.
pub fn sayings_into<'a>(
    header: &'a Header,
    form: Form<'a>,
    sayings: &mut Vec<Saying<'a>>,
) -> Result<(), AllocError>
    ensures { OnOk result (acts_of sayings.new.items ≡ said_by (header_of header.now) (form_of form.entry)) }
{
    sayings.clear();
    add_form(header, form, sayings)
}

/// Adds what a part says of names.
pub fn add_form<'a>(
    header: &'a Header,
    form: Form<'a>,
    sayings: &mut Vec<Saying<'a>>,
) -> Result<(), AllocError>
    ensures { OnOk result (acts_of sayings.new.items ≡ acts_of sayings.old.items ++ said_by (header_of header.now) (form_of form.entry)) }
{
    match form {
        Form::Bare | Form::RepeatHead | Form::LoopExit(_) => Ok(()),
        Form::ReturnHead(value) => add_returned(header, value, sayings),
        Form::Statement(kind) => add(Saying::Act(kind), sayings),
        Form::Condition(e) => add(Saying::Condition(e), sayings),
        Form::Selector(e) => add(Saying::Value(e), sayings),
        Form::CaseList(list, _) => add_values(list, sayings),
        Form::ForHead(first, e, step) => {
            add_act(first, sayings)?;
            add_condition(e, sayings)?;
            add_act(step, sayings)
        }
        Form::DoHead(name, first, last, step) => {
            add(Saying::Counting(name, first, last, step), sayings)
        }
    }
}

fn add<'a>(saying: Saying<'a>, sayings: &mut Vec<Saying<'a>>) -> Result<(), AllocError>
    ensures { OnOk result (acts_of sayings.new.items ≡ acts_of sayings.old.items ++ act_said saying.entry ∷ []) }
{
    sayings.push(saying)?;
    Ok(())
}

fn add_values<'a>(list: &'a [Expr], sayings: &mut Vec<Saying<'a>>) -> Result<(), AllocError>
    ensures { OnOk result (acts_of sayings.new.items ≡ acts_of sayings.old.items ++ value_acts (formulas_of list.now)) }
{
    for e in list {
        sayings.push(Saying::Value(e))?;
    }
    Ok(())
}

fn add_act<'a>(kind: &'a Option<StmtKind>, sayings: &mut Vec<Saying<'a>>) -> Result<(), AllocError>
    ensures { OnOk result (acts_of sayings.new.items ≡ acts_of sayings.old.items ++ said_if_any (act_if_any kind.now)) }
{
    match kind {
        None => Ok(()),
        Some(kind) => add(Saying::Act(kind), sayings),
    }
}

fn add_condition<'a>(e: &'a Option<Expr>, sayings: &mut Vec<Saying<'a>>) -> Result<(), AllocError>
    ensures { OnOk result (acts_of sayings.new.items ≡ acts_of sayings.old.items ++ condition_if_any (formula_if_any e.now)) }
{
    match e {
        None => Ok(()),
        Some(e) => add(Saying::Condition(e), sayings),
    }
}

fn add_returned<'a>(
    header: &'a Header,
    value: &'a Option<Expr>,
    sayings: &mut Vec<Saying<'a>>,
) -> Result<(), AllocError>
    ensures { OnOk result
        (acts_of sayings.new.items ≡ acts_of sayings.old.items ++ returned_if_any (header_of header.now) (formula_if_any value.now)) }
{
    match value {
        None => Ok(()),
        Some(e) => add(returned(header, e), sayings),
    }
}

/// A value that is returned: in a function an assignment to its name.
fn returned<'a>(header: &'a Header, e: &'a Expr) -> Saying<'a>
    ensures { act_said result ≡ returned_act (header_of header.now) (formula_of e.now) }
{
    match header {
        Header::Func(_, name, _) => Saying::Returned(name, e),
        Header::Main | Header::Sub(_, _) | Header::Block => Saying::Value(e),
    }
}
