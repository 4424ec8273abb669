// Which headers and parts have texts that do not fit their cards.
ghost use Rattle.std.specs.Prelude.{◌≡◌};
ghost use Rattle.f66_tree.specs.Views.{formula_of, formulas_of, header_of, act_of};
ghost use Rattle.rat_tree.specs.Views.{act_if_any, formula_if_any};
ghost use Rattle.rat_check.specs.FormViews.{form_of};
ghost use Rattle.rat_check.specs.LongTexts.{is_long_header, is_long_statement, is_long_expression, are_some_long, is_long_if_any, is_long_test, is_long_form};

use crate::{Form, is_short_assignment, room_behind};
use f66_tree::{Expr, Header, StmtKind};
use stmt_text::{expression_text, header_text, statement_text};

/// Whether the text of a header is longer than limit 9.
pub fn is_long_header(header: &Header) -> bool
    ensures { result ≡ is_long_header (header_of header.now) }
{
    header_text(header).is_none()
}

/// Whether a text of a part is longer than limit 9.
pub fn is_long_form(form: Form) -> bool
    ensures { result ≡ is_long_form (form_of form.entry) }
{
    match form {
        Form::Statement(kind) => is_long_statement(kind),
        Form::Condition(e) | Form::Selector(e) => is_long_expression(e),
        Form::CaseList(list, _) => are_some_long(list),
        Form::ForHead(first, e, step) => {
            is_long_if_any(first) || (is_long_test(e) || is_long_if_any(step))
        }
        Form::ReturnHead(e) => is_long_test(e),
        Form::Bare | Form::RepeatHead | Form::DoHead(..) | Form::LoopExit(_) => false,
    }
}

fn is_long_statement(kind: &StmtKind) -> bool
    ensures { result ≡ is_long_statement (act_of kind.now) }
{
    !is_short_assignment(kind) && statement_text(kind).is_none()
}

fn is_long_expression(e: &Expr) -> bool
    ensures { result ≡ is_long_expression (formula_of e.now) }
{
    // Most expressions are short by far.
    if room_behind(e, 1200).is_some() {
        return false;
    }
    match expression_text(e) {
        Some(text) => text.len() > 1200,
        None => true,
    }
}

fn are_some_long(list: &[Expr]) -> bool
    ensures { result ≡ are_some_long (formulas_of list.now) }
{
    for e in list {
        if is_long_expression(e) {
            return true;
        }
    }
    false
}

fn is_long_if_any(kind: &Option<StmtKind>) -> bool
    ensures { result ≡ is_long_if_any (act_if_any kind.now) }
{
    match kind {
        Some(kind) => is_long_statement(kind),
        None => false,
    }
}

fn is_long_test(e: &Option<Expr>) -> bool
    ensures { result ≡ is_long_test (formula_if_any e.now) }
{
    match e {
        Some(e) => is_long_expression(e),
        None => false,
    }
}
