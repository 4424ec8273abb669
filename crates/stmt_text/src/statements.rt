// The texts of statements.
ghost use Rattle.std.specs.Prelude.{false, ◌≡◌, ◌≤◌, ◌/◌, ◌%◌, ◌+◌, ◌++◌, ◌∷◌, length, map, IsSome, IfSome, ◌↔◌};
ghost use Rattle.std.specs.Fmt.{digits};
ghost use Rattle.f66_tree.specs.Syntax.{Assign, Computed, Goto, Invoke, Loop, Sign, Stop};
ghost use Rattle.f66_tree.specs.Views.{act_of, chained, formula_of, par_of};
ghost use Rattle.stmt_text.specs.Emitting.{Emits};
ghost use Rattle.stmt_text.specs.Characters.{opening, closing};
ghost use Rattle.stmt_text.specs.Texts.{act_text, arguments_text, formula_text, formulas_text, statement_text as text_of_statement};

use crate::declarations::{push_common, push_data, push_dimension, push_equivalence, push_typed};
use crate::entries::{push_read, push_write};
use crate::expressions::{push_formula, push_formulas};
use crate::formats::push_format;
use crate::lists::{push_labels, push_loop};
use crate::writer::{StatementText, push, push_all, push_number};
use f66_tree::{Counting, Expr, Name, Par, StmtKind};

/// The text of a statement, unless it passes twenty cards.
pub fn statement_text(kind: &StmtKind) -> Option<StatementText>
    ensures fits { IsSome result ↔ (length (text_of_statement (act_of kind.now)) ≤ 1320) }
    ensures text { IfSome result (λ text. text.items ≡ text_of_statement (act_of kind.now)) }
{
    let mut text = StatementText::new();
    write_statement(&mut text, kind)?;
    Some(text)
}

/// The same in place of what a text has. One text serves many statements so.
pub fn write_statement(text: &mut StatementText, kind: &StmtKind) -> Option<()>
    ensures fits { IsSome result ↔ (length (text_of_statement (act_of kind.now)) ≤ 1320) }
    ensures text { IsSome result → text.new.items ≡ text_of_statement (act_of kind.now) }
{
    text.clear();
    push_statement(text, kind)?;
    prove!(text.len() <= 1320);
    Some(())
}

fn push_statement(out: &mut StatementText, kind: &StmtKind) -> Option<()>
    ensures { Emits result out.old.items out.new.items (act_text (act_of kind.now)) }
{
    match kind {
        StmtKind::Assign(place, value) => push_assignment(out, place, value),
        StmtKind::Goto(label) => push_goto(out, *label),
        StmtKind::Computed(labels, index) => push_computed(out, labels, index),
        StmtKind::Sign(e, below, zero, above) => push_sign(out, e, *below, *zero, *above),
        StmtKind::When(test, inner) => {
            push_test(out, test)?;
            push_statement(out, inner)
        }
        StmtKind::Loop(label, counting) => {
            let Counting {
                variable,
                first,
                last,
                step,
            } = &**counting;
            push_do(out, *label, variable, first, last, step)
        }
        StmtKind::Invoke(name, list) => push_call(out, name, list),
        StmtKind::Continue => push_all(out, b"CONTINUE"),
        StmtKind::Stop(number) => push_stop(out, *number),
        StmtKind::Return => push_all(out, b"RETURN"),
        StmtKind::Read(unit, format, list) => push_read(out, unit, *format, list),
        StmtKind::Write(unit, format, list) => push_write(out, unit, *format, list),
        StmtKind::Format(fields) => push_format(out, fields),
        StmtKind::Typed(word, list) => push_typed(out, *word, list),
        StmtKind::Dimension(list) => push_dimension(out, list),
        StmtKind::Common(areas) => push_common(out, areas),
        StmtKind::Equivalence(groups) => push_equivalence(out, groups),
        StmtKind::Preset(parts) => push_data(out, parts),
    }
}

fn push_assignment(out: &mut StatementText, place: &Expr, value: &Expr) -> Option<()>
    ensures { Emits result out.old.items out.new.items (act_text (Assign (formula_of place.now) (formula_of value.now))) }
{
    push_formula(out, place)?;
    push(out, b'=')?;
    push_formula(out, value)
}

fn push_goto(out: &mut StatementText, label: u32) -> Option<()>
    ensures { Emits result out.old.items out.new.items (act_text (Goto label)) }
{
    push_all(out, b"GO TO ")?;
    push_number(out, u64::from(label))
}

fn push_computed(out: &mut StatementText, labels: &[u32], index: &Name) -> Option<()>
    ensures { Emits result out.old.items out.new.items (act_text (Computed labels.now index.now)) }
{
    push_all(out, b"GO TO (")?;
    push_labels(out, labels)?;
    push(out, b')')?;
    push(out, b',')?;
    push_all(out, index.as_bytes())
}

/// The arithmetic IF.
fn push_sign(out: &mut StatementText, e: &Expr, below: u32, zero: u32, above: u32) -> Option<()>
    ensures { Emits result out.old.items out.new.items (act_text (Sign (formula_of e.now) below zero above)) }
{
    push_test(out, e)?;
    push_number(out, u64::from(below))?;
    push(out, b',')?;
    push_number(out, u64::from(zero))?;
    push(out, b',')?;
    push_number(out, u64::from(above))
}

/// The word IF with the expression that it asks.
fn push_test(out: &mut StatementText, test: &Expr) -> Option<()>
    ensures { Emits result out.old.items out.new.items (λ k. 73 ∷ 70 ∷ opening ∷ formula_text (formula_of test.now) (closing ∷ k)) }
{
    push_all(out, b"IF(")?;
    push_formula(out, test)?;
    push(out, b')')
}

fn push_do(
    out: &mut StatementText,
    label: u32,
    variable: &Name,
    first: &Par,
    last: &Par,
    step: &Par,
) -> Option<()>
    ensures { Emits result out.old.items out.new.items (act_text (Loop label variable.now (par_of first.now) (par_of last.now) (par_of step.now))) }
{
    push_all(out, b"DO ")?;
    push_number(out, u64::from(label))?;
    push(out, b' ')?;
    push_loop(out, variable, first, last, step)
}

fn push_call(out: &mut StatementText, name: &Name, list: &[Expr]) -> Option<()>
    ensures { Emits result out.old.items out.new.items (act_text (Invoke name.now (chained (map formula_of list.now)))) }
{
    push_all(out, b"CALL ")?;
    push_all(out, name.as_bytes())?;
    push_arguments(out, list)
}

/// The arguments of a CALL in parentheses, where there are any.
fn push_arguments(out: &mut StatementText, list: &[Expr]) -> Option<()>
    ensures { Emits result out.old.items out.new.items (arguments_text (chained (map formula_of list.now))) }
{
    if list.is_empty() {
        return Some(());
    }
    push_enclosed(out, list)
}

fn push_enclosed(out: &mut StatementText, list: &[Expr]) -> Option<()>
    ensures { Emits result out.old.items out.new.items (λ k. opening ∷ formulas_text (chained (map formula_of list.now)) (closing ∷ k)) }
{
    push(out, b'(')?;
    push_formulas(out, list)?;
    push(out, b')')
}

fn push_stop(out: &mut StatementText, number: Option<u16>) -> Option<()>
    ensures { Emits result out.old.items out.new.items (act_text (Stop number)) }
{
    match number {
        None => push_all(out, b"STOP"),
        Some(number) => {
            push_all(out, b"STOP ")?;
            push_octal(out, number)
        }
    }
}

/// The octal digits of a number.
#[cycle(octal)]
fn push_octal(out: &mut StatementText, n: u16) -> Option<()>
    ensures { Emits result out.old.items out.new.items (λ k. digits 8 false n ++ k) }
{
    if n < 8 {
        return push(out, b'0' + (n % 8) as u8);
    }
    push_octal_more(out, n)
}

#[cycle(octal)]
fn push_octal_more(out: &mut StatementText, n: u16) -> Option<()>
    requires { 8 ≤ n }
    ensures { Emits result out.old.items out.new.items (λ k. digits 8 false (n / 8) ++ (48 + n % 8) ∷ k) }
{
    push_octal(out, n / 8)?;
    push(out, b'0' + (n % 8) as u8)
}
