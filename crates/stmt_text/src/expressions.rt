// The texts of expressions.
ghost use Rattle.std.specs.Prelude.{◌≡◌, ◌≤◌, [], length, map, IsSome, IfSome, ◌↔◌};
ghost use Rattle.f66_tree.specs.Syntax.{Item};
ghost use Rattle.f66_tree.specs.Views.{chained, formula_of};
ghost use Rattle.stmt_text.specs.Emitting.{Emits};
ghost use Rattle.stmt_text.specs.Texts.{formula_text, formulas_text, operator_text as text_of_operator};

use crate::writer::{StatementText, push, push_all, push_number};
use f66_tree::{Expr, Name, Operator};

/// The text of an expression, unless it passes twenty cards.
pub fn expression_text(e: &Expr) -> Option<StatementText>
    ensures fits { IsSome result ↔ (length (formula_text (formula_of e.now) []) ≤ 1320) }
    ensures text { IfSome result (λ text. text.items ≡ formula_text (formula_of e.now) []) }
{
    let mut text = StatementText::new();
    push_formula(&mut text, e)?;
    prove!(text.len() <= 1320);
    Some(text)
}

/// Adds an expression.
#[cycle(texts)]
pub fn push_formula(out: &mut StatementText, e: &Expr) -> Option<()>
    ensures { Emits result out.old.items out.new.items (formula_text (formula_of e.now)) }
{
    match e {
        Expr::Int(n) => push_number(out, n.unsigned_abs()),
        Expr::Truth(b) => push_all(out, if *b { b".TRUE." } else { b".FALSE." }),
        Expr::Letter(c) => {
            push(out, b'1')?;
            push(out, b'H')?;
            push(out, *c)
        }
        Expr::Ref(name) => push_all(out, name.as_bytes()),
        Expr::Item(item) => {
            let (name, list) = &**item;
            push_applied(out, name, list)
        }
        Expr::Group(a) => {
            push(out, b'(')?;
            push_formula(out, a)?;
            push(out, b')')
        }
        Expr::Plus(a) => {
            push(out, b'+')?;
            push_formula(out, a)
        }
        Expr::Minus(a) => {
            push(out, b'-')?;
            push_formula(out, a)
        }
        Expr::Not(a) => {
            push_all(out, b".NOT.")?;
            push_formula(out, a)
        }
        Expr::Pair(operator, operands) => {
            let (a, b) = &**operands;
            push_formula(out, a)?;
            push_all(out, operator_text(*operator))?;
            push_formula(out, b)
        }
    }
}

/// Adds a name with its arguments.
#[cycle(texts)]
fn push_applied(out: &mut StatementText, name: &Name, list: &[Expr]) -> Option<()>
    ensures { Emits result out.old.items out.new.items (formula_text (Item name.now (chained (map formula_of list.now)))) }
{
    push_all(out, name.as_bytes())?;
    push(out, b'(')?;
    push_formulas(out, list)?;
    push(out, b')')
}

/// Adds expressions, with commas between them.
#[cycle(texts)]
pub fn push_formulas(out: &mut StatementText, list: &[Expr]) -> Option<()>
    ensures { Emits result out.old.items out.new.items (formulas_text (chained (map formula_of list.now))) }
{
    for (i, e) in list.iter().enumerate() {
        if i > 0 {
            push(out, b',')?;
        }
        push_formula(out, e)?;
    }
    Some(())
}

fn operator_text(operator: Operator) -> &'static [u8]
    ensures { result.now ≡ text_of_operator operator }
{
    match operator {
        Operator::Add => b"+",
        Operator::Sub => b"-",
        Operator::Mul => b"*",
        Operator::Div => b"/",
        Operator::Power => b"**",
        Operator::Lt => b".LT.",
        Operator::Le => b".LE.",
        Operator::Eq => b".EQ.",
        Operator::Ne => b".NE.",
        Operator::Ge => b".GE.",
        Operator::Gt => b".GT.",
        Operator::And => b".AND.",
        Operator::Or => b".OR.",
    }
}
