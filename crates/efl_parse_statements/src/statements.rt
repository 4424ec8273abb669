// What the productions of statements make.
ghost use Rattle.std.specs.Prelude.{◌≡◌, ◌∷◌, [], None, true, false, IfOk};
ghost use Rattle.efl_tree.specs.Syntax.{Statement, Empty, Block, Act, RepeatUntil, Repeat, While, For, Do, Switch, Return, Goto, AndCase};
ghost use Rattle.efl_tree.specs.Views.{expr_of, decls_of, stmt_of, stmts_of, kind_of, cases_of};
ghost use Rattle.efl_parse_values.specs.Values.{value, values, at, stmt, located, clause as clause_val, leaving as leaving_val};
ghost use Rattle.efl_parse_values.specs.Parts.{place_in, name_in, integer_in, number_in, as_expr, expr_part, as_integers, as_stmt, as_stmts, as_clauses, decls_in, body_in, count_in, loop_in, count_or_one};
ghost use Rattle.efl_parse_statements.specs.Statements.{placed, conditional, repetition, left, loop_named as named_loop, loop_of as loop_part};
ghost use Rattle.efl_parse_statements.specs.Choices.{stmt_if_any, boxed_stmt, chosen};

use efl_parse_values::{
    CountValue, ExpressionValue, Lists, StatementValue, Value, clause, into_expr, into_expr_if_any,
    into_lists, into_name, into_statement, into_word, is_word, longer, ordered, place_of,
    pop_value, skip, take_count_or_one, take_integer, take_leaving, take_number, take_place,
};
use efl_tree::{EflCase, EflDecl, EflExpr, EflKind, EflStmt, LoopKind};
use ground::{List, Place};
use std::alloc::{AllocError, Global};

/// A statement without a label.
pub fn stated(alloc: Global, place: Place, kind: EflKind) -> Result<Value, AllocError>
    ensures { IfOk result (λ v. value v ≡ stmt (Statement [] place (kind_of kind))) }
{
    let labels = Vec::new(alloc);
    let statement = Box::new(
        alloc,
        EflStmt {
            labels,
            place,
            kind,
        },
    )?;
    Ok(Value::Statement(StatementValue::Statement(statement)))
}

fn boxed(alloc: Global, part: Value) -> Result<Box<EflStmt>, AllocError>
    ensures { IfOk result (λ b. stmt_of b.value ≡ as_stmt (value part)) }
{
    match part {
        Value::Statement(StatementValue::Statement(statement)) => Ok(statement),
        other => Ok(Box::new(alloc, into_statement(alloc, other))?),
    }
}

fn boxed_if_any(part: Value) -> Option<Box<EflStmt>>
    ensures { boxed_stmt result ≡ stmt_if_any (value part) }
{
    match part {
        Value::Statement(StatementValue::Statement(statement)) => Some(statement),
        other => {
            drop(other);
            None
        }
    }
}

pub fn empty_by(alloc: Global, parts: &mut Vec<Value>) -> Result<Value, AllocError>
    ensures { IfOk result (λ v. value v ≡ placed (at 0 (values parts.old.items)) Empty) }
{
    stated(alloc, take_place(pop_value(parts)), EflKind::Empty)
}

fn block(
    alloc: Global,
    place: Place,
    declarations: List<EflDecl>,
    body: List<EflStmt>,
) -> Result<Value, AllocError>
    ensures { IfOk result (λ v. value v ≡ stmt (Statement [] place (Block (decls_of declarations.items) (stmts_of body.items)))) }
{
    stated(alloc, place, EflKind::Block(declarations, body))
}

pub fn braces_by(alloc: Global, parts: &mut Vec<Value>) -> Result<Value, AllocError>
    ensures { IfOk result (λ v. value v ≡ placed (at 2 (values parts.old.items)) (Block (decls_in (at 1 (values parts.old.items))) (body_in (at 1 (values parts.old.items))))) }
{
    skip(parts);
    let Lists {
        mut declarations,
        mut body,
    } = into_lists(alloc, pop_value(parts));
    declarations.reverse();
    body.reverse();
    let place = take_place(pop_value(parts));
    block(alloc, place, declarations, body)
}

/// A statement that is an act with its place.
pub fn step_by(alloc: Global, parts: &mut Vec<Value>) -> Result<Value, AllocError>
    ensures { IfOk result (λ v. value v ≡ placed (at 1 (values parts.old.items)) (Act (as_expr (at 1 (values parts.old.items))))) }
{
    skip(parts);
    let act = pop_value(parts);
    let place = place_of(&act);
    stated(alloc, place, EflKind::Act(into_expr(act)))
}

fn choose(
    alloc: Global,
    place: Place,
    test: EflExpr,
    body: Box<EflStmt>,
    other: Option<Box<EflStmt>>,
) -> Result<Value, AllocError>
    ensures { IfOk result (λ v. value v ≡ stmt (Statement [] place (chosen (expr_of test) (stmt_of body.value) (boxed_stmt other)))) }
{
    match other {
        Some(other) => stated(alloc, place, EflKind::If(test, body, Some(other))),
        None => stated(alloc, place, EflKind::If(test, body, None)),
    }
}

#[tactic(auto, using(crate::proofs::TreeLemmas::choice_is))]
pub fn if_by(alloc: Global, parts: &mut Vec<Value>) -> Result<Value, AllocError>
    ensures { IfOk result (λ v. value v ≡ placed (at 3 (values parts.old.items)) (conditional (as_expr (at 2 (values parts.old.items))) (as_stmt (at 1 (values parts.old.items))) (at 0 (values parts.old.items)))) }
{
    let other = boxed_if_any(pop_value(parts));
    let body = boxed(alloc, pop_value(parts))?;
    let test = into_expr(pop_value(parts));
    let place = take_place(pop_value(parts));
    choose(alloc, place, test, body, other)
}

pub fn while_by(alloc: Global, parts: &mut Vec<Value>) -> Result<Value, AllocError>
    ensures { IfOk result (λ v. value v ≡ placed (at 2 (values parts.old.items)) (While (as_expr (at 1 (values parts.old.items))) (as_stmt (at 0 (values parts.old.items))))) }
{
    let body = boxed(alloc, pop_value(parts))?;
    let test = into_expr(pop_value(parts));
    let place = take_place(pop_value(parts));
    stated(alloc, place, EflKind::While(test, body))
}

pub fn for_by(alloc: Global, parts: &mut Vec<Value>) -> Result<Value, AllocError>
    ensures { IfOk result (λ v. value v ≡ placed (at 8 (values parts.old.items)) (For (expr_part (at 6 (values parts.old.items))) (expr_part (at 4 (values parts.old.items))) (expr_part (at 2 (values parts.old.items))) (as_stmt (at 0 (values parts.old.items))))) }
{
    let body = boxed(alloc, pop_value(parts))?;
    skip(parts);
    let step = into_expr_if_any(pop_value(parts));
    skip(parts);
    let test = into_expr_if_any(pop_value(parts));
    skip(parts);
    let first = into_expr_if_any(pop_value(parts));
    skip(parts);
    let place = take_place(pop_value(parts));
    stated(alloc, place, EflKind::For(first, test, step, body))
}

fn repeat(alloc: Global, place: Place, body: Box<EflStmt>, part: Value) -> Result<Value, AllocError>
    ensures { IfOk result (λ v. value v ≡ stmt (Statement [] place (repetition (stmt_of body.value) (value part)))) }
{
    match part {
        Value::Expression(ExpressionValue::Located(until, test)) => repeat_until(
            alloc, place, body, test, until,
        ),
        other => {
            drop(other);
            repeat_ever(alloc, place, body)
        }
    }
}

fn repeat_until(
    alloc: Global,
    place: Place,
    body: Box<EflStmt>,
    test: EflExpr,
    until: Place,
) -> Result<Value, AllocError>
    ensures { IfOk result (λ v. value v ≡ stmt (Statement [] place (RepeatUntil (stmt_of body.value) (expr_of test) until))) }
{
    stated(alloc, place, EflKind::Repeat(body, Some((test, until))))
}

fn repeat_ever(alloc: Global, place: Place, body: Box<EflStmt>) -> Result<Value, AllocError>
    ensures { IfOk result (λ v. value v ≡ stmt (Statement [] place (Repeat (stmt_of body.value)))) }
{
    stated(alloc, place, EflKind::Repeat(body, None))
}

pub fn repeat_by(alloc: Global, parts: &mut Vec<Value>) -> Result<Value, AllocError>
    ensures { IfOk result (λ v. value v ≡ placed (at 2 (values parts.old.items)) (repetition (as_stmt (at 1 (values parts.old.items))) (at 0 (values parts.old.items)))) }
{
    let last = pop_value(parts);
    let body = boxed(alloc, pop_value(parts))?;
    let place = take_place(pop_value(parts));
    repeat(alloc, place, body, last)
}

pub fn until_by(parts: &mut Vec<Value>) -> Result<Value, AllocError>
    ensures { IfOk result (λ v. value v ≡ located (place_in (at 2 (values parts.old.items))) (as_expr (at 1 (values parts.old.items)))) }
{
    skip(parts);
    let test = into_expr(pop_value(parts));
    let place = take_place(pop_value(parts));
    Ok(Value::Expression(ExpressionValue::Located(place, test)))
}

pub fn do_by(alloc: Global, parts: &mut Vec<Value>) -> Result<Value, AllocError>
    ensures { IfOk result (λ v. value v ≡ placed (at 7 (values parts.old.items)) (Do (name_in (at 6 (values parts.old.items))) (as_expr (at 4 (values parts.old.items))) (as_expr (at 2 (values parts.old.items))) (expr_part (at 1 (values parts.old.items))) (as_stmt (at 0 (values parts.old.items))))) }
{
    let body = boxed(alloc, pop_value(parts))?;
    let step = into_expr_if_any(pop_value(parts));
    let last = into_expr(pop_value(parts));
    skip(parts);
    let first = into_expr(pop_value(parts));
    skip(parts);
    let variable = into_name(pop_value(parts));
    let place = take_place(pop_value(parts));
    stated(alloc, place, EflKind::Do(variable, first, last, step, body))
}

fn switch(
    alloc: Global,
    place: Place,
    test: EflExpr,
    list: List<EflCase>,
) -> Result<Value, AllocError>
    ensures { IfOk result (λ v. value v ≡ stmt (Statement [] place (Switch (expr_of test) (cases_of list.items)))) }
{
    stated(alloc, place, EflKind::Switch(test, list))
}

pub fn switch_by(alloc: Global, parts: &mut Vec<Value>) -> Result<Value, AllocError>
    ensures { IfOk result (λ v. value v ≡ placed (at 6 (values parts.old.items)) (Switch (as_expr (at 5 (values parts.old.items))) (as_clauses (at 1 (values parts.old.items))))) }
{
    skip(parts);
    let clauses: List<EflCase> = ordered(alloc, pop_value(parts));
    skip(parts);
    skip(parts);
    skip(parts);
    let test = into_expr(pop_value(parts));
    let place = take_place(pop_value(parts));
    switch(alloc, place, test, clauses)
}

fn clause_value(tests: List<i64>, fallback: bool, body: List<EflStmt>, place: Place) -> Value
    ensures { value result ≡ clause_val (AndCase tests.items fallback (stmts_of body.items) place) }
{
    Value::Statement(StatementValue::Clause(clause(tests, fallback, body, place)))
}

pub fn case_by(alloc: Global, parts: &mut Vec<Value>) -> Result<Value, AllocError>
    ensures { IfOk result (λ v. value v ≡ clause_val (AndCase (integer_in (at 3 (values parts.old.items)) ∷ as_integers (at 2 (values parts.old.items))) false (as_stmts (at 0 (values parts.old.items))) (place_in (at 4 (values parts.old.items))))) }
{
    let body: List<EflStmt> = ordered(alloc, pop_value(parts));
    skip(parts);
    let rest = pop_value(parts);
    let first = take_integer(pop_value(parts));
    let place = take_place(pop_value(parts));
    let tests: List<i64> = ordered(alloc, longer(alloc, first, rest)?);
    Ok(clause_value(tests, false, body, place))
}

pub fn default_by(alloc: Global, parts: &mut Vec<Value>) -> Result<Value, AllocError>
    ensures { IfOk result (λ v. value v ≡ clause_val (AndCase [] true (as_stmts (at 0 (values parts.old.items))) (place_in (at 2 (values parts.old.items))))) }
{
    let body: List<EflStmt> = ordered(alloc, pop_value(parts));
    skip(parts);
    let place = take_place(pop_value(parts));
    Ok(clause_value(Vec::new(alloc), true, body, place))
}

fn leaving(word: &Value, count: u32, kind: Option<LoopKind>) -> EflKind
    ensures { kind_of result ≡ left (value word.now) count kind }
{
    if is_word(b"NEXT", word) {
        EflKind::Next(count, kind)
    } else {
        EflKind::Break(count, kind)
    }
}

pub fn leave_by(alloc: Global, parts: &mut Vec<Value>) -> Result<Value, AllocError>
    ensures { IfOk result (λ v. value v ≡ placed (at 2 (values parts.old.items)) (left (at 2 (values parts.old.items)) (count_in (at 1 (values parts.old.items))) (loop_in (at 1 (values parts.old.items))))) }
{
    skip(parts);
    let (count, kind) = take_leaving(pop_value(parts));
    let word = pop_value(parts);
    let left = leaving(&word, count, kind);
    let place = take_place(word);
    stated(alloc, place, left)
}

fn loop_named(word: &Value) -> LoopKind
    ensures { result ≡ named_loop (value word.now) }
{
    if is_word(b"WHILE", word) {
        LoopKind::While
    } else if is_word(b"FOR", word) {
        LoopKind::For
    } else if is_word(b"REPEAT", word) {
        LoopKind::Repeat
    } else if is_word(b"DO", word) {
        LoopKind::Do
    } else {
        LoopKind::Switch
    }
}

fn loop_of(part: &Value) -> Option<LoopKind>
    ensures { result ≡ loop_part (value part.now) }
{
    match part {
        Value::Token(_) => Some(loop_named(part)),
        _ => None,
    }
}

fn take_loop(part: Value) -> Option<LoopKind>
    ensures { result ≡ loop_part (value part) }
{
    let kind = loop_of(&part);
    drop(part);
    kind
}

pub fn count_first_by(parts: &mut Vec<Value>) -> Result<Value, AllocError>
    ensures { IfOk result (λ v. value v ≡ leaving_val (number_in (at 1 (values parts.old.items))) (loop_part (at 0 (values parts.old.items)))) }
{
    let kind = take_loop(pop_value(parts));
    let count = take_number(pop_value(parts));
    Ok(Value::Count(CountValue::Leaving(count, kind)))
}

pub fn kind_first_by(parts: &mut Vec<Value>) -> Result<Value, AllocError>
    ensures { IfOk result (λ v. value v ≡ leaving_val (count_or_one (at 0 (values parts.old.items))) (loop_part (at 1 (values parts.old.items)))) }
{
    let count = take_count_or_one(pop_value(parts));
    let kind = take_loop(pop_value(parts));
    Ok(Value::Count(CountValue::Leaving(count, kind)))
}

pub fn bare_leaving() -> Value
    ensures { value result ≡ leaving_val 1 None }
{
    Value::Count(CountValue::Leaving(1, None))
}

pub fn return_by(alloc: Global, parts: &mut Vec<Value>) -> Result<Value, AllocError>
    ensures { IfOk result (λ v. value v ≡ placed (at 2 (values parts.old.items)) (Return (expr_part (at 1 (values parts.old.items))))) }
{
    skip(parts);
    let outcome = into_expr_if_any(pop_value(parts));
    let place = take_place(pop_value(parts));
    stated(alloc, place, EflKind::Return(outcome))
}

pub fn goto_by(alloc: Global, parts: &mut Vec<Value>) -> Result<Value, AllocError>
    ensures { IfOk result (λ v. value v ≡ placed (at 2 (values parts.old.items)) (Goto (name_in (at 1 (values parts.old.items))))) }
{
    skip(parts);
    let label = into_word(pop_value(parts));
    let place = take_place(pop_value(parts));
    stated(alloc, place, EflKind::Goto(label))
}

pub fn go_to_by(alloc: Global, parts: &mut Vec<Value>) -> Result<Value, AllocError>
    ensures { IfOk result (λ v. value v ≡ placed (at 3 (values parts.old.items)) (Goto (name_in (at 1 (values parts.old.items))))) }
{
    skip(parts);
    let label = into_word(pop_value(parts));
    skip(parts);
    let place = take_place(pop_value(parts));
    stated(alloc, place, EflKind::Goto(label))
}
