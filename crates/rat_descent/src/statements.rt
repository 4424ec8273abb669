// Ratfor's statements.

ghost use Rattle.std.specs.Prelude.{◌≡◌, IfOk};
ghost use Rattle.grammar.specs.declared.language.Symbol.TheVariants.{Nonterminal as nonterminal_symbol};
ghost use Rattle.f66_tree.specs.Views.{formula_of};
ghost use Rattle.rat_tree.specs.Views.{act_if_any, formula_if_any, commands, clauses as clauses_of, clause_then};
ghost use Rattle.rat_parse_table.specs.declared.table.Nonterminal.TheVariants as nonterminals;
ghost use Rattle.rat_parse_values.specs.Values.{formula, clause as clause_value};
ghost use Rattle.rat_parse_values.specs.Parts.{act_part, formula_part, count_or_one, as_statements, as_clauses};
ghost use Rattle.rat_parse_values.specs.Choices.{boxed_command, command_if_any};
ghost use Rattle.rat_descent.specs.Reading.{Reads, Gives, Passes};
ghost use Rattle.rat_descent.specs.Statements.{stated, unlabelled, until_in, until_of};

use crate::control;
use crate::control::{
    choose, count, declaring, leaving, marked, repeat, switch_by, tested, unmarked, untested,
};
use crate::declarations::{declared_list, do_range};
use crate::expressions::expression;
use crate::plain::{plain, simple};
use crate::reader::{Reader, close_production, is_at, is_predicted, open_production, take_token};
use crate::tokens::{name_of, name_token, number_of, number_token, type_token};
use descent::GiveUp;
use f66_tree::{Expr, StmtKind};
use ground::{List, Place};
use rat_parse_table::{Nonterminal, Production, Terminal};
use rat_tree::{ForHead, RatCase, RatKind, RatStmt};
use std::alloc::Global;

/// The end of a statement.
pub fn ending(reader: &mut Reader<'_>) -> Result<(), GiveUp>
    ensures { IfOk result (λ nothing. Passes nonterminals.Ending reader.old reader.new) }
{
    match reader.seen {
        Terminal::CloseBrace | Terminal::TextEnd => Ok(()),
        Terminal::Semicolon => {
            take_token(reader, Terminal::Semicolon)?;
            Ok(())
        }
        _ => {
            take_token(reader, Terminal::LineEnd)?;
            Ok(())
        }
    }
}

fn lines(reader: &mut Reader<'_>) -> Result<(), GiveUp>
    ensures { IfOk result (λ nothing. Passes nonterminals.Lines reader.old reader.new) }
{
    'more: for _ in 0..reader.rest.len() {
        if !is_at(reader, Terminal::LineEnd) {
            return Ok(());
        }
        take_token(reader, Terminal::LineEnd)?;
    }
    Err(GiveUp)
}

fn condition(alloc: Global, reader: &mut Reader<'_>, room: usize) -> Result<Expr, GiveUp>
    ensures { IfOk result (λ e. Reads (nonterminal_symbol nonterminals.Condition) reader.old (formula (formula_of e)) reader.new) }
{
    take_token(reader, Terminal::Open)?;
    let e = expression(alloc, reader, room)?;
    take_token(reader, Terminal::Close)?;
    Ok(e)
}

/// An assignment or a CALL without a label.
fn simple_item(alloc: Global, reader: &mut Reader<'_>, room: usize) -> Result<RatStmt, GiveUp>
    ensures { IfOk result (λ s. Reads (nonterminal_symbol nonterminals.Item) reader.old (stated s) reader.new) }
{
    let (place, act) = simple(alloc, reader, room)?;
    ending(reader)?;
    Ok(unmarked(place, RatKind::Plain(act)))
}

/// A statement with its label. So many statements may still stand inside one another.
#[cycle(statement)]
pub fn item(alloc: Global, reader: &mut Reader<'_>, room: usize) -> Result<RatStmt, GiveUp>
    ensures { IfOk result (λ s. Reads (nonterminal_symbol nonterminals.Item) reader.old (stated s) reader.new) }
{
    match reader.seen {
        Terminal::Name | Terminal::FieldWord | Terminal::Call => simple_item(alloc, reader, room),
        Terminal::Octal | Terminal::Number => {
            let label = number_of(number_token(reader)?);
            let (place, kind) = bare(alloc, reader, room)?;
            Ok(marked(label, place, kind))
        }
        Terminal::Type | Terminal::Double => {
            let (place, kind) = typed(alloc, reader)?;
            Ok(unmarked(place, kind))
        }
        _ => {
            let (place, kind) = untyped(alloc, reader, room)?;
            Ok(unmarked(place, kind))
        }
    }
}

/// A statement behind its label.
#[cycle(statement)]
pub fn bare(alloc: Global, reader: &mut Reader<'_>, room: usize) -> Result<(Place, RatKind), GiveUp>
    ensures { IfOk result (λ s. Reads (nonterminal_symbol nonterminals.Bare) reader.old (unlabelled s.0 s.1) reader.new) }
{
    match reader.seen {
        Terminal::Type | Terminal::Double => typed(alloc, reader),
        _ => Ok(untyped(alloc, reader, room)?),
    }
}

fn typed(alloc: Global, reader: &mut Reader<'_>) -> Result<(Place, RatKind), GiveUp>
    ensures { IfOk result (λ s. Reads (nonterminal_symbol nonterminals.Bare) reader.old (unlabelled s.0 s.1) reader.new) }
{
    let word = type_token(reader)?;
    let list = declared_list(alloc, reader)?;
    ending(reader)?;
    Ok(declaring(word, list))
}

/// A statement that begins with no type.
#[cycle(statement)]
pub fn untyped(
    alloc: Global,
    reader: &mut Reader<'_>,
    room: usize,
) -> Result<(Place, RatKind), GiveUp>
    ensures { IfOk result (λ s. Reads (nonterminal_symbol nonterminals.Untyped) reader.old (unlabelled s.0 s.1) reader.new) }
{
    match reader.seen {
        Terminal::Semicolon => Ok((
            take_token(reader, Terminal::Semicolon)?.place,
            RatKind::Empty,
        )),
        Terminal::OpenBrace => block(alloc, reader, room),
        Terminal::If => conditional(alloc, reader, room),
        Terminal::While => while_loop(alloc, reader, room),
        Terminal::For => for_loop(alloc, reader, room),
        Terminal::Repeat => repeat_loop(alloc, reader, room),
        Terminal::Do => do_loop(alloc, reader, room),
        Terminal::Switch => switch(alloc, reader, room),
        Terminal::Leave => leave(reader),
        Terminal::Return => return_from(alloc, reader, room),
        _ => {
            let (place, kind) = plain(alloc, reader, room)?;
            ending(reader)?;
            Ok((place, RatKind::Plain(kind)))
        }
    }
}

/// The statement of a control statement, with line ends before it.
#[cycle(statement)]
fn statement(alloc: Global, reader: &mut Reader<'_>, room: usize) -> Result<Box<RatStmt>, GiveUp>
    ensures { IfOk result (λ s. Reads (nonterminal_symbol nonterminals.Statement) reader.old (stated s.value) reader.new) }
{
    let Some(room) = room.checked_sub(1) else {
        return Err(GiveUp);
    };
    'more: for _ in 0..reader.rest.len() {
        if !is_at(reader, Terminal::LineEnd) {
            let statement = item(alloc, reader, room)?;
            return Ok(Box::new(alloc, statement)?);
        }
        take_token(reader, Terminal::LineEnd)?;
    }
    Err(GiveUp)
}

/// Statements up to a brace or the next clause.
#[cycle(statement)]
fn statements(alloc: Global, reader: &mut Reader<'_>, room: usize) -> Result<List<RatStmt>, GiveUp>
    ensures { IfOk result (λ list. Gives nonterminals.Statements as_statements reader.old (commands list.items) reader.new) }
{
    let Some(room) = room.checked_sub(1) else {
        return Err(GiveUp);
    };
    let mut list = Vec::new(alloc);
    'more: for _ in 0..reader.rest.len() {
        match reader.seen {
            Terminal::CloseBrace | Terminal::Case | Terminal::Default => return Ok(list),
            Terminal::LineEnd => {
                take_token(reader, Terminal::LineEnd)?;
            }
            _ => list.push(item(alloc, reader, room)?)?,
        }
    }
    Err(GiveUp)
}

#[cycle(statement)]
fn block(alloc: Global, reader: &mut Reader<'_>, room: usize) -> Result<(Place, RatKind), GiveUp>
    ensures { IfOk result (λ s. Reads (nonterminal_symbol nonterminals.Untyped) reader.old (unlabelled s.0 s.1) reader.new) }
{
    open_production(reader, Production::Braces);
    let place = take_token(reader, Terminal::OpenBrace)?.place;
    let list = statements(alloc, reader, room)?;
    take_token(reader, Terminal::CloseBrace)?;
    close_production(reader, Production::Braces);
    Ok(control::block(place, list))
}

#[cycle(statement)]
fn conditional(
    alloc: Global,
    reader: &mut Reader<'_>,
    room: usize,
) -> Result<(Place, RatKind), GiveUp>
    ensures { IfOk result (λ s. Reads (nonterminal_symbol nonterminals.Untyped) reader.old (unlabelled s.0 s.1) reader.new) }
{
    open_production(reader, Production::IfStatement);
    let place = take_token(reader, Terminal::If)?.place;
    let test = condition(alloc, reader, room)?;
    let body = statement(alloc, reader, room)?;
    let other = else_part(alloc, reader, room)?;
    close_production(reader, Production::IfStatement);
    Ok(choose(place, test, body, other))
}

#[cycle(statement)]
fn else_part(
    alloc: Global,
    reader: &mut Reader<'_>,
    room: usize,
) -> Result<Option<Box<RatStmt>>, GiveUp>
    ensures { IfOk result (λ s. Gives nonterminals.ElsePart command_if_any reader.old (boxed_command s) reader.new) }
{
    'more: for _ in 0..reader.rest.len() {
        match reader.seen {
            Terminal::LineEnd => {
                take_token(reader, Terminal::LineEnd)?;
            }
            Terminal::Else => {
                take_token(reader, Terminal::Else)?;
                return Ok(Some(statement(alloc, reader, room)?));
            }
            _ => {
                return if is_predicted(reader, Nonterminal::ElsePart, Production::NoElse) {
                    Ok(None)
                } else {
                    Err(GiveUp)
                };
            }
        }
    }
    Err(GiveUp)
}

#[cycle(statement)]
fn while_loop(
    alloc: Global,
    reader: &mut Reader<'_>,
    room: usize,
) -> Result<(Place, RatKind), GiveUp>
    ensures { IfOk result (λ s. Reads (nonterminal_symbol nonterminals.Untyped) reader.old (unlabelled s.0 s.1) reader.new) }
{
    open_production(reader, Production::WhileStatement);
    let place = take_token(reader, Terminal::While)?.place;
    let test = condition(alloc, reader, room)?;
    let body = statement(alloc, reader, room)?;
    close_production(reader, Production::WhileStatement);
    Ok((place, RatKind::While(test, body)))
}

fn part(alloc: Global, reader: &mut Reader<'_>, room: usize) -> Result<Option<StmtKind>, GiveUp>
    ensures { IfOk result (λ a. Gives nonterminals.Part act_part reader.old (act_if_any a) reader.new) }
{
    match reader.seen {
        Terminal::Name | Terminal::FieldWord | Terminal::Call => Ok(Some(
            simple(alloc, reader, room)?.1,
        )),
        Terminal::Close | Terminal::Semicolon => Ok(None),
        _ => Err(GiveUp),
    }
}

fn test_part(alloc: Global, reader: &mut Reader<'_>, room: usize) -> Result<Option<Expr>, GiveUp>
    ensures { IfOk result (λ e. Gives nonterminals.Test formula_part reader.old (formula_if_any e) reader.new) }
{
    match reader.seen {
        Terminal::Semicolon => Ok(None),
        _ => Ok(Some(expression(alloc, reader, room)?)),
    }
}

#[cycle(statement)]
fn for_loop(alloc: Global, reader: &mut Reader<'_>, room: usize) -> Result<(Place, RatKind), GiveUp>
    ensures { IfOk result (λ s. Reads (nonterminal_symbol nonterminals.Untyped) reader.old (unlabelled s.0 s.1) reader.new) }
{
    open_production(reader, Production::ForStatement);
    let place = take_token(reader, Terminal::For)?.place;
    take_token(reader, Terminal::Open)?;
    let first = part(alloc, reader, room)?;
    take_token(reader, Terminal::Semicolon)?;
    let test = test_part(alloc, reader, room)?;
    take_token(reader, Terminal::Semicolon)?;
    let step = part(alloc, reader, room)?;
    take_token(reader, Terminal::Close)?;
    let body = statement(alloc, reader, room)?;
    close_production(reader, Production::ForStatement);
    let head = Box::new(alloc, ForHead { first, test, step })?;
    Ok((place, RatKind::For(head, body)))
}

fn until_part(
    alloc: Global,
    reader: &mut Reader<'_>,
    room: usize,
) -> Result<Option<(Expr, Place)>, GiveUp>
    ensures { IfOk result (λ u. Gives nonterminals.UntilPart until_in reader.old (until_of u) reader.new) }
{
    'more: for _ in 0..reader.rest.len() {
        match reader.seen {
            Terminal::LineEnd => {
                take_token(reader, Terminal::LineEnd)?;
            }
            Terminal::Until => {
                let place = take_token(reader, Terminal::Until)?.place;
                let test = condition(alloc, reader, room)?;
                ending(reader)?;
                return Ok(Some((test, place)));
            }
            _ => {
                return if is_predicted(reader, Nonterminal::UntilPart, Production::NoUntil) {
                    Ok(None)
                } else {
                    Err(GiveUp)
                };
            }
        }
    }
    Err(GiveUp)
}

#[cycle(statement)]
fn repeat_loop(
    alloc: Global,
    reader: &mut Reader<'_>,
    room: usize,
) -> Result<(Place, RatKind), GiveUp>
    ensures { IfOk result (λ s. Reads (nonterminal_symbol nonterminals.Untyped) reader.old (unlabelled s.0 s.1) reader.new) }
{
    open_production(reader, Production::RepeatStatement);
    let place = take_token(reader, Terminal::Repeat)?.place;
    let body = statement(alloc, reader, room)?;
    let until = until_part(alloc, reader, room)?;
    close_production(reader, Production::RepeatStatement);
    Ok(repeat(place, body, until))
}

#[cycle(statement)]
fn do_loop(alloc: Global, reader: &mut Reader<'_>, room: usize) -> Result<(Place, RatKind), GiveUp>
    ensures { IfOk result (λ s. Reads (nonterminal_symbol nonterminals.Untyped) reader.old (unlabelled s.0 s.1) reader.new) }
{
    open_production(reader, Production::DoStatement);
    let place = take_token(reader, Terminal::Do)?.place;
    let variable = name_of(name_token(reader)?)?;
    take_token(reader, Terminal::Assign)?;
    let range = do_range(reader)?;
    let body = statement(alloc, reader, room)?;
    close_production(reader, Production::DoStatement);
    Ok(count(alloc, place, variable, range, body)?)
}

#[cycle(statement)]
fn switch(alloc: Global, reader: &mut Reader<'_>, room: usize) -> Result<(Place, RatKind), GiveUp>
    ensures { IfOk result (λ s. Reads (nonterminal_symbol nonterminals.Untyped) reader.old (unlabelled s.0 s.1) reader.new) }
{
    open_production(reader, Production::SwitchStatement);
    let place = take_token(reader, Terminal::Switch)?.place;
    let test = condition(alloc, reader, room)?;
    lines(reader)?;
    take_token(reader, Terminal::OpenBrace)?;
    lines(reader)?;
    let list = clauses(alloc, reader, room)?;
    take_token(reader, Terminal::CloseBrace)?;
    close_production(reader, Production::SwitchStatement);
    Ok(switch_by(place, test, list))
}

#[cycle(statement)]
fn clauses(alloc: Global, reader: &mut Reader<'_>, room: usize) -> Result<List<RatCase>, GiveUp>
    ensures { IfOk result (λ list. Gives nonterminals.Clauses as_clauses reader.old (clauses_of list.items) reader.new) }
{
    let mut list = Vec::new(alloc);
    'more: for _ in 0..reader.rest.len() {
        match reader.seen {
            Terminal::Case | Terminal::Default => list.push(clause(alloc, reader, room)?)?,
            Terminal::CloseBrace => return Ok(list),
            _ => return Err(GiveUp),
        }
    }
    Err(GiveUp)
}

#[cycle(statement)]
fn clause(alloc: Global, reader: &mut Reader<'_>, room: usize) -> Result<RatCase, GiveUp>
    ensures { IfOk result (λ c. Reads (nonterminal_symbol nonterminals.Clause) reader.old (clause_value (clause_then c)) reader.new) }
{
    if is_at(reader, Terminal::Case) {
        return case(alloc, reader, room);
    }
    let place = take_token(reader, Terminal::Default)?.place;
    take_token(reader, Terminal::Colon)?;
    let body = statements(alloc, reader, room)?;
    Ok(untested(alloc, body, place))
}

#[cycle(statement)]
fn case(alloc: Global, reader: &mut Reader<'_>, room: usize) -> Result<RatCase, GiveUp>
    ensures { IfOk result (λ c. Reads (nonterminal_symbol nonterminals.Clause) reader.old (clause_value (clause_then c)) reader.new) }
{
    let place = take_token(reader, Terminal::Case)?.place;
    let mut tests = Vec::new(alloc);
    tests.push(expression(alloc, reader, room)?)?;
    'more: for _ in 0..reader.rest.len() {
        if !is_at(reader, Terminal::Comma) {
            take_token(reader, Terminal::Colon)?;
            let body = statements(alloc, reader, room)?;
            return Ok(tested(tests, body, place));
        }
        take_token(reader, Terminal::Comma)?;
        tests.push(expression(alloc, reader, room)?)?;
    }
    Err(GiveUp)
}

fn leave(reader: &mut Reader<'_>) -> Result<(Place, RatKind), GiveUp>
    ensures { IfOk result (λ s. Reads (nonterminal_symbol nonterminals.Untyped) reader.old (unlabelled s.0 s.1) reader.new) }
{
    let word = take_token(reader, Terminal::Leave)?;
    let count = leave_count(reader)?;
    ending(reader)?;
    Ok(leaving(word, count))
}

fn leave_count(reader: &mut Reader<'_>) -> Result<u32, GiveUp>
    ensures { IfOk result (λ n. Gives nonterminals.Count count_or_one reader.old n reader.new) }
{
    match reader.seen {
        Terminal::Octal | Terminal::Number => Ok(number_of(number_token(reader)?)),
        Terminal::Semicolon | Terminal::LineEnd | Terminal::CloseBrace | Terminal::TextEnd => Ok(1),
        _ => Err(GiveUp),
    }
}

fn return_from(
    alloc: Global,
    reader: &mut Reader<'_>,
    room: usize,
) -> Result<(Place, RatKind), GiveUp>
    ensures { IfOk result (λ s. Reads (nonterminal_symbol nonterminals.Untyped) reader.old (unlabelled s.0 s.1) reader.new) }
{
    let place = take_token(reader, Terminal::Return)?.place;
    let value = outcome(alloc, reader, room)?;
    ending(reader)?;
    Ok((place, RatKind::Return(value)))
}

fn outcome(alloc: Global, reader: &mut Reader<'_>, room: usize) -> Result<Option<Expr>, GiveUp>
    ensures { IfOk result (λ e. Gives nonterminals.Outcome formula_part reader.old (formula_if_any e) reader.new) }
{
    if !is_at(reader, Terminal::Open) {
        return Ok(None);
    }
    Ok(Some(condition(alloc, reader, room)?))
}
