// Statements of FORTRAN.

ghost use Rattle.std.specs.Prelude.{◌≡◌, IfOk, map};
ghost use Rattle.grammar.specs.declared.language.Symbol.TheVariants.{Nonterminal as nonterminal_symbol};
ghost use Rattle.f66_tree.specs.Views.{formula_of, act_of, par_of, entries_of};
ghost use Rattle.rat_parse_table.specs.declared.table.Nonterminal.TheVariants as nonterminals;
ghost use Rattle.rat_parse_values.specs.Values.{deed, tok};
ghost use Rattle.rat_parse_values.specs.Parts.{as_act, as_exprs, octal_if_any};
ghost use Rattle.rat_parse_values.specs.Plain.{transfer as transferred};
ghost use Rattle.rat_descent.specs.Reading.{Reads, Gives, Formed};

use crate::aliases::{groups, presets};
use crate::declarations::{areas, declared_list, parameter};
use crate::expressions::{expression, read_reference, unread};
use crate::formats::fields;
use crate::reader::{Reader, is_at, take_token};
use crate::tokens::{is_read, letter_at, name_of, name_token, number_of, number_token};
use crate::transfers::entries;
use descent::GiveUp;
use f66_tree::{Entry, Expr, Par, StmtKind};
use ground::{List, Place, Token};
use rat_parse_table::Terminal;
use rat_parse_values::octal_of_kind;
use std::alloc::Global;

/// An argument of a call.
fn actual(alloc: Global, reader: &mut Reader<'_>, room: usize) -> Result<Expr, GiveUp>
    ensures { IfOk result (λ e. Formed nonterminals.Actual reader.old (formula_of e) reader.new) }
{
    if is_at(reader, Terminal::Letter) {
        return Ok(Expr::Letter(letter_at(take_token(reader, Terminal::Letter)?)));
    }
    Ok(expression(alloc, reader, room)?)
}

fn actuals(alloc: Global, reader: &mut Reader<'_>, room: usize) -> Result<List<Expr>, GiveUp>
    ensures { IfOk result (λ list. Gives nonterminals.Actuals as_exprs reader.old (map formula_of list.items) reader.new) }
{
    let mut list = Vec::new(alloc);
    if !is_at(reader, Terminal::Open) {
        return Ok(list);
    }
    take_token(reader, Terminal::Open)?;
    list.push(actual(alloc, reader, room)?)?;
    'more: for _ in 0..reader.rest.len() {
        if !is_at(reader, Terminal::Comma) {
            take_token(reader, Terminal::Close)?;
            return Ok(list);
        }
        take_token(reader, Terminal::Comma)?;
        list.push(actual(alloc, reader, room)?)?;
    }
    Err(GiveUp)
}

fn assignment(
    alloc: Global,
    reader: &mut Reader<'_>,
    room: usize,
) -> Result<(Place, StmtKind), GiveUp>
    ensures { IfOk result (λ s. Reads (nonterminal_symbol nonterminals.Simple) reader.old (deed s.0 (act_of s.1)) reader.new) }
{
    let mut left = unread();
    let place = read_reference(alloc, reader, room, &mut left)?;
    take_token(reader, Terminal::Assign)?;
    let right = expression(alloc, reader, room)?;
    Ok((place, StmtKind::Assign(left, right)))
}

fn invocation(
    alloc: Global,
    reader: &mut Reader<'_>,
    room: usize,
) -> Result<(Place, StmtKind), GiveUp>
    ensures { IfOk result (λ s. Reads (nonterminal_symbol nonterminals.Simple) reader.old (deed s.0 (act_of s.1)) reader.new) }
{
    let place = take_token(reader, Terminal::Call)?.place;
    let name = name_of(name_token(reader)?)?;
    let list = actuals(alloc, reader, room)?;
    Ok((place, StmtKind::Invoke(name, list)))
}

/// An assignment or a CALL, with its place.
pub fn simple(
    alloc: Global,
    reader: &mut Reader<'_>,
    room: usize,
) -> Result<(Place, StmtKind), GiveUp>
    ensures { IfOk result (λ s. Reads (nonterminal_symbol nonterminals.Simple) reader.old (deed s.0 (act_of s.1)) reader.new) }
{
    if is_at(reader, Terminal::Call) {
        invocation(alloc, reader, room)
    } else {
        assignment(alloc, reader, room)
    }
}

fn go_token<'a>(reader: &mut Reader<'a>) -> Result<&'a Token, GiveUp>
    ensures { IfOk result (λ token. Reads (nonterminal_symbol nonterminals.GoWords) reader.old (tok token.now) reader.new) }
{
    if is_at(reader, Terminal::Goto) {
        return Ok(take_token(reader, Terminal::Goto)?);
    }
    let token = take_token(reader, Terminal::Go)?;
    take_token(reader, Terminal::To)?;
    Ok(token)
}

/// Labels in parentheses, and the index that chooses one of them.
fn computed(alloc: Global, reader: &mut Reader<'_>) -> Result<StmtKind, GiveUp>
    ensures { IfOk result (λ s. Gives nonterminals.Target as_act reader.old (act_of s) reader.new) }
{
    take_token(reader, Terminal::Open)?;
    let mut list = Vec::new(alloc);
    list.push(number_of(number_token(reader)?))?;
    'more: for _ in 0..reader.rest.len() {
        if !is_at(reader, Terminal::Comma) {
            take_token(reader, Terminal::Close)?;
            take_token(reader, Terminal::Comma)?;
            let index = name_of(name_token(reader)?)?;
            return Ok(StmtKind::Computed(list, index));
        }
        take_token(reader, Terminal::Comma)?;
        list.push(number_of(number_token(reader)?))?;
    }
    Err(GiveUp)
}

fn target(alloc: Global, reader: &mut Reader<'_>) -> Result<StmtKind, GiveUp>
    ensures { IfOk result (λ s. Gives nonterminals.Target as_act reader.old (act_of s) reader.new) }
{
    if is_at(reader, Terminal::Open) {
        return computed(alloc, reader);
    }
    let label = number_of(number_token(reader)?);
    Ok(StmtKind::Goto(label))
}

fn go(alloc: Global, reader: &mut Reader<'_>) -> Result<(Place, StmtKind), GiveUp>
    ensures { IfOk result (λ s. Reads (nonterminal_symbol nonterminals.Plain) reader.old (deed s.0 (act_of s.1)) reader.new) }
{
    let place = go_token(reader)?.place;
    let kind = target(alloc, reader)?;
    Ok((place, kind))
}

fn stop_number(reader: &mut Reader<'_>) -> Result<Option<u16>, GiveUp>
    ensures { IfOk result (λ n. Gives nonterminals.StopNumber octal_if_any reader.old n reader.new) }
{
    if !is_at(reader, Terminal::Octal) {
        return Ok(None);
    }
    let token = take_token(reader, Terminal::Octal)?;
    Ok(Some(octal_of_kind(&token.kind)))
}

fn stop(reader: &mut Reader<'_>) -> Result<(Place, StmtKind), GiveUp>
    ensures { IfOk result (λ s. Reads (nonterminal_symbol nonterminals.Plain) reader.old (deed s.0 (act_of s.1)) reader.new) }
{
    let place = take_token(reader, Terminal::Stop)?.place;
    let number = stop_number(reader)?;
    Ok((place, StmtKind::Stop(number)))
}

/// READ or WRITE, by its word.
fn transfer_kind(word: &Token, unit: Par, format: u32, list: List<Entry>) -> StmtKind
    ensures { act_of result ≡ transferred (tok word.now) (par_of unit) format (entries_of list.items) }
{
    if is_read(word) {
        StmtKind::Read(unit, format, list)
    } else {
        StmtKind::Write(unit, format, list)
    }
}

fn transfer(
    alloc: Global,
    reader: &mut Reader<'_>,
    room: usize,
) -> Result<(Place, StmtKind), GiveUp>
    ensures { IfOk result (λ s. Reads (nonterminal_symbol nonterminals.Plain) reader.old (deed s.0 (act_of s.1)) reader.new) }
{
    let word = take_token(reader, Terminal::Transfer)?;
    take_token(reader, Terminal::Open)?;
    let unit = parameter(reader)?;
    take_token(reader, Terminal::Comma)?;
    let format = number_of(number_token(reader)?);
    take_token(reader, Terminal::Close)?;
    let list = entries(alloc, reader, room)?;
    Ok((word.place, transfer_kind(word, unit, format, list)))
}

fn format(alloc: Global, reader: &mut Reader<'_>, room: usize) -> Result<(Place, StmtKind), GiveUp>
    ensures { IfOk result (λ s. Reads (nonterminal_symbol nonterminals.Plain) reader.old (deed s.0 (act_of s.1)) reader.new) }
{
    let place = take_token(reader, Terminal::Format)?.place;
    take_token(reader, Terminal::Open)?;
    let list = fields(alloc, reader, room)?;
    take_token(reader, Terminal::Close)?;
    Ok((place, StmtKind::Format(list)))
}

fn specification(
    alloc: Global,
    reader: &mut Reader<'_>,
    room: usize,
) -> Result<(Place, StmtKind), GiveUp>
    ensures { IfOk result (λ s. Reads (nonterminal_symbol nonterminals.Plain) reader.old (deed s.0 (act_of s.1)) reader.new) }
{
    match reader.seen {
        Terminal::Dimension => {
            let place = take_token(reader, Terminal::Dimension)?.place;
            let list = declared_list(alloc, reader)?;
            Ok((place, StmtKind::Dimension(list)))
        }
        Terminal::Common => {
            let place = take_token(reader, Terminal::Common)?.place;
            let list = areas(alloc, reader)?;
            Ok((place, StmtKind::Common(list)))
        }
        Terminal::Equivalence => {
            let place = take_token(reader, Terminal::Equivalence)?.place;
            let list = groups(alloc, reader, room)?;
            Ok((place, StmtKind::Equivalence(list)))
        }
        _ => {
            let place = take_token(reader, Terminal::Data)?.place;
            let list = presets(alloc, reader, room)?;
            Ok((place, StmtKind::Preset(list)))
        }
    }
}

/// A statement of FORTRAN, with its place.
pub fn plain(
    alloc: Global,
    reader: &mut Reader<'_>,
    room: usize,
) -> Result<(Place, StmtKind), GiveUp>
    ensures { IfOk result (λ s. Reads (nonterminal_symbol nonterminals.Plain) reader.old (deed s.0 (act_of s.1)) reader.new) }
{
    match reader.seen {
        Terminal::Name | Terminal::FieldWord | Terminal::Call => Ok(simple(alloc, reader, room)?),
        Terminal::Go | Terminal::Goto => go(alloc, reader),
        Terminal::Continue => {
            let place = take_token(reader, Terminal::Continue)?.place;
            Ok((place, StmtKind::Continue))
        }
        Terminal::Stop => stop(reader),
        Terminal::Transfer => transfer(alloc, reader, room),
        Terminal::Format => format(alloc, reader, room),
        _ => specification(alloc, reader, room),
    }
}
