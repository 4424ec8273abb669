// Programs and their units.

ghost use Rattle.std.specs.Prelude.{◌≡◌, [], ◌∷◌, IfOk, map};
ghost use Rattle.grammar.specs.declared.language.Symbol.TheVariants.{Nonterminal as nonterminal_symbol};
ghost use Rattle.f66_tree.specs.Views.{header_of};
ghost use Rattle.rat_tree.specs.Syntax.{AndCommand};
ghost use Rattle.rat_tree.specs.Views.{command, commands, rat_routine_of};
ghost use Rattle.rat_parse_table.specs.declared.table.Nonterminal.TheVariants as nonterminals;
ghost use Rattle.rat_parse_values.specs.Values.{heading, routine};
ghost use Rattle.rat_parse_values.specs.Parts.{as_names, as_statements, as_units};
ghost use Rattle.rat_parse_values.specs.Statements.{main};
ghost use Rattle.rat_descent.specs.Reading.{Reads, Gives};
ghost use Rattle.rat_descent.specs.Statements.{before};

use crate::declarations::{declared_list, formals};
use crate::reader::{Reader, close_production, is_at, open_production, take_token};
use crate::statements::{bare, ending, item, untyped};
use crate::tokens::{name_of, name_token, number_of, number_token, type_at, type_token};
use descent::GiveUp;
use f66_tree::{Header, Name, StmtKind};
use ground::{List, Place};
use rat_parse_table::{Production, Terminal};
use rat_tree::{RatKind, RatStmt, RatUnit};
use std::alloc::{AllocError, Global};

fn formals_if_any(alloc: Global, reader: &mut Reader<'_>) -> Result<List<Name>, GiveUp>
    ensures { IfOk result (λ list. Gives nonterminals.Formals as_names reader.old list.items reader.new) }
{
    if !is_at(reader, Terminal::Open) {
        return Ok(Vec::new(alloc));
    }
    Ok(formals(alloc, reader)?)
}

fn subroutine(alloc: Global, reader: &mut Reader<'_>) -> Result<(Place, Header), GiveUp>
    ensures { IfOk result (λ h. Reads (nonterminal_symbol nonterminals.Header) reader.old (heading h.0 (header_of h.1)) reader.new) }
{
    let place = take_token(reader, Terminal::Subroutine)?.place;
    let name = name_of(name_token(reader)?)?;
    let list = formals_if_any(alloc, reader)?;
    Ok((place, Header::Sub(name, list)))
}

fn header(alloc: Global, reader: &mut Reader<'_>) -> Result<(Place, Header), GiveUp>
    ensures { IfOk result (λ h. Reads (nonterminal_symbol nonterminals.Header) reader.old (heading h.0 (header_of h.1)) reader.new) }
{
    if is_at(reader, Terminal::Subroutine) {
        return Ok(subroutine(alloc, reader)?);
    }
    if is_at(reader, Terminal::Block) {
        let place = take_token(reader, Terminal::Block)?.place;
        take_token(reader, Terminal::Data)?;
        return Ok((place, Header::Block));
    }
    let place = take_token(reader, Terminal::Function)?.place;
    let name = name_of(name_token(reader)?)?;
    let list = formals(alloc, reader)?;
    Ok((place, Header::Func(None, name, list)))
}

/// The statements of a unit behind some of them, and its END.
fn body(
    alloc: Global,
    reader: &mut Reader<'_>,
    mut list: Vec<RatStmt>,
) -> Result<List<RatStmt>, GiveUp>
    ensures { IfOk result (λ all. Gives nonterminals.Body (λ v. before list.items (as_statements v)) reader.old (commands all.items) reader.new) }
{
    'more: for _ in 0..reader.rest.len() {
        match reader.seen {
            Terminal::End => {
                take_token(reader, Terminal::End)?;
                ending(reader)?;
                return Ok(list);
            }
            Terminal::LineEnd => {
                take_token(reader, Terminal::LineEnd)?;
            }
            _ => list.push(item(alloc, reader, ROOM)?)?,
        }
    }
    Err(GiveUp)
}

/// How deep statements and parentheses may nest: one more than the limit of a text.
const ROOM: usize = 101;

fn headed(alloc: Global, reader: &mut Reader<'_>) -> Result<RatUnit, GiveUp>
    ensures { IfOk result (λ u. Reads (nonterminal_symbol nonterminals.UnitText) reader.old (routine (rat_routine_of u)) reader.new) }
{
    let (place, header) = header(alloc, reader)?;
    ending(reader)?;
    let body = body(alloc, reader, Vec::new(alloc))?;
    Ok(RatUnit {
        header,
        body,
        place,
    })
}

fn one_statement(alloc: Global, statement: RatStmt) -> Result<Vec<RatStmt>, AllocError>
    ensures { IfOk result (λ list. list.items ≡ statement ∷ []) }
{
    let mut list = Vec::new(alloc);
    list.push(statement)?;
    Ok(list)
}

/// A main at this place that begins with this statement.
fn main_from(
    alloc: Global,
    reader: &mut Reader<'_>,
    place: Place,
    first: RatStmt,
) -> Result<RatUnit, GiveUp>
    ensures { IfOk result (λ u. Gives nonterminals.Body (λ v. main place (AndCommand (command first) (as_statements v))) reader.old (rat_routine_of u) reader.new) }
{
    let list = one_statement(alloc, first)?;
    let body = body(alloc, reader, list)?;
    Ok(RatUnit {
        header: Header::Main,
        body,
        place,
    })
}

/// A unit that begins with a type: a function, or a main.
fn typed_unit(alloc: Global, reader: &mut Reader<'_>) -> Result<RatUnit, GiveUp>
    ensures { IfOk result (λ u. Reads (nonterminal_symbol nonterminals.UnitText) reader.old (routine (rat_routine_of u)) reader.new) }
{
    let token = type_token(reader)?;
    let place = token.place;
    let word = type_at(token);
    if is_at(reader, Terminal::Function) {
        take_token(reader, Terminal::Function)?;
        let name = name_of(name_token(reader)?)?;
        let list = formals(alloc, reader)?;
        ending(reader)?;
        let body = body(alloc, reader, Vec::new(alloc))?;
        let header = Header::Func(Some(word), name, list);
        return Ok(RatUnit {
            header,
            body,
            place,
        });
    }
    let list = declared_list(alloc, reader)?;
    ending(reader)?;
    let label = None;
    let kind = RatKind::Plain(StmtKind::Typed(word, list));
    Ok(main_from(alloc, reader, place, RatStmt { label, place, kind })?)
}

/// A main whose first statement has a label.
fn marked_main(alloc: Global, reader: &mut Reader<'_>) -> Result<RatUnit, GiveUp>
    ensures { IfOk result (λ u. Reads (nonterminal_symbol nonterminals.UnitText) reader.old (routine (rat_routine_of u)) reader.new) }
{
    let token = number_token(reader)?;
    let label = Some(number_of(token));
    let (place, kind) = bare(alloc, reader, ROOM)?;
    let first = RatStmt { label, place, kind };
    Ok(main_from(alloc, reader, token.place, first)?)
}

/// A main whose first statement has neither a label nor a type.
fn plain_main(alloc: Global, reader: &mut Reader<'_>) -> Result<RatUnit, GiveUp>
    ensures { IfOk result (λ u. Reads (nonterminal_symbol nonterminals.UnitText) reader.old (routine (rat_routine_of u)) reader.new) }
{
    let label = None;
    let (place, kind) = untyped(alloc, reader, ROOM)?;
    Ok(main_from(alloc, reader, place, RatStmt { label, place, kind })?)
}

fn empty_main(alloc: Global, reader: &mut Reader<'_>) -> Result<RatUnit, GiveUp>
    ensures { IfOk result (λ u. Reads (nonterminal_symbol nonterminals.UnitText) reader.old (routine (rat_routine_of u)) reader.new) }
{
    let place = take_token(reader, Terminal::End)?.place;
    ending(reader)?;
    Ok(RatUnit {
        header: Header::Main,
        body: Vec::new(alloc),
        place,
    })
}

fn unit_text(alloc: Global, reader: &mut Reader<'_>) -> Result<RatUnit, GiveUp>
    ensures { IfOk result (λ u. Reads (nonterminal_symbol nonterminals.UnitText) reader.old (routine (rat_routine_of u)) reader.new) }
{
    match reader.seen {
        Terminal::Subroutine | Terminal::Function | Terminal::Block => headed(alloc, reader),
        Terminal::Type | Terminal::Double => typed_unit(alloc, reader),
        Terminal::Octal | Terminal::Number => marked_main(alloc, reader),
        Terminal::End => empty_main(alloc, reader),
        _ => plain_main(alloc, reader),
    }
}

fn unit(alloc: Global, reader: &mut Reader<'_>) -> Result<RatUnit, GiveUp>
    ensures { IfOk result (λ u. Reads (nonterminal_symbol nonterminals.Unit) reader.old (routine (rat_routine_of u)) reader.new) }
{
    open_production(reader, Production::OneUnit);
    let unit = unit_text(alloc, reader)?;
    close_production(reader, Production::OneUnit);
    Ok(unit)
}

/// The units of a text.
pub fn units(alloc: Global, reader: &mut Reader<'_>) -> Result<List<RatUnit>, GiveUp>
    ensures { IfOk result (λ list. Gives nonterminals.Units as_units reader.old (map rat_routine_of list.items) reader.new) }
{
    let mut list = Vec::new(alloc);
    'more: for _ in 0..reader.rest.len() {
        match reader.seen {
            Terminal::TextEnd => return Ok(list),
            Terminal::LineEnd => {
                take_token(reader, Terminal::LineEnd)?;
            }
            _ => list.push(unit(alloc, reader)?)?,
        }
    }
    Err(GiveUp)
}
