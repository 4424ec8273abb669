// What specifications declare, and the parameters of statements.

ghost use Rattle.std.specs.Prelude.{◌≡◌, IfOk, map};
ghost use Rattle.grammar.specs.declared.language.Symbol.TheVariants.{Nonterminal as nonterminal_symbol};
ghost use Rattle.f66_tree.specs.Views.{par_of, declared_of, area_of};
ghost use Rattle.rat_parse_table.specs.declared.table.Nonterminal.TheVariants as nonterminals;
ghost use Rattle.rat_parse_values.specs.Values.{names, par, range, range_of, declared as declared_value, declareds, area as area_value};
ghost use Rattle.rat_parse_values.specs.Parts.{as_pars, as_areas, name_if_any, step_or_one};
ghost use Rattle.rat_descent.specs.Reading.{Reads, Gives};
ghost use Rattle.rat_descent.specs.Lists.{Areas};

use crate::reader::{Reader, is_at, take_token};
use crate::tokens::{name_of, name_token, number_token};
use descent::GiveUp;
use f66_tree::{Area, Declared, Name, Par};
use ground::List;
use rat_parse_table::Terminal;
use rat_parse_values::{Range, integer_of_kind};
use std::alloc::Global;

/// Names in parentheses.
pub fn formals(alloc: Global, reader: &mut Reader<'_>) -> Result<List<Name>, GiveUp>
    ensures { IfOk result (λ list. Reads (nonterminal_symbol nonterminals.FormalList) reader.old (names list.items) reader.new) }
{
    take_token(reader, Terminal::Open)?;
    let mut list = Vec::new(alloc);
    list.push(name_of(name_token(reader)?)?)?;
    'more: for _ in 0..reader.rest.len() {
        if !is_at(reader, Terminal::Comma) {
            take_token(reader, Terminal::Close)?;
            return Ok(list);
        }
        take_token(reader, Terminal::Comma)?;
        list.push(name_of(name_token(reader)?)?)?;
    }
    Err(GiveUp)
}

/// A constant or a variable.
pub fn parameter(reader: &mut Reader<'_>) -> Result<Par, GiveUp>
    ensures { IfOk result (λ p. Reads (nonterminal_symbol nonterminals.Par) reader.old (par (par_of p)) reader.new) }
{
    match reader.seen {
        Terminal::Octal | Terminal::Number => Ok(Par::Number(integer_of_kind(
            &number_token(reader)?.kind,
        ))),
        _ => Ok(Par::Variable(name_of(name_token(reader)?)?)),
    }
}

fn step(reader: &mut Reader<'_>) -> Result<Par, GiveUp>
    ensures { IfOk result (λ p. Gives nonterminals.StepPart step_or_one reader.old (par_of p) reader.new) }
{
    if !is_at(reader, Terminal::Comma) {
        return Ok(Par::Number(1));
    }
    take_token(reader, Terminal::Comma)?;
    Ok(parameter(reader)?)
}

/// The parameters of a DO.
pub fn do_range(reader: &mut Reader<'_>) -> Result<Range, GiveUp>
    ensures { IfOk result (λ r. Reads (nonterminal_symbol nonterminals.Range) reader.old (range (range_of r)) reader.new) }
{
    let first = parameter(reader)?;
    take_token(reader, Terminal::Comma)?;
    let last = parameter(reader)?;
    let step = step(reader)?;
    Ok(Range { first, last, step })
}

fn sizes(alloc: Global, reader: &mut Reader<'_>) -> Result<List<Par>, GiveUp>
    ensures { IfOk result (λ list. Gives nonterminals.Sizes as_pars reader.old (map par_of list.items) reader.new) }
{
    let mut list = Vec::new(alloc);
    if !is_at(reader, Terminal::Open) {
        return Ok(list);
    }
    take_token(reader, Terminal::Open)?;
    list.push(parameter(reader)?)?;
    'more: for _ in 0..reader.rest.len() {
        if !is_at(reader, Terminal::Comma) {
            take_token(reader, Terminal::Close)?;
            return Ok(list);
        }
        take_token(reader, Terminal::Comma)?;
        list.push(parameter(reader)?)?;
    }
    Err(GiveUp)
}

fn declared(alloc: Global, reader: &mut Reader<'_>) -> Result<Declared, GiveUp>
    ensures { IfOk result (λ d. Reads (nonterminal_symbol nonterminals.Declared) reader.old (declared_value (declared_of d)) reader.new) }
{
    let name = name_of(name_token(reader)?)?;
    let sizes = sizes(alloc, reader)?;
    Ok(Declared { name, sizes })
}

/// Names with their dimensions.
pub fn declared_list(alloc: Global, reader: &mut Reader<'_>) -> Result<List<Declared>, GiveUp>
    ensures { IfOk result (λ list. Reads (nonterminal_symbol nonterminals.DeclaredList) reader.old (declareds (map declared_of list.items)) reader.new) }
{
    let mut list = Vec::new(alloc);
    list.push(declared(alloc, reader)?)?;
    'more: for _ in 0..reader.rest.len() {
        if !is_at(reader, Terminal::Comma) {
            return Ok(list);
        }
        take_token(reader, Terminal::Comma)?;
        list.push(declared(alloc, reader)?)?;
    }
    Err(GiveUp)
}

fn area_name(reader: &mut Reader<'_>) -> Result<Option<Name>, GiveUp>
    ensures { IfOk result (λ name. Gives nonterminals.AreaName name_if_any reader.old name reader.new) }
{
    match reader.seen {
        Terminal::Slash => Ok(None),
        _ => Ok(Some(name_of(name_token(reader)?)?)),
    }
}

fn area(alloc: Global, reader: &mut Reader<'_>) -> Result<Area, GiveUp>
    ensures { IfOk result (λ a. Reads (nonterminal_symbol nonterminals.Area) reader.old (area_value (area_of a)) reader.new) }
{
    take_token(reader, Terminal::Slash)?;
    let name = area_name(reader)?;
    take_token(reader, Terminal::Slash)?;
    let list = declared_list(alloc, reader)?;
    Ok(Area { name, list })
}

fn first_area(alloc: Global, reader: &mut Reader<'_>) -> Result<Area, GiveUp>
    ensures { IfOk result (λ a. Reads (nonterminal_symbol nonterminals.FirstArea) reader.old (area_value (area_of a)) reader.new) }
{
    if is_at(reader, Terminal::Slash) {
        return Ok(area(alloc, reader)?);
    }
    let list = declared_list(alloc, reader)?;
    Ok(Area { name: None, list })
}

/// The areas of a COMMON.
pub fn areas(alloc: Global, reader: &mut Reader<'_>) -> Result<List<Area>, GiveUp>
    ensures { IfOk result (λ list. Areas reader.old (map area_of list.items) reader.new) }
{
    let mut list = Vec::new(alloc);
    list.push(first_area(alloc, reader)?)?;
    'more: for _ in 0..reader.rest.len() {
        if !is_at(reader, Terminal::Slash) {
            return Ok(list);
        }
        list.push(area(alloc, reader)?)?;
    }
    Err(GiveUp)
}
