// What EQUIVALENCE and DATA list.

ghost use Rattle.std.specs.Prelude.{◌≡◌, IfOk, map};
ghost use Rattle.grammar.specs.declared.language.Symbol.TheVariants.{Nonterminal as nonterminal_symbol};
ghost use Rattle.f66_tree.specs.Views.{formula_of, preset_of, initial_of};
ghost use Rattle.rat_parse_table.specs.declared.table.Nonterminal.TheVariants as nonterminals;
ghost use Rattle.rat_parse_values.specs.Values.{formula, formulas, datum, preset as preset_value};
ghost use Rattle.rat_descent.specs.Reading.{Reads, Gives, Formed};
ghost use Rattle.rat_descent.specs.Lists.{Groups, Places, Initials, Presets};

use crate::expressions::{reference, signed};
use crate::reader::{Reader, is_at, take_token};
use crate::tokens::{letter_at, number_of, number_token};
use descent::GiveUp;
use f66_tree::{Expr, PresetPart};
use ground::List;
use rat_parse_table::Terminal;
use rat_parse_values::{integer_of_kind, is_true, sign_of_kind};
use std::alloc::Global;

/// Names that share storage, in parentheses: two at least.
fn group(alloc: Global, reader: &mut Reader<'_>, room: usize) -> Result<List<Expr>, GiveUp>
    ensures { IfOk result (λ list. Reads (nonterminal_symbol nonterminals.Alias) reader.old (formulas (map formula_of list.items)) reader.new) }
{
    take_token(reader, Terminal::Open)?;
    let mut list = Vec::new(alloc);
    list.push(reference(alloc, reader, room)?.1)?;
    take_token(reader, Terminal::Comma)?;
    list.push(reference(alloc, reader, room)?.1)?;
    'more: for _ in 0..reader.rest.len() {
        if !is_at(reader, Terminal::Comma) {
            take_token(reader, Terminal::Close)?;
            return Ok(list);
        }
        take_token(reader, Terminal::Comma)?;
        list.push(reference(alloc, reader, room)?.1)?;
    }
    Err(GiveUp)
}

/// The groups of an EQUIVALENCE.
pub fn groups(
    alloc: Global,
    reader: &mut Reader<'_>,
    room: usize,
) -> Result<List<List<Expr>>, GiveUp>
    ensures { IfOk result (λ list. Groups reader.old (map (λ g. map formula_of g.items) list.items) reader.new) }
{
    let mut list = Vec::new(alloc);
    list.push(group(alloc, reader, room)?)?;
    'more: for _ in 0..reader.rest.len() {
        if !is_at(reader, Terminal::Comma) {
            return Ok(list);
        }
        take_token(reader, Terminal::Comma)?;
        list.push(group(alloc, reader, room)?)?;
    }
    Err(GiveUp)
}

/// A constant of DATA that begins with no number.
fn unnumbered(alloc: Global, reader: &mut Reader<'_>) -> Result<Expr, GiveUp>
    ensures { IfOk result (λ e. Reads (nonterminal_symbol nonterminals.Unnumbered) reader.old (formula (formula_of e)) reader.new) }
{
    match reader.seen {
        Terminal::Truth => {
            let token = take_token(reader, Terminal::Truth)?;
            Ok(Expr::Truth(is_true(sign_of_kind(&token.kind))))
        }
        Terminal::Letter => {
            let token = take_token(reader, Terminal::Letter)?;
            Ok(Expr::Letter(letter_at(token)))
        }
        _ => {
            let sign = take_token(reader, Terminal::Adding)?;
            let number = number_token(reader)?;
            Ok(signed(alloc, sign, Expr::Int(integer_of_kind(&number.kind)))?)
        }
    }
}

fn constant(alloc: Global, reader: &mut Reader<'_>) -> Result<Expr, GiveUp>
    ensures { IfOk result (λ e. Reads (nonterminal_symbol nonterminals.Constant) reader.old (formula (formula_of e)) reader.new) }
{
    match reader.seen {
        Terminal::Octal | Terminal::Number => {
            let token = number_token(reader)?;
            Ok(Expr::Int(integer_of_kind(&token.kind)))
        }
        _ => Ok(unnumbered(alloc, reader)?),
    }
}

/// A constant with its count.
fn value(alloc: Global, reader: &mut Reader<'_>) -> Result<(u32, Expr), GiveUp>
    ensures { IfOk result (λ d. Reads (nonterminal_symbol nonterminals.Datum) reader.old (datum d.0 (formula_of d.1)) reader.new) }
{
    match reader.seen {
        Terminal::Octal | Terminal::Number => {
            let number = number_token(reader)?;
            if !is_at(reader, Terminal::Star) {
                return Ok((1, Expr::Int(integer_of_kind(&number.kind))));
            }
            take_token(reader, Terminal::Star)?;
            let e = constant(alloc, reader)?;
            Ok((number_of(number), e))
        }
        _ => {
            let e = unnumbered(alloc, reader)?;
            Ok((1, e))
        }
    }
}

/// The places of a part of a DATA.
fn places(alloc: Global, reader: &mut Reader<'_>, room: usize) -> Result<List<Expr>, GiveUp>
    ensures { IfOk result (λ list. Places reader.old (map formula_of list.items) reader.new) }
{
    let mut list = Vec::new(alloc);
    list.push(reference(alloc, reader, room)?.1)?;
    'more: for _ in 0..reader.rest.len() {
        if !is_at(reader, Terminal::Comma) {
            return Ok(list);
        }
        take_token(reader, Terminal::Comma)?;
        list.push(reference(alloc, reader, room)?.1)?;
    }
    Err(GiveUp)
}

/// The values of a part of a DATA.
fn values(alloc: Global, reader: &mut Reader<'_>) -> Result<List<(u32, Expr)>, GiveUp>
    ensures { IfOk result (λ list. Initials reader.old (map initial_of list.items) reader.new) }
{
    let mut list = Vec::new(alloc);
    list.push(value(alloc, reader)?)?;
    'more: for _ in 0..reader.rest.len() {
        if !is_at(reader, Terminal::Comma) {
            return Ok(list);
        }
        take_token(reader, Terminal::Comma)?;
        list.push(value(alloc, reader)?)?;
    }
    Err(GiveUp)
}

/// Places with their values.
fn preset(alloc: Global, reader: &mut Reader<'_>, room: usize) -> Result<PresetPart, GiveUp>
    ensures { IfOk result (λ p. Reads (nonterminal_symbol nonterminals.Preset) reader.old (preset_value (preset_of p)) reader.new) }
{
    let places = places(alloc, reader, room)?;
    take_token(reader, Terminal::Slash)?;
    let values = values(alloc, reader)?;
    take_token(reader, Terminal::Slash)?;
    Ok(PresetPart { places, values })
}

/// The parts of a DATA.
pub fn presets(
    alloc: Global,
    reader: &mut Reader<'_>,
    room: usize,
) -> Result<List<PresetPart>, GiveUp>
    ensures { IfOk result (λ list. Presets reader.old (map preset_of list.items) reader.new) }
{
    let mut list = Vec::new(alloc);
    list.push(preset(alloc, reader, room)?)?;
    'more: for _ in 0..reader.rest.len() {
        if !is_at(reader, Terminal::Comma) {
            return Ok(list);
        }
        take_token(reader, Terminal::Comma)?;
        list.push(preset(alloc, reader, room)?)?;
    }
    Err(GiveUp)
}
