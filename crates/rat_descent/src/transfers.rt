// What READ and WRITE go over.

ghost use Rattle.std.specs.Prelude.{◌≡◌, IfOk, map};
ghost use Rattle.grammar.specs.declared.language.Symbol.TheVariants.{Nonterminal as nonterminal_symbol};
ghost use Rattle.f66_tree.specs.Syntax.{Many};
ghost use Rattle.f66_tree.specs.Views.{entry_of, entries_of};
ghost use Rattle.rat_parse_table.specs.declared.table.Nonterminal.TheVariants as nonterminals;
ghost use Rattle.rat_parse_values.specs.Values.{entry as entry_value, range_of};
ghost use Rattle.rat_parse_values.specs.Parts.{as_entries};
ghost use Rattle.rat_descent.specs.Reading.{Reads, Gives};

use crate::declarations::do_range;
use crate::expressions::{reference, subscripts};
use crate::reader::{Reader, close_production, is_at, is_predicted, open_production, take_token};
use crate::tokens::{name_of, name_token};
use descent::GiveUp;
use f66_tree::{Entry, Expr, Name, applied};
use ground::List;
use rat_parse_table::{Nonterminal, Production, Terminal};
use rat_parse_values::Range;
use std::alloc::Global;

fn many(list: List<Entry>, variable: Name, range: Range) -> Entry
    ensures { entry_of result ≡ Many (entries_of list.items) variable (range_of range).first (range_of range).last (range_of range).step }
{
    let Range { first, last, step } = range;
    Entry::Many(list, variable, first, last, step)
}

/// An element or a variable, or an implied DO. So many of these may still stand inside one another.
#[cycle(entry)]
fn entry(alloc: Global, reader: &mut Reader<'_>, room: usize) -> Result<Entry, GiveUp>
    ensures { IfOk result (λ e. Reads (nonterminal_symbol nonterminals.Entry) reader.old (entry_value (entry_of e)) reader.new) }
{
    if is_at(reader, Terminal::Open) {
        return Ok(looped(alloc, reader, room)?);
    }
    let (_, e) = reference(alloc, reader, room)?;
    Ok(Entry::Item(e))
}

/// An implied DO.
#[cycle(entry)]
fn looped(alloc: Global, reader: &mut Reader<'_>, room: usize) -> Result<Entry, GiveUp>
    ensures { IfOk result (λ e. Reads (nonterminal_symbol nonterminals.Loop) reader.old (entry_value (entry_of e)) reader.new) }
{
    let Some(room) = room.checked_sub(1) else {
        return Err(GiveUp);
    };
    take_token(reader, Terminal::Open)?;
    let first = entry(alloc, reader, room)?;
    take_token(reader, Terminal::Comma)?;
    let mut list = Vec::new(alloc);
    list.push(first)?;
    'more: for _ in 0..reader.rest.len() {
        if is_at(reader, Terminal::Open) {
            list.push(looped(alloc, reader, room)?)?;
        } else {
            let name = name_of(name_token(reader)?)?;
            match reader.seen {
                Terminal::Assign => {
                    take_token(reader, Terminal::Assign)?;
                    let range = do_range(reader)?;
                    take_token(reader, Terminal::Close)?;
                    return Ok(many(list, name, range));
                }
                Terminal::Open => {
                    open_production(reader, Production::Element);
                    let all = subscripts(alloc, reader, room)?;
                    close_production(reader, Production::Element);
                    list.push(Entry::Item(applied(name, all)?))?;
                }
                _ => list.push(Entry::Item(Expr::Ref(name)))?,
            }
        }
        take_token(reader, Terminal::Comma)?;
    }
    Err(GiveUp)
}

/// The entries of a READ or a WRITE.
pub fn entries(alloc: Global, reader: &mut Reader<'_>, room: usize) -> Result<List<Entry>, GiveUp>
    ensures { IfOk result (λ list. Gives nonterminals.Entries as_entries reader.old (map entry_of list.items) reader.new) }
{
    let mut list = Vec::new(alloc);
    if is_predicted(reader, Nonterminal::Entries, Production::NoEntries) {
        return Ok(list);
    }
    list.push(entry(alloc, reader, room)?)?;
    'more: for _ in 0..reader.rest.len() {
        if !is_at(reader, Terminal::Comma) {
            return Ok(list);
        }
        take_token(reader, Terminal::Comma)?;
        list.push(entry(alloc, reader, room)?)?;
    }
    Err(GiveUp)
}
