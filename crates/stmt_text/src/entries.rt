// The texts of READ and WRITE.
ghost use Rattle.std.specs.Prelude.{◌≡◌, ◌++◌, ◌∷◌, decimal, map};
ghost use Rattle.f66_tree.specs.Syntax.{Many, Read, Write};
ghost use Rattle.f66_tree.specs.Views.{entry_of, listed, par_of};
ghost use Rattle.stmt_text.specs.Emitting.{Emits};
ghost use Rattle.stmt_text.specs.Characters.{comma, closing};
ghost use Rattle.stmt_text.specs.Texts.{act_text, entries_text, entry_text, par_text};

use crate::expressions::push_formula;
use crate::lists::{push_loop, push_par};
use crate::writer::{StatementText, push, push_all, push_number};
use f66_tree::{Entry, Name, Par};

/// Adds a READ.
pub fn push_read(out: &mut StatementText, unit: &Par, format: u32, list: &[Entry]) -> Option<()>
    ensures { Emits result out.old.items out.new.items (act_text (Read (par_of unit.now) format (listed (map entry_of list.now)))) }
{
    push_all(out, b"READ(")?;
    push_transfer(out, unit, format, list)
}

/// Adds a WRITE.
pub fn push_write(out: &mut StatementText, unit: &Par, format: u32, list: &[Entry]) -> Option<()>
    ensures { Emits result out.old.items out.new.items (act_text (Write (par_of unit.now) format (listed (map entry_of list.now)))) }
{
    push_all(out, b"WRITE(")?;
    push_transfer(out, unit, format, list)
}

/// The unit, the format and the list of a READ or WRITE.
fn push_transfer(out: &mut StatementText, unit: &Par, format: u32, list: &[Entry]) -> Option<()>
    ensures { Emits result out.old.items out.new.items (λ k. par_text (par_of unit.now) (comma ∷ decimal format ++ closing ∷ entries_text (listed (map entry_of list.now)) k)) }
{
    push_par(out, unit)?;
    push(out, b',')?;
    push_number(out, u64::from(format))?;
    push(out, b')')?;
    push_entries(out, list)
}

/// A list, with commas between its entries.
#[cycle(entries)]
fn push_entries(out: &mut StatementText, list: &[Entry]) -> Option<()>
    ensures { Emits result out.old.items out.new.items (entries_text (listed (map entry_of list.now))) }
{
    for (i, entry) in list.iter().enumerate() {
        if i > 0 {
            push(out, b',')?;
        }
        push_entry(out, entry)?;
    }
    Some(())
}

#[cycle(entries)]
fn push_entry(out: &mut StatementText, entry: &Entry) -> Option<()>
    ensures { Emits result out.old.items out.new.items (entry_text (entry_of entry.now)) }
{
    match entry {
        Entry::Item(e) => push_formula(out, e),
        Entry::Many(list, variable, first, last, step) => {
            push_many(out, list, variable, first, last, step)
        }
    }
}

/// An implied DO.
#[cycle(entries)]
fn push_many(
    out: &mut StatementText,
    list: &[Entry],
    variable: &Name,
    first: &Par,
    last: &Par,
    step: &Par,
) -> Option<()>
    ensures { Emits result out.old.items out.new.items (entry_text (Many (listed (map entry_of list.now)) variable.now (par_of first.now) (par_of last.now) (par_of step.now))) }
{
    push(out, b'(')?;
    push_entries(out, list)?;
    push(out, b',')?;
    push_loop(out, variable, first, last, step)?;
    push(out, b')')
}
