// The printed deck of units.
ghost use Rattle.std.specs.Prelude.{◌≡◌, ◌≤◌, ◌++◌, None, OnOk, OnErr, IfErr, map};
ghost use Rattle.std.specs.List.{All, flat_map};
ghost use Rattle.f66_tree.specs.Views.{header_of, line_of, lines_of, routine_of};
ghost use Rattle.deck.specs.Decks.{HasCardLabel, HasCardLabels, deck_of, header_cards, statement_cards, unit_cards};
ghost use Rattle.deck.specs.Fronts.{Begins};
ghost use Rattle.deck.specs.LongTexts.{Refuses, fault_of_deck, fault_of_header, fault_of_line, fault_of_unit, first_fault, limit_nine};

use card_writer::cards_of;
use f66_tree::{Header, Stmt, Unit};
use ground::{Fault, Place, Refusal};
use stmt_text::{StatementText, header_text, write_statement};

/// An END line (X3.9-1966, section 3.2.2).
const END_LINE: &[u8] = b"      END\n";

/// The number of the limit on the characters of a statement's text.
const TEXT_LIMIT: u64 = 9;

/// Adds the printed deck of units, unless a text of theirs passes twenty cards.
pub fn write_deck(units: &[Unit], out: &mut Vec<u8>) -> Result<(), Refusal>
    requires labels { All HasCardLabels units.now }
    ensures written { OnOk result (out.new.items ≡ out.old.items ++ deck_of (map routine_of units.now)) }
    ensures fits { OnOk result (fault_of_deck (map routine_of units.now) ≡ None) }
    ensures refused { IfErr result (Refuses (fault_of_deck (map routine_of units.now))) }
    ensures unchanged { OnErr result (out.new.items ≡ out.old.items) }
{
    let size = out.len();
    let pushed = push_units(units, out);
    if pushed.is_err() {
        out.truncate(size);
    }
    pushed
}

fn push_units(units: &[Unit], out: &mut Vec<u8>) -> Result<(), Refusal>
    requires labels { All HasCardLabels units.now }
    ensures written { OnOk result (out.new.items ≡ out.old.items ++ deck_of (map routine_of units.now)) }
    ensures fits { OnOk result (fault_of_deck (map routine_of units.now) ≡ None) }
    ensures refused { IfErr result (Refuses (fault_of_deck (map routine_of units.now))) }
    ensures begun { OnErr result (Begins out.old.items out.new.items) }
{
    for unit in units {
        push_unit(unit, out)?;
    }
    Ok(())
}

/// Adds the cards of one unit, unless a text of its passes twenty cards.
pub fn push_unit(unit: &Unit, out: &mut Vec<u8>) -> Result<(), Refusal>
    requires labels { HasCardLabels unit.now }
    ensures written { OnOk result (out.new.items ≡ out.old.items ++ unit_cards (routine_of unit.now)) }
    ensures fits { OnOk result (fault_of_unit (routine_of unit.now) ≡ None) }
    ensures refused { IfErr result (Refuses (fault_of_unit (routine_of unit.now))) }
    ensures begun { OnErr result (Begins out.old.items out.new.items) }
{
    push_header(&unit.header, unit.place, out)?;
    push_statements(&unit.statements, &mut StatementText::new(), out)?;
    out.extend_from_slice(END_LINE)?;
    Ok(())
}

fn push_header(header: &Header, place: Place, out: &mut Vec<u8>) -> Result<(), Refusal>
    ensures written { OnOk result (out.new.items ≡ out.old.items ++ header_cards (header_of header.now)) }
    ensures fits { OnOk result (fault_of_header place (header_of header.now) ≡ None) }
    ensures refused { IfErr result (Refuses (fault_of_header place (header_of header.now))) }
    ensures unchanged { OnErr result (out.new.items ≡ out.old.items) }
{
    if let Header::Main = header {
        return Ok(());
    }
    let Some(text) = header_text(header) else {
        return Err(too_long(place));
    };
    cards_of(0, &text, out)?;
    Ok(())
}

fn push_statements(
    statements: &[Stmt],
    text: &mut StatementText,
    out: &mut Vec<u8>,
) -> Result<(), Refusal>
    requires labels { All HasCardLabel statements.now }
    ensures written { OnOk result (out.new.items ≡ out.old.items ++ flat_map statement_cards (lines_of statements.now)) }
    ensures fits { OnOk result (first_fault fault_of_line (lines_of statements.now) ≡ None) }
    ensures refused { IfErr result (Refuses (first_fault fault_of_line (lines_of statements.now))) }
    ensures begun { OnErr result (Begins out.old.items out.new.items) }
{
    for statement in statements {
        push_one(statement, text, out)?;
    }
    Ok(())
}

/// Adds the cards of one statement, whose text takes the place of another's.
fn push_one(statement: &Stmt, text: &mut StatementText, out: &mut Vec<u8>) -> Result<(), Refusal>
    requires label { HasCardLabel statement.now }
    ensures written { OnOk result (out.new.items ≡ out.old.items ++ statement_cards (line_of statement.now)) }
    ensures fits { OnOk result (fault_of_line (line_of statement.now) ≡ None) }
    ensures refused { IfErr result (Refuses (fault_of_line (line_of statement.now))) }
    ensures unchanged { OnErr result (out.new.items ≡ out.old.items) }
{
    if write_statement(text, &statement.kind).is_none() {
        return Err(too_long(statement.place));
    }
    cards_of(statement.label.unwrap_or(0), text, out)?;
    Ok(())
}

fn too_long(place: Place) -> Refusal
    ensures { Refuses (limit_nine place) result }
{
    Refusal::Fault(Fault::limit(place, TEXT_LIMIT))
}
