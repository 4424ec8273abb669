// A text of Ratfor on its way through the descent.

ghost use Rattle.std.specs.Prelude.{◌≡◌, IfOk, IsTrue, Some};
ghost use denote.Enum.Bare.{sameb};
ghost use Rattle.rat_parse_table.specs.contracts.table.Terminal.{the_type as terminal_type};
ghost use Rattle.grammar.specs.declared.language.Symbol.TheVariants.{Terminal as terminal_symbol};
ghost use Rattle.rat_parse_table.specs.ParseTable.{predict_at};
ghost use Rattle.rat_parse_values.specs.Values.{tok};
ghost use Rattle.rat_descent.specs.Reading.{Reads, opened, closed};

use crate::language::Ratfor;
use descent::{GiveUp, close, open, take};
use ground::Token;
use rat_parse_table::{Counts, Nonterminal, Production, Terminal, predict};

pub type Reader<'a> = descent::Reader<'a, Terminal, Counts>;

/// Whether the next token is this terminal.
pub fn is_at(reader: &Reader<'_>, terminal: Terminal) -> bool
    ensures { result ≡ sameb terminal_type terminal reader.now.seen }
{
    terminal == reader.seen
}

/// Takes the next token, which is this terminal.
pub fn take_token<'a>(reader: &mut Reader<'a>, terminal: Terminal) -> Result<&'a Token, GiveUp>
    ensures { IfOk result (λ token. Reads (terminal_symbol terminal) reader.old (tok token.now) reader.new) }
{
    take::<Ratfor>(reader, terminal)
}

/// Counts that a production opens.
pub fn open_production(reader: &mut Reader<'_>, production: Production)
    ensures { reader.new ≡ opened production reader.old }
{
    open::<Ratfor>(reader, production);
}

/// Counts that a production closes.
pub fn close_production(reader: &mut Reader<'_>, production: Production)
    ensures { reader.new ≡ closed production reader.old }
{
    close::<Ratfor>(reader, production);
}

/// Whether the table has this production at the next token.
pub fn is_predicted(reader: &Reader<'_>, nonterminal: Nonterminal, production: Production) -> bool
    ensures { IsTrue result → predict_at nonterminal reader.now.seen ≡ Some production }
{
    match predict(nonterminal, reader.seen) {
        Some(found) => found == production,
        None => false,
    }
}
