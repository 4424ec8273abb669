// A text on its way through a descent.

ghost use Rattle.std.specs.Prelude.{◌≡◌, IfOk};
ghost use Rattle.grammar.specs.declared.language.Symbol.TheVariants.{Terminal};
ghost use Rattle.grammar.specs.declared.language.Event.TheVariants.{Open, Close};
ghost use Rattle.descent.specs.Reading.{Reads, Begun, Ends, with_meters};

use crate::tables::Tables;
use grammar::Event;
use ground::Token;
use std::alloc::{AllocError, AllocFailed};

/// The tokens from the next one on, what the grammar sees of it, and the meters before it.
#[derive(Drop)]
pub struct Reader<'a, T, M> {
    pub rest: &'a [Token],
    pub seen: T,
    pub meters: M,
}

/// A descent goes no further. It says nothing of the text, which may be faulty, or of memory, which may be full.
#[derive(Debug)]
pub struct GiveUp;

impl From<AllocError> for GiveUp {
    fn from(_: AllocError) -> Self {
        Self
    }
}

impl<T: Drop> From<AllocFailed<T>> for GiveUp {
    fn from(failed: AllocFailed<T>) -> Self {
        drop(failed);
        Self
    }
}

/// A reader before the first token of a text.
pub fn begin<L: Tables>(
    tokens: &[Token],
    meters: L::Meters,
) -> Result<Reader<'_, L::Terminal, L::Meters>, GiveUp>
    ensures { IfOk result (λ reader. Begun L.grammar tokens.now meters reader) }
{
    let [next, ..] = tokens else {
        return Err(GiveUp);
    };
    Ok(Reader {
        rest: tokens,
        seen: L::terminal_of(next),
        meters,
    })
}

/// Takes the next token, which is this terminal, where it passes no limit and is not the last.
pub fn take<'a, L: Tables>(
    reader: &mut Reader<'a, L::Terminal, L::Meters>,
    terminal: L::Terminal,
) -> Result<&'a Token, GiveUp>
    ensures { IfOk result (λ token. Reads L.grammar L.certificate L.meter (Terminal terminal) reader.old (L.grammar.value token.now) reader.new) }
{
    let [token, rest @ ..] = reader.rest else {
        return Err(GiveUp);
    };
    let [next, ..] = rest else {
        return Err(GiveUp);
    };
    if !L::same_terminal(reader.seen, terminal) {
        return Err(GiveUp);
    }
    let meters = L::next_meters(reader.meters, Event::Take(terminal));
    if L::passed(meters).is_some() {
        return Err(GiveUp);
    }
    reader.meters = meters;
    reader.seen = L::terminal_of(next);
    reader.rest = rest;
    Ok(token)
}

/// Counts that a production opens.
pub fn open<L: Tables>(reader: &mut Reader<'_, L::Terminal, L::Meters>, production: L::Production)
    ensures { reader.new ≡ with_meters reader.old (L.meter.next (Open production) reader.old.meters) }
{
    reader.meters = L::next_meters(reader.meters, Event::Open(production));
}

/// Counts that a production closes.
pub fn close<L: Tables>(reader: &mut Reader<'_, L::Terminal, L::Meters>, production: L::Production)
    ensures { reader.new ≡ with_meters reader.old (L.meter.next (Close production) reader.old.meters) }
{
    reader.meters = L::next_meters(reader.meters, Event::Close(production));
}

/// The last token of a text, where it is this terminal and passes no limit.
pub fn last<'a, L: Tables>(
    reader: &Reader<'a, L::Terminal, L::Meters>,
    terminal: L::Terminal,
) -> Result<&'a Token, GiveUp>
    ensures { IfOk result (λ token. Ends L.grammar L.meter terminal reader.now token.now) }
{
    let [token] = reader.rest else {
        return Err(GiveUp);
    };
    if !L::same_terminal(L::terminal_of(token), terminal)
        || L::passed(L::next_meters(reader.meters, Event::Take(terminal))).is_some()
    {
        return Err(GiveUp);
    }
    Ok(token)
}
