// The law of what the tokens of a text give of its tree. The function does nothing: its contract is the law.
ghost use Rattle.efl_written.specs.Laws.{GrammarIsWritten};

/// Where each number of the tokens is in its range, each word is a name, and each quoted text has characters that a card may have, the
/// tree that the published grammar of EFL derives from them has such numbers, names and texts alone.
pub fn grammar_is_written()
    ensures { GrammarIsWritten }
{}
