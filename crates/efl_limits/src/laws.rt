// The laws of the parser's limits. The functions do nothing: their contracts are the laws.
ghost use Rattle.efl_limits.specs.Laws.{GrammarHasLittleStorage, GrammarIsShort, ParsedHasFewLabels, ParsedHasFewProcedures, ParsedIsSmall};

/// The labels of each unit of a program that the parser accepts fit five digits.
pub fn parsed_has_few_labels()
    ensures { ParsedHasFewLabels }
{}

/// A program that the parser accepts, of no more tokens than a text may have, has names enough for its parts.
pub fn parsed_is_small()
    ensures { ParsedIsSmall }
{}

/// A program that the published grammar derives from no more tokens than a text may have needs little storage.
pub fn grammar_has_little_storage()
    ensures { GrammarHasLittleStorage }
{}

/// A program that the parser accepts has at most 500 procedures.
pub fn parsed_has_few_procedures()
    ensures { ParsedHasFewProcedures }
{}

/// The deck of a program that the published grammar derives from no more tokens than a text may have is short.
pub fn grammar_is_short()
    ensures { GrammarIsShort }
{}
