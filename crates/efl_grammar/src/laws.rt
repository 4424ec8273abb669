// The laws of the published grammar. The functions do nothing: their contracts are the laws.
ghost use Rattle.efl_grammar.specs.Laws.{AnswersArePublished, DeclaredPartsArePublished, ExpressionsArePublished, ProgramsArePublished};

/// The table's expressions are those of the published grammar, with the same trees.
pub fn expressions_are_published()
    ensures { ExpressionsArePublished }
{}

/// The table's types, lists of variables and presets are those of the published grammar, with the same trees.
pub fn declared_parts_are_published()
    ensures { DeclaredPartsArePublished }
{}

/// The table's programs are those of the published grammar, with the same trees.
pub fn programs_are_published()
    ensures { ProgramsArePublished }
{}

/// What the table accepts, and where it first fails, is what the published grammar says: its one tree, or Syntax at the first token
/// after which no tokens make a program of it.
pub fn answers_are_published()
    ensures { AnswersArePublished }
{}
