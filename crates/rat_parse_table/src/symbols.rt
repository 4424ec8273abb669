// The symbols of each production. tools/grammar_tables.py writes it from ratfor.grammar.

ghost use Rattle.std.specs.Prelude.{◌≡◌, slice_get};
ghost use Rattle.rat_parse_table.specs.Table.{symbols, all_symbols, symbol_starts};

use crate::table::{Nonterminal, Production, Terminal};
use grammar::{Symbol, row};

/// The symbol at a place of a production.
pub fn symbol_at(production: Production, place: usize) -> Option<Symbol<Terminal, Nonterminal>>
    ensures { result ≡ slice_get (symbols production) place }
{
    symbols_of(production).get(place).copied()
}

#[tactic(auto, using(crate::proofs::TableLemmas::symbols_stand, crate::proofs::TableLemmas::symbols_found))]
fn symbols_of(production: Production) -> &'static [Symbol<Terminal, Nonterminal>]
    ensures { result.now ≡ symbols production }
{
    row(all(), starts(), production as usize)
}

fn all() -> &'static [Symbol<Terminal, Nonterminal>]
    ensures { result.now ≡ all_symbols }
{
    &SYMBOLS
}

fn starts() -> &'static [usize]
    ensures { result.now ≡ symbol_starts }
{
    &STARTS
}

// Where the symbols of each production begin, and where the last end.
static STARTS: [usize; 204] = [
    0, 2, 4, 6, 6, 7, 10, 14, 17, 19, 21, 24, 27, 29, 32, 33, 34, 36, 37, 37, 41, 44, 44, 46, 48,
    50, 51, 52, 52, 54, 55, 57, 59, 59, 61, 62, 65, 66, 67, 70, 74, 77, 86, 89, 94, 101, 104, 107,
    109, 112, 114, 116, 116, 118, 121, 121, 122, 122, 123, 123, 124, 124, 125, 125, 127, 127, 129,
    129, 134, 137, 138, 140, 141, 143, 150, 154, 156, 159, 162, 165, 168, 171, 172, 174, 175, 181,
    184, 184, 185, 185, 189, 189, 190, 191, 194, 194, 195, 196, 200, 202, 202, 204, 204, 205, 206,
    209, 209, 213, 216, 218, 221, 224, 226, 227, 229, 232, 232, 234, 238, 238, 241, 241, 242, 243,
    247, 248, 248, 250, 250, 256, 259, 259, 262, 262, 268, 271, 271, 273, 274, 277, 277, 279, 279,
    280, 281, 283, 284, 285, 287, 289, 289, 291, 293, 293, 295, 297, 299, 301, 303, 303, 305, 306,
    309, 310, 311, 312, 315, 317, 320, 320, 322, 325, 325, 327, 328, 330, 332, 332, 334, 336, 337,
    340, 340, 342, 345, 348, 348, 350, 352, 352, 353, 354, 355, 358, 360, 361, 361, 365, 368, 368,
    369, 370, 371, 372,
];

static SYMBOLS: [Symbol<Terminal, Nonterminal>; 372] = [
    // Whole
    Symbol::Nonterminal(Nonterminal::Units),
    Symbol::Terminal(Terminal::TextEnd),
    // BlankLine
    Symbol::Terminal(Terminal::LineEnd),
    Symbol::Nonterminal(Nonterminal::Units),
    // MoreUnits
    Symbol::Nonterminal(Nonterminal::Unit),
    Symbol::Nonterminal(Nonterminal::Units),
    // OneUnit
    Symbol::Nonterminal(Nonterminal::UnitText),
    // HeadedUnit
    Symbol::Nonterminal(Nonterminal::Header),
    Symbol::Nonterminal(Nonterminal::Ending),
    Symbol::Nonterminal(Nonterminal::Body),
    // TypedUnit
    Symbol::Nonterminal(Nonterminal::TypeWord),
    Symbol::Nonterminal(Nonterminal::TypedStart),
    Symbol::Nonterminal(Nonterminal::Ending),
    Symbol::Nonterminal(Nonterminal::Body),
    // MarkedMain
    Symbol::Nonterminal(Nonterminal::AnyNumber),
    Symbol::Nonterminal(Nonterminal::Bare),
    Symbol::Nonterminal(Nonterminal::Body),
    // PlainMain
    Symbol::Nonterminal(Nonterminal::Untyped),
    Symbol::Nonterminal(Nonterminal::Body),
    // EmptyMain
    Symbol::Terminal(Terminal::End),
    Symbol::Nonterminal(Nonterminal::Ending),
    // SubroutineHeader
    Symbol::Terminal(Terminal::Subroutine),
    Symbol::Nonterminal(Nonterminal::AnyName),
    Symbol::Nonterminal(Nonterminal::Formals),
    // FunctionHeader
    Symbol::Terminal(Terminal::Function),
    Symbol::Nonterminal(Nonterminal::AnyName),
    Symbol::Nonterminal(Nonterminal::FormalList),
    // BlockHeader
    Symbol::Terminal(Terminal::Block),
    Symbol::Terminal(Terminal::Data),
    // TypedFunction
    Symbol::Terminal(Terminal::Function),
    Symbol::Nonterminal(Nonterminal::AnyName),
    Symbol::Nonterminal(Nonterminal::FormalList),
    // TypedMain
    Symbol::Nonterminal(Nonterminal::DeclaredList),
    // OneWord
    Symbol::Terminal(Terminal::Type),
    // TwoWords
    Symbol::Terminal(Terminal::Double),
    Symbol::Terminal(Terminal::Precision),
    // SomeFormals
    Symbol::Nonterminal(Nonterminal::FormalList),
    // FormalList
    Symbol::Terminal(Terminal::Open),
    Symbol::Nonterminal(Nonterminal::AnyName),
    Symbol::Nonterminal(Nonterminal::FormalMore),
    Symbol::Terminal(Terminal::Close),
    // MoreFormal
    Symbol::Terminal(Terminal::Comma),
    Symbol::Nonterminal(Nonterminal::AnyName),
    Symbol::Nonterminal(Nonterminal::FormalMore),
    // BodyLine
    Symbol::Terminal(Terminal::LineEnd),
    Symbol::Nonterminal(Nonterminal::Body),
    // BodyMore
    Symbol::Nonterminal(Nonterminal::Item),
    Symbol::Nonterminal(Nonterminal::Body),
    // BodyEnd
    Symbol::Terminal(Terminal::End),
    Symbol::Nonterminal(Nonterminal::Ending),
    // EndingLine
    Symbol::Terminal(Terminal::LineEnd),
    // EndingSign
    Symbol::Terminal(Terminal::Semicolon),
    // StatementLine
    Symbol::Terminal(Terminal::LineEnd),
    Symbol::Nonterminal(Nonterminal::Statement),
    // StatementItem
    Symbol::Nonterminal(Nonterminal::Item),
    // StatementsLine
    Symbol::Terminal(Terminal::LineEnd),
    Symbol::Nonterminal(Nonterminal::Statements),
    // StatementsMore
    Symbol::Nonterminal(Nonterminal::Item),
    Symbol::Nonterminal(Nonterminal::Statements),
    // Marked
    Symbol::Nonterminal(Nonterminal::AnyNumber),
    Symbol::Nonterminal(Nonterminal::Bare),
    // Unmarked
    Symbol::Nonterminal(Nonterminal::Bare),
    // TypedBare
    Symbol::Nonterminal(Nonterminal::TypeWord),
    Symbol::Nonterminal(Nonterminal::DeclaredList),
    Symbol::Nonterminal(Nonterminal::Ending),
    // UntypedBare
    Symbol::Nonterminal(Nonterminal::Untyped),
    // Empty
    Symbol::Terminal(Terminal::Semicolon),
    // Braces
    Symbol::Terminal(Terminal::OpenBrace),
    Symbol::Nonterminal(Nonterminal::Statements),
    Symbol::Terminal(Terminal::CloseBrace),
    // IfStatement
    Symbol::Terminal(Terminal::If),
    Symbol::Nonterminal(Nonterminal::Condition),
    Symbol::Nonterminal(Nonterminal::Statement),
    Symbol::Nonterminal(Nonterminal::ElsePart),
    // WhileStatement
    Symbol::Terminal(Terminal::While),
    Symbol::Nonterminal(Nonterminal::Condition),
    Symbol::Nonterminal(Nonterminal::Statement),
    // ForStatement
    Symbol::Terminal(Terminal::For),
    Symbol::Terminal(Terminal::Open),
    Symbol::Nonterminal(Nonterminal::Part),
    Symbol::Terminal(Terminal::Semicolon),
    Symbol::Nonterminal(Nonterminal::Test),
    Symbol::Terminal(Terminal::Semicolon),
    Symbol::Nonterminal(Nonterminal::Part),
    Symbol::Terminal(Terminal::Close),
    Symbol::Nonterminal(Nonterminal::Statement),
    // RepeatStatement
    Symbol::Terminal(Terminal::Repeat),
    Symbol::Nonterminal(Nonterminal::Statement),
    Symbol::Nonterminal(Nonterminal::UntilPart),
    // DoStatement
    Symbol::Terminal(Terminal::Do),
    Symbol::Nonterminal(Nonterminal::AnyName),
    Symbol::Terminal(Terminal::Assign),
    Symbol::Nonterminal(Nonterminal::Range),
    Symbol::Nonterminal(Nonterminal::Statement),
    // SwitchStatement
    Symbol::Terminal(Terminal::Switch),
    Symbol::Nonterminal(Nonterminal::Condition),
    Symbol::Nonterminal(Nonterminal::Lines),
    Symbol::Terminal(Terminal::OpenBrace),
    Symbol::Nonterminal(Nonterminal::Lines),
    Symbol::Nonterminal(Nonterminal::Clauses),
    Symbol::Terminal(Terminal::CloseBrace),
    // LeaveStatement
    Symbol::Terminal(Terminal::Leave),
    Symbol::Nonterminal(Nonterminal::Count),
    Symbol::Nonterminal(Nonterminal::Ending),
    // ReturnStatement
    Symbol::Terminal(Terminal::Return),
    Symbol::Nonterminal(Nonterminal::Outcome),
    Symbol::Nonterminal(Nonterminal::Ending),
    // PlainStatement
    Symbol::Nonterminal(Nonterminal::Plain),
    Symbol::Nonterminal(Nonterminal::Ending),
    // Condition
    Symbol::Terminal(Terminal::Open),
    Symbol::Nonterminal(Nonterminal::Expr),
    Symbol::Terminal(Terminal::Close),
    // ElseLine
    Symbol::Terminal(Terminal::LineEnd),
    Symbol::Nonterminal(Nonterminal::ElsePart),
    // ElseBody
    Symbol::Terminal(Terminal::Else),
    Symbol::Nonterminal(Nonterminal::Statement),
    // UntilLine
    Symbol::Terminal(Terminal::LineEnd),
    Symbol::Nonterminal(Nonterminal::UntilPart),
    // UntilTest
    Symbol::Terminal(Terminal::Until),
    Symbol::Nonterminal(Nonterminal::Condition),
    Symbol::Nonterminal(Nonterminal::Ending),
    // SomePart
    Symbol::Nonterminal(Nonterminal::Simple),
    // SomeTest
    Symbol::Nonterminal(Nonterminal::Expr),
    // SomeCount
    Symbol::Nonterminal(Nonterminal::AnyNumber),
    // SomeOutcome
    Symbol::Nonterminal(Nonterminal::Condition),
    // OneLine
    Symbol::Terminal(Terminal::LineEnd),
    Symbol::Nonterminal(Nonterminal::Lines),
    // MoreClauses
    Symbol::Nonterminal(Nonterminal::Clause),
    Symbol::Nonterminal(Nonterminal::Clauses),
    // CaseClause
    Symbol::Terminal(Terminal::Case),
    Symbol::Nonterminal(Nonterminal::Expr),
    Symbol::Nonterminal(Nonterminal::ExprMore),
    Symbol::Terminal(Terminal::Colon),
    Symbol::Nonterminal(Nonterminal::Statements),
    // DefaultClause
    Symbol::Terminal(Terminal::Default),
    Symbol::Terminal(Terminal::Colon),
    Symbol::Nonterminal(Nonterminal::Statements),
    // SimplePlain
    Symbol::Nonterminal(Nonterminal::Simple),
    // GoPlain
    Symbol::Nonterminal(Nonterminal::GoWords),
    Symbol::Nonterminal(Nonterminal::Target),
    // ContinuePlain
    Symbol::Terminal(Terminal::Continue),
    // StopPlain
    Symbol::Terminal(Terminal::Stop),
    Symbol::Nonterminal(Nonterminal::StopNumber),
    // TransferPlain
    Symbol::Terminal(Terminal::Transfer),
    Symbol::Terminal(Terminal::Open),
    Symbol::Nonterminal(Nonterminal::Par),
    Symbol::Terminal(Terminal::Comma),
    Symbol::Nonterminal(Nonterminal::AnyNumber),
    Symbol::Terminal(Terminal::Close),
    Symbol::Nonterminal(Nonterminal::Entries),
    // FormatPlain
    Symbol::Terminal(Terminal::Format),
    Symbol::Terminal(Terminal::Open),
    Symbol::Nonterminal(Nonterminal::Fields),
    Symbol::Terminal(Terminal::Close),
    // DimensionPlain
    Symbol::Terminal(Terminal::Dimension),
    Symbol::Nonterminal(Nonterminal::DeclaredList),
    // CommonPlain
    Symbol::Terminal(Terminal::Common),
    Symbol::Nonterminal(Nonterminal::FirstArea),
    Symbol::Nonterminal(Nonterminal::AreaMore),
    // EquivalencePlain
    Symbol::Terminal(Terminal::Equivalence),
    Symbol::Nonterminal(Nonterminal::Alias),
    Symbol::Nonterminal(Nonterminal::AliasMore),
    // DataPlain
    Symbol::Terminal(Terminal::Data),
    Symbol::Nonterminal(Nonterminal::Preset),
    Symbol::Nonterminal(Nonterminal::PresetMore),
    // Assignment
    Symbol::Nonterminal(Nonterminal::Ref),
    Symbol::Terminal(Terminal::Assign),
    Symbol::Nonterminal(Nonterminal::Expr),
    // Invocation
    Symbol::Terminal(Terminal::Call),
    Symbol::Nonterminal(Nonterminal::AnyName),
    Symbol::Nonterminal(Nonterminal::Actuals),
    // GotoWord
    Symbol::Terminal(Terminal::Goto),
    // GoToWords
    Symbol::Terminal(Terminal::Go),
    Symbol::Terminal(Terminal::To),
    // OneTarget
    Symbol::Nonterminal(Nonterminal::AnyNumber),
    // ComputedTarget
    Symbol::Terminal(Terminal::Open),
    Symbol::Nonterminal(Nonterminal::AnyNumber),
    Symbol::Nonterminal(Nonterminal::NumberMore),
    Symbol::Terminal(Terminal::Close),
    Symbol::Terminal(Terminal::Comma),
    Symbol::Nonterminal(Nonterminal::AnyName),
    // MoreNumber
    Symbol::Terminal(Terminal::Comma),
    Symbol::Nonterminal(Nonterminal::AnyNumber),
    Symbol::Nonterminal(Nonterminal::NumberMore),
    // OctalStop
    Symbol::Terminal(Terminal::Octal),
    // SomeActuals
    Symbol::Terminal(Terminal::Open),
    Symbol::Nonterminal(Nonterminal::Actual),
    Symbol::Nonterminal(Nonterminal::ActualMore),
    Symbol::Terminal(Terminal::Close),
    // ExprActual
    Symbol::Nonterminal(Nonterminal::Expr),
    // LetterActual
    Symbol::Terminal(Terminal::Letter),
    // MoreActual
    Symbol::Terminal(Terminal::Comma),
    Symbol::Nonterminal(Nonterminal::Actual),
    Symbol::Nonterminal(Nonterminal::ActualMore),
    // NumberPar
    Symbol::Nonterminal(Nonterminal::AnyNumber),
    // NamePar
    Symbol::Nonterminal(Nonterminal::AnyName),
    // Range
    Symbol::Nonterminal(Nonterminal::Par),
    Symbol::Terminal(Terminal::Comma),
    Symbol::Nonterminal(Nonterminal::Par),
    Symbol::Nonterminal(Nonterminal::StepPart),
    // SomeStep
    Symbol::Terminal(Terminal::Comma),
    Symbol::Nonterminal(Nonterminal::Par),
    // SomeEntries
    Symbol::Nonterminal(Nonterminal::Entry),
    Symbol::Nonterminal(Nonterminal::EntryMore),
    // ItemEntry
    Symbol::Nonterminal(Nonterminal::Ref),
    // LoopEntry
    Symbol::Nonterminal(Nonterminal::Loop),
    // MoreEntry
    Symbol::Terminal(Terminal::Comma),
    Symbol::Nonterminal(Nonterminal::Entry),
    Symbol::Nonterminal(Nonterminal::EntryMore),
    // Loop
    Symbol::Terminal(Terminal::Open),
    Symbol::Nonterminal(Nonterminal::Entry),
    Symbol::Terminal(Terminal::Comma),
    Symbol::Nonterminal(Nonterminal::LoopRest),
    // LoopLoop
    Symbol::Nonterminal(Nonterminal::Loop),
    Symbol::Terminal(Terminal::Comma),
    Symbol::Nonterminal(Nonterminal::LoopRest),
    // LoopName
    Symbol::Nonterminal(Nonterminal::AnyName),
    Symbol::Nonterminal(Nonterminal::NameRest),
    // LoopRange
    Symbol::Terminal(Terminal::Assign),
    Symbol::Nonterminal(Nonterminal::Range),
    Symbol::Terminal(Terminal::Close),
    // LoopElement
    Symbol::Nonterminal(Nonterminal::Element),
    Symbol::Terminal(Terminal::Comma),
    Symbol::Nonterminal(Nonterminal::LoopRest),
    // LoopScalar
    Symbol::Terminal(Terminal::Comma),
    Symbol::Nonterminal(Nonterminal::LoopRest),
    // Element
    Symbol::Nonterminal(Nonterminal::Subscripts),
    // DeclaredList
    Symbol::Nonterminal(Nonterminal::Declared),
    Symbol::Nonterminal(Nonterminal::DeclaredMore),
    // MoreDeclared
    Symbol::Terminal(Terminal::Comma),
    Symbol::Nonterminal(Nonterminal::Declared),
    Symbol::Nonterminal(Nonterminal::DeclaredMore),
    // Declared
    Symbol::Nonterminal(Nonterminal::AnyName),
    Symbol::Nonterminal(Nonterminal::Sizes),
    // SomeSizes
    Symbol::Terminal(Terminal::Open),
    Symbol::Nonterminal(Nonterminal::Par),
    Symbol::Nonterminal(Nonterminal::ParMore),
    Symbol::Terminal(Terminal::Close),
    // MorePar
    Symbol::Terminal(Terminal::Comma),
    Symbol::Nonterminal(Nonterminal::Par),
    Symbol::Nonterminal(Nonterminal::ParMore),
    // NamedFirst
    Symbol::Nonterminal(Nonterminal::Area),
    // BlankFirst
    Symbol::Nonterminal(Nonterminal::DeclaredList),
    // Area
    Symbol::Terminal(Terminal::Slash),
    Symbol::Nonterminal(Nonterminal::AreaName),
    Symbol::Terminal(Terminal::Slash),
    Symbol::Nonterminal(Nonterminal::DeclaredList),
    // SomeArea
    Symbol::Nonterminal(Nonterminal::AnyName),
    // MoreArea
    Symbol::Nonterminal(Nonterminal::Area),
    Symbol::Nonterminal(Nonterminal::AreaMore),
    // Alias
    Symbol::Terminal(Terminal::Open),
    Symbol::Nonterminal(Nonterminal::Ref),
    Symbol::Terminal(Terminal::Comma),
    Symbol::Nonterminal(Nonterminal::Ref),
    Symbol::Nonterminal(Nonterminal::RefMore),
    Symbol::Terminal(Terminal::Close),
    // MoreAlias
    Symbol::Terminal(Terminal::Comma),
    Symbol::Nonterminal(Nonterminal::Alias),
    Symbol::Nonterminal(Nonterminal::AliasMore),
    // MoreRef
    Symbol::Terminal(Terminal::Comma),
    Symbol::Nonterminal(Nonterminal::Ref),
    Symbol::Nonterminal(Nonterminal::RefMore),
    // Preset
    Symbol::Nonterminal(Nonterminal::Ref),
    Symbol::Nonterminal(Nonterminal::RefMore),
    Symbol::Terminal(Terminal::Slash),
    Symbol::Nonterminal(Nonterminal::Datum),
    Symbol::Nonterminal(Nonterminal::DatumMore),
    Symbol::Terminal(Terminal::Slash),
    // MorePreset
    Symbol::Terminal(Terminal::Comma),
    Symbol::Nonterminal(Nonterminal::Preset),
    Symbol::Nonterminal(Nonterminal::PresetMore),
    // NumberDatum
    Symbol::Nonterminal(Nonterminal::AnyNumber),
    Symbol::Nonterminal(Nonterminal::Repetition),
    // OtherDatum
    Symbol::Nonterminal(Nonterminal::Unnumbered),
    // MoreDatum
    Symbol::Terminal(Terminal::Comma),
    Symbol::Nonterminal(Nonterminal::Datum),
    Symbol::Nonterminal(Nonterminal::DatumMore),
    // Repeated
    Symbol::Terminal(Terminal::Star),
    Symbol::Nonterminal(Nonterminal::Constant),
    // NumberConstant
    Symbol::Nonterminal(Nonterminal::AnyNumber),
    // OtherConstant
    Symbol::Nonterminal(Nonterminal::Unnumbered),
    // SignedNumber
    Symbol::Terminal(Terminal::Adding),
    Symbol::Nonterminal(Nonterminal::AnyNumber),
    // TruthConstant
    Symbol::Terminal(Terminal::Truth),
    // LetterConstant
    Symbol::Terminal(Terminal::Letter),
    // EditFirst
    Symbol::Nonterminal(Nonterminal::Edit),
    Symbol::Nonterminal(Nonterminal::AfterEdit),
    // SlashFirst
    Symbol::Terminal(Terminal::Slash),
    Symbol::Nonterminal(Nonterminal::AfterSlash),
    // EditComma
    Symbol::Terminal(Terminal::Comma),
    Symbol::Nonterminal(Nonterminal::NextField),
    // EditSlash
    Symbol::Terminal(Terminal::Slash),
    Symbol::Nonterminal(Nonterminal::AfterSlash),
    // NextEdit
    Symbol::Nonterminal(Nonterminal::Edit),
    Symbol::Nonterminal(Nonterminal::AfterEdit),
    // NextSlash
    Symbol::Terminal(Terminal::Slash),
    Symbol::Nonterminal(Nonterminal::AfterSlash),
    // SlashComma
    Symbol::Terminal(Terminal::Comma),
    Symbol::Nonterminal(Nonterminal::NextField),
    // SlashEdit
    Symbol::Nonterminal(Nonterminal::Edit),
    Symbol::Nonterminal(Nonterminal::AfterEdit),
    // SlashSlash
    Symbol::Terminal(Terminal::Slash),
    Symbol::Nonterminal(Nonterminal::AfterSlash),
    // CountedEdit
    Symbol::Nonterminal(Nonterminal::AnyNumber),
    Symbol::Nonterminal(Nonterminal::Counted),
    // WordEdit
    Symbol::Terminal(Terminal::FieldWord),
    // GroupEdit
    Symbol::Terminal(Terminal::Open),
    Symbol::Nonterminal(Nonterminal::Fields),
    Symbol::Terminal(Terminal::Close),
    // LetterEdit
    Symbol::Terminal(Terminal::Letter),
    // CharsEdit
    Symbol::Terminal(Terminal::Chars),
    // CountedWord
    Symbol::Terminal(Terminal::FieldWord),
    // CountedGroup
    Symbol::Terminal(Terminal::Open),
    Symbol::Nonterminal(Nonterminal::Fields),
    Symbol::Terminal(Terminal::Close),
    // Expr
    Symbol::Nonterminal(Nonterminal::Conjunction),
    Symbol::Nonterminal(Nonterminal::OrTail),
    // OrMore
    Symbol::Terminal(Terminal::Or),
    Symbol::Nonterminal(Nonterminal::Conjunction),
    Symbol::Nonterminal(Nonterminal::OrTail),
    // Conjunction
    Symbol::Nonterminal(Nonterminal::Negation),
    Symbol::Nonterminal(Nonterminal::AndTail),
    // AndMore
    Symbol::Terminal(Terminal::And),
    Symbol::Nonterminal(Nonterminal::Negation),
    Symbol::Nonterminal(Nonterminal::AndTail),
    // Negated
    Symbol::Terminal(Terminal::Not),
    Symbol::Nonterminal(Nonterminal::Relational),
    // Affirmed
    Symbol::Nonterminal(Nonterminal::Relational),
    // Relational
    Symbol::Nonterminal(Nonterminal::Sum),
    Symbol::Nonterminal(Nonterminal::RelationTail),
    // Compared
    Symbol::Terminal(Terminal::Relation),
    Symbol::Nonterminal(Nonterminal::Sum),
    // Sum
    Symbol::Nonterminal(Nonterminal::FirstTerm),
    Symbol::Nonterminal(Nonterminal::SumTail),
    // SignedTerm
    Symbol::Terminal(Terminal::Adding),
    Symbol::Nonterminal(Nonterminal::Term),
    // UnsignedTerm
    Symbol::Nonterminal(Nonterminal::Term),
    // SumMore
    Symbol::Terminal(Terminal::Adding),
    Symbol::Nonterminal(Nonterminal::Term),
    Symbol::Nonterminal(Nonterminal::SumTail),
    // Term
    Symbol::Nonterminal(Nonterminal::Factor),
    Symbol::Nonterminal(Nonterminal::TermTail),
    // TimesMore
    Symbol::Terminal(Terminal::Star),
    Symbol::Nonterminal(Nonterminal::Factor),
    Symbol::Nonterminal(Nonterminal::TermTail),
    // OverMore
    Symbol::Terminal(Terminal::Slash),
    Symbol::Nonterminal(Nonterminal::Factor),
    Symbol::Nonterminal(Nonterminal::TermTail),
    // Factor
    Symbol::Nonterminal(Nonterminal::Prime),
    Symbol::Nonterminal(Nonterminal::PowerTail),
    // Raised
    Symbol::Terminal(Terminal::Power),
    Symbol::Nonterminal(Nonterminal::Prime),
    // NumberPrime
    Symbol::Nonterminal(Nonterminal::AnyNumber),
    // TruthPrime
    Symbol::Terminal(Terminal::Truth),
    // RefPrime
    Symbol::Nonterminal(Nonterminal::Ref),
    // GroupPrime
    Symbol::Terminal(Terminal::Open),
    Symbol::Nonterminal(Nonterminal::Expr),
    Symbol::Terminal(Terminal::Close),
    // Ref
    Symbol::Nonterminal(Nonterminal::AnyName),
    Symbol::Nonterminal(Nonterminal::Arguments),
    // SomeArguments
    Symbol::Nonterminal(Nonterminal::Subscripts),
    // Subscripts
    Symbol::Terminal(Terminal::Open),
    Symbol::Nonterminal(Nonterminal::Expr),
    Symbol::Nonterminal(Nonterminal::ExprMore),
    Symbol::Terminal(Terminal::Close),
    // MoreExpr
    Symbol::Terminal(Terminal::Comma),
    Symbol::Nonterminal(Nonterminal::Expr),
    Symbol::Nonterminal(Nonterminal::ExprMore),
    // PlainName
    Symbol::Terminal(Terminal::Name),
    // FieldName
    Symbol::Terminal(Terminal::FieldWord),
    // OctalNumber
    Symbol::Terminal(Terminal::Octal),
    // DecimalNumber
    Symbol::Terminal(Terminal::Number),
];
