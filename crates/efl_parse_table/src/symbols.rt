// The symbols of each production. tools/grammar_tables.py writes it from efl.grammar.

ghost use Rattle.std.specs.Prelude.{◌≡◌, slice_get};
ghost use Rattle.efl_parse_table.specs.Table.{symbols, all_symbols, symbol_starts};

use crate::table::{Nonterminal, Production, Terminal};
use grammar::{Symbol, row};

/// The symbol at a place of a production.
pub fn symbol_at(production: Production, place: usize) -> Option<Symbol<Terminal, Nonterminal>>
    ensures { result ≡ slice_get (symbols production) place }
{
    symbols_of(production).get(place).copied()
}

#[tactic(auto, using(crate::proofs::TableLemmas::symbols_stand, crate::proofs::TableLemmas::symbols_found))]
fn symbols_of(production: Production) -> &'static [Symbol<Terminal, Nonterminal>]
    ensures { result.now ≡ symbols production }
{
    row(all(), starts(), production as usize)
}

fn all() -> &'static [Symbol<Terminal, Nonterminal>]
    ensures { result.now ≡ all_symbols }
{
    &SYMBOLS
}

fn starts() -> &'static [usize]
    ensures { result.now ≡ symbol_starts }
{
    &STARTS
}

// Where the symbols of each production begin, and where the last end.
static STARTS: [usize; 249] = [
    0, 2, 4, 6, 6, 11, 15, 17, 19, 19, 22, 22, 24, 24, 27, 27, 28, 29, 29, 31, 38, 44, 46, 48, 50,
    50, 53, 55, 57, 59, 61, 63, 63, 66, 68, 70, 72, 72, 74, 75, 77, 79, 81, 84, 85, 86, 89, 91, 95,
    98, 107, 110, 118, 125, 128, 131, 134, 138, 144, 150, 153, 155, 157, 157, 159, 162, 162, 164,
    165, 165, 166, 167, 168, 168, 170, 170, 172, 172, 174, 174, 179, 182, 185, 185, 187, 189, 189,
    190, 190, 191, 191, 192, 193, 194, 195, 196, 197, 197, 200, 200, 203, 208, 209, 212, 212, 215,
    220, 224, 225, 227, 229, 230, 233, 235, 235, 237, 239, 241, 244, 246, 250, 253, 255, 257, 259,
    261, 262, 263, 264, 268, 269, 269, 271, 273, 275, 277, 279, 281, 282, 284, 286, 286, 289, 289,
    292, 293, 297, 300, 300, 302, 303, 306, 306, 308, 308, 309, 310, 312, 313, 314, 315, 317, 318,
    320, 321, 321, 322, 323, 325, 328, 330, 332, 332, 335, 337, 340, 340, 342, 346, 346, 349, 349,
    350, 352, 354, 354, 355, 356, 358, 359, 360, 361, 363, 366, 368, 371, 373, 375, 378, 382, 383,
    385, 390, 394, 394, 397, 397, 398, 402, 404, 408, 408, 412, 412, 416, 420, 420, 423, 423, 424,
    426, 428, 430, 431, 433, 434, 435, 438, 440, 441, 442, 445, 447, 450, 450, 453, 456, 456, 460,
    463, 463, 464, 465, 466, 467, 468, 469, 470, 471,
];

static SYMBOLS: [Symbol<Terminal, Nonterminal>; 471] = [
    // Whole
    Symbol::Nonterminal(Nonterminal::Procedures),
    Symbol::Terminal(Terminal::TextEnd),
    // BlankLine
    Symbol::Terminal(Terminal::LineEnd),
    Symbol::Nonterminal(Nonterminal::Procedures),
    // MoreProcedures
    Symbol::Nonterminal(Nonterminal::ProcedureText),
    Symbol::Nonterminal(Nonterminal::Procedures),
    // OneProcedure
    Symbol::Nonterminal(Nonterminal::Header),
    Symbol::Nonterminal(Nonterminal::Ending),
    Symbol::Nonterminal(Nonterminal::OuterList),
    Symbol::Terminal(Terminal::End),
    Symbol::Nonterminal(Nonterminal::Ending),
    // TypedHeader
    Symbol::Nonterminal(Nonterminal::Type),
    Symbol::Terminal(Terminal::Procedure),
    Symbol::Nonterminal(Nonterminal::AnyName),
    Symbol::Nonterminal(Nonterminal::Formals),
    // PlainHeader
    Symbol::Terminal(Terminal::Procedure),
    Symbol::Nonterminal(Nonterminal::Heading),
    // NamedHeading
    Symbol::Nonterminal(Nonterminal::AnyName),
    Symbol::Nonterminal(Nonterminal::Formals),
    // SomeFormals
    Symbol::Terminal(Terminal::Open),
    Symbol::Nonterminal(Nonterminal::FormalNames),
    Symbol::Terminal(Terminal::Close),
    // SomeNames
    Symbol::Nonterminal(Nonterminal::AnyName),
    Symbol::Nonterminal(Nonterminal::FormalMore),
    // MoreFormal
    Symbol::Terminal(Terminal::Comma),
    Symbol::Nonterminal(Nonterminal::AnyName),
    Symbol::Nonterminal(Nonterminal::FormalMore),
    // EndingLine
    Symbol::Terminal(Terminal::LineEnd),
    // EndingSign
    Symbol::Terminal(Terminal::Semicolon),
    // OuterLine
    Symbol::Terminal(Terminal::LineEnd),
    Symbol::Nonterminal(Nonterminal::OuterList),
    // OuterImplicit
    Symbol::Terminal(Terminal::Implicit),
    Symbol::Terminal(Terminal::Open),
    Symbol::Nonterminal(Nonterminal::Range),
    Symbol::Nonterminal(Nonterminal::RangeMore),
    Symbol::Terminal(Terminal::Close),
    Symbol::Nonterminal(Nonterminal::ImplicitType),
    Symbol::Nonterminal(Nonterminal::OuterList),
    // OuterCommon
    Symbol::Terminal(Terminal::Common),
    Symbol::Terminal(Terminal::Open),
    Symbol::Nonterminal(Nonterminal::AnyName),
    Symbol::Terminal(Terminal::Close),
    Symbol::Nonterminal(Nonterminal::CommonRest),
    Symbol::Nonterminal(Nonterminal::OuterList),
    // OuterDeclaration
    Symbol::Nonterminal(Nonterminal::Declaration),
    Symbol::Nonterminal(Nonterminal::OuterList),
    // OuterNamed
    Symbol::Nonterminal(Nonterminal::AnyName),
    Symbol::Nonterminal(Nonterminal::OuterRest),
    // OuterStatement
    Symbol::Nonterminal(Nonterminal::Unnamed),
    Symbol::Nonterminal(Nonterminal::Statements),
    // OuterVariables
    Symbol::Nonterminal(Nonterminal::Variables),
    Symbol::Nonterminal(Nonterminal::Ending),
    Symbol::Nonterminal(Nonterminal::OuterList),
    // OuterItem
    Symbol::Nonterminal(Nonterminal::NamedRest),
    Symbol::Nonterminal(Nonterminal::Statements),
    // InnerLine
    Symbol::Terminal(Terminal::LineEnd),
    Symbol::Nonterminal(Nonterminal::InnerList),
    // InnerDeclaration
    Symbol::Nonterminal(Nonterminal::Declaration),
    Symbol::Nonterminal(Nonterminal::InnerList),
    // InnerNamed
    Symbol::Nonterminal(Nonterminal::AnyName),
    Symbol::Nonterminal(Nonterminal::InnerRest),
    // InnerStatement
    Symbol::Nonterminal(Nonterminal::Unnamed),
    Symbol::Nonterminal(Nonterminal::Statements),
    // InnerVariables
    Symbol::Nonterminal(Nonterminal::Variables),
    Symbol::Nonterminal(Nonterminal::Ending),
    Symbol::Nonterminal(Nonterminal::InnerList),
    // InnerItem
    Symbol::Nonterminal(Nonterminal::NamedRest),
    Symbol::Nonterminal(Nonterminal::Statements),
    // StatementsLine
    Symbol::Terminal(Terminal::LineEnd),
    Symbol::Nonterminal(Nonterminal::Statements),
    // StatementsMore
    Symbol::Nonterminal(Nonterminal::Listed),
    Symbol::Nonterminal(Nonterminal::Statements),
    // ListedNamed
    Symbol::Nonterminal(Nonterminal::AnyName),
    Symbol::Nonterminal(Nonterminal::NamedRest),
    // ListedOther
    Symbol::Nonterminal(Nonterminal::Unnamed),
    // LabelRest
    Symbol::Terminal(Terminal::Colon),
    Symbol::Nonterminal(Nonterminal::Listed),
    // ActRest
    Symbol::Nonterminal(Nonterminal::DeedRest),
    Symbol::Nonterminal(Nonterminal::Ending),
    // StatementLine
    Symbol::Terminal(Terminal::LineEnd),
    Symbol::Nonterminal(Nonterminal::Statement),
    // StatementAct
    Symbol::Nonterminal(Nonterminal::AnyName),
    Symbol::Nonterminal(Nonterminal::DeedRest),
    Symbol::Nonterminal(Nonterminal::Ending),
    // StatementOther
    Symbol::Nonterminal(Nonterminal::Unnamed),
    // Empty
    Symbol::Terminal(Terminal::Semicolon),
    // Braces
    Symbol::Terminal(Terminal::OpenBrace),
    Symbol::Nonterminal(Nonterminal::InnerList),
    Symbol::Terminal(Terminal::CloseBrace),
    // StepStatement
    Symbol::Nonterminal(Nonterminal::StepDeed),
    Symbol::Nonterminal(Nonterminal::Ending),
    // IfStatement
    Symbol::Terminal(Terminal::If),
    Symbol::Nonterminal(Nonterminal::Condition),
    Symbol::Nonterminal(Nonterminal::Statement),
    Symbol::Nonterminal(Nonterminal::ElsePart),
    // WhileStatement
    Symbol::Terminal(Terminal::While),
    Symbol::Nonterminal(Nonterminal::Condition),
    Symbol::Nonterminal(Nonterminal::Statement),
    // ForStatement
    Symbol::Terminal(Terminal::For),
    Symbol::Terminal(Terminal::Open),
    Symbol::Nonterminal(Nonterminal::Part),
    Symbol::Nonterminal(Nonterminal::Separator),
    Symbol::Nonterminal(Nonterminal::AnyWhole),
    Symbol::Nonterminal(Nonterminal::Separator),
    Symbol::Nonterminal(Nonterminal::Part),
    Symbol::Terminal(Terminal::Close),
    Symbol::Nonterminal(Nonterminal::Statement),
    // RepeatStatement
    Symbol::Terminal(Terminal::Repeat),
    Symbol::Nonterminal(Nonterminal::Statement),
    Symbol::Nonterminal(Nonterminal::UntilPart),
    // DoStatement
    Symbol::Terminal(Terminal::Do),
    Symbol::Nonterminal(Nonterminal::AnyName),
    Symbol::Terminal(Terminal::Assign),
    Symbol::Nonterminal(Nonterminal::Whole),
    Symbol::Terminal(Terminal::Comma),
    Symbol::Nonterminal(Nonterminal::Whole),
    Symbol::Nonterminal(Nonterminal::StepPart),
    Symbol::Nonterminal(Nonterminal::Statement),
    // SwitchStatement
    Symbol::Terminal(Terminal::Switch),
    Symbol::Nonterminal(Nonterminal::Condition),
    Symbol::Nonterminal(Nonterminal::Lines),
    Symbol::Terminal(Terminal::OpenBrace),
    Symbol::Nonterminal(Nonterminal::Lines),
    Symbol::Nonterminal(Nonterminal::Clauses),
    Symbol::Terminal(Terminal::CloseBrace),
    // LeaveStatement
    Symbol::Terminal(Terminal::Leave),
    Symbol::Nonterminal(Nonterminal::Leaving),
    Symbol::Nonterminal(Nonterminal::Ending),
    // ReturnStatement
    Symbol::Terminal(Terminal::Return),
    Symbol::Nonterminal(Nonterminal::Outcome),
    Symbol::Nonterminal(Nonterminal::Ending),
    // GotoStatement
    Symbol::Terminal(Terminal::Goto),
    Symbol::Nonterminal(Nonterminal::AnyName),
    Symbol::Nonterminal(Nonterminal::Ending),
    // GoToStatement
    Symbol::Terminal(Terminal::Go),
    Symbol::Terminal(Terminal::To),
    Symbol::Nonterminal(Nonterminal::AnyName),
    Symbol::Nonterminal(Nonterminal::Ending),
    // WriteStatement
    Symbol::Terminal(Terminal::Write),
    Symbol::Terminal(Terminal::Open),
    Symbol::Nonterminal(Nonterminal::AnyWhole),
    Symbol::Nonterminal(Nonterminal::WriteItems),
    Symbol::Terminal(Terminal::Close),
    Symbol::Nonterminal(Nonterminal::Ending),
    // ReadStatement
    Symbol::Terminal(Terminal::Read),
    Symbol::Terminal(Terminal::Open),
    Symbol::Nonterminal(Nonterminal::AnyWhole),
    Symbol::Nonterminal(Nonterminal::ReadItems),
    Symbol::Terminal(Terminal::Close),
    Symbol::Nonterminal(Nonterminal::Ending),
    // Condition
    Symbol::Terminal(Terminal::Open),
    Symbol::Nonterminal(Nonterminal::Whole),
    Symbol::Terminal(Terminal::Close),
    // ElseLine
    Symbol::Terminal(Terminal::LineEnd),
    Symbol::Nonterminal(Nonterminal::ElsePart),
    // ElseBody
    Symbol::Terminal(Terminal::Else),
    Symbol::Nonterminal(Nonterminal::Statement),
    // UntilLine
    Symbol::Terminal(Terminal::LineEnd),
    Symbol::Nonterminal(Nonterminal::UntilPart),
    // UntilTest
    Symbol::Terminal(Terminal::Until),
    Symbol::Nonterminal(Nonterminal::Condition),
    Symbol::Nonterminal(Nonterminal::Ending),
    // NamedPart
    Symbol::Nonterminal(Nonterminal::AnyName),
    Symbol::Nonterminal(Nonterminal::DeedRest),
    // SteppedPart
    Symbol::Nonterminal(Nonterminal::StepDeed),
    // CommaSeparator
    Symbol::Terminal(Terminal::Comma),
    // SignSeparator
    Symbol::Terminal(Terminal::Semicolon),
    // SomeWhole
    Symbol::Nonterminal(Nonterminal::Whole),
    // SomeStep
    Symbol::Terminal(Terminal::Comma),
    Symbol::Nonterminal(Nonterminal::Whole),
    // OneLine
    Symbol::Terminal(Terminal::LineEnd),
    Symbol::Nonterminal(Nonterminal::Lines),
    // MoreClauses
    Symbol::Nonterminal(Nonterminal::Clause),
    Symbol::Nonterminal(Nonterminal::Clauses),
    // CaseClause
    Symbol::Terminal(Terminal::Case),
    Symbol::Nonterminal(Nonterminal::Integral),
    Symbol::Nonterminal(Nonterminal::IntegralMore),
    Symbol::Terminal(Terminal::Colon),
    Symbol::Nonterminal(Nonterminal::Statements),
    // DefaultClause
    Symbol::Terminal(Terminal::Default),
    Symbol::Terminal(Terminal::Colon),
    Symbol::Nonterminal(Nonterminal::Statements),
    // MoreIntegral
    Symbol::Terminal(Terminal::Comma),
    Symbol::Nonterminal(Nonterminal::Integral),
    Symbol::Nonterminal(Nonterminal::IntegralMore),
    // CountFirst
    Symbol::Terminal(Terminal::Number),
    Symbol::Nonterminal(Nonterminal::KindPart),
    // KindFirst
    Symbol::Nonterminal(Nonterminal::Kind),
    Symbol::Nonterminal(Nonterminal::CountPart),
    // SomeKind
    Symbol::Nonterminal(Nonterminal::Kind),
    // SomeCount
    Symbol::Terminal(Terminal::Number),
    // WhileKind
    Symbol::Terminal(Terminal::While),
    // ForKind
    Symbol::Terminal(Terminal::For),
    // RepeatKind
    Symbol::Terminal(Terminal::Repeat),
    // DoKind
    Symbol::Terminal(Terminal::Do),
    // SwitchKind
    Symbol::Terminal(Terminal::Switch),
    // SomeOutcome
    Symbol::Nonterminal(Nonterminal::Condition),
    // MoreWrite
    Symbol::Terminal(Terminal::Comma),
    Symbol::Nonterminal(Nonterminal::WriteItem),
    Symbol::Nonterminal(Nonterminal::WriteItems),
    // ValueItem
    Symbol::Nonterminal(Nonterminal::Whole),
    Symbol::Terminal(Terminal::Colon),
    Symbol::Nonterminal(Nonterminal::Edit),
    // SkipWrite
    Symbol::Terminal(Terminal::Colon),
    Symbol::Terminal(Terminal::SkipLetter),
    Symbol::Terminal(Terminal::Open),
    Symbol::Terminal(Terminal::Number),
    Symbol::Terminal(Terminal::Close),
    // CharsItem
    Symbol::Terminal(Terminal::Quoted),
    // MoreRead
    Symbol::Terminal(Terminal::Comma),
    Symbol::Nonterminal(Nonterminal::ReadItem),
    Symbol::Nonterminal(Nonterminal::ReadItems),
    // TakeItem
    Symbol::Nonterminal(Nonterminal::Spot),
    Symbol::Terminal(Terminal::Colon),
    Symbol::Nonterminal(Nonterminal::Edit),
    // SkipRead
    Symbol::Terminal(Terminal::Colon),
    Symbol::Terminal(Terminal::SkipLetter),
    Symbol::Terminal(Terminal::Open),
    Symbol::Terminal(Terminal::Number),
    Symbol::Terminal(Terminal::Close),
    // WidthEdit
    Symbol::Terminal(Terminal::WidthLetter),
    Symbol::Terminal(Terminal::Open),
    Symbol::Terminal(Terminal::Number),
    Symbol::Terminal(Terminal::Close),
    // CharEdit
    Symbol::Terminal(Terminal::CharLetter),
    // DeedOpen
    Symbol::Terminal(Terminal::Open),
    Symbol::Nonterminal(Nonterminal::DeedInner),
    // DeedPlace
    Symbol::Nonterminal(Nonterminal::Steps),
    Symbol::Nonterminal(Nonterminal::Storing),
    // DeedEmpty
    Symbol::Terminal(Terminal::Close),
    // DeedFull
    Symbol::Nonterminal(Nonterminal::Arguments),
    Symbol::Terminal(Terminal::Close),
    Symbol::Nonterminal(Nonterminal::DeedTail),
    // DeedStored
    Symbol::Nonterminal(Nonterminal::Steps),
    Symbol::Nonterminal(Nonterminal::Storing),
    // StepDeed
    Symbol::Terminal(Terminal::Stepper),
    Symbol::Nonterminal(Nonterminal::Place),
    // PlainStoring
    Symbol::Terminal(Terminal::Assign),
    Symbol::Nonterminal(Nonterminal::Expr),
    // OperatorStoring
    Symbol::Terminal(Terminal::OperatorAssign),
    Symbol::Nonterminal(Nonterminal::Expr),
    // BaseDeclaration
    Symbol::Nonterminal(Nonterminal::BaseType),
    Symbol::Nonterminal(Nonterminal::Variables),
    Symbol::Nonterminal(Nonterminal::Ending),
    // StructDeclaration
    Symbol::Terminal(Terminal::Struct),
    Symbol::Nonterminal(Nonterminal::StructRest),
    // InitialDeclaration
    Symbol::Terminal(Terminal::Initial),
    Symbol::Nonterminal(Nonterminal::Preset),
    Symbol::Nonterminal(Nonterminal::PresetMore),
    Symbol::Nonterminal(Nonterminal::Ending),
    // ShapeVariables
    Symbol::Nonterminal(Nonterminal::Shape),
    Symbol::Nonterminal(Nonterminal::Variables),
    Symbol::Nonterminal(Nonterminal::Ending),
    // StructNamed
    Symbol::Nonterminal(Nonterminal::AnyName),
    Symbol::Nonterminal(Nonterminal::StructTail),
    // StructVariables
    Symbol::Nonterminal(Nonterminal::Variables),
    Symbol::Nonterminal(Nonterminal::Ending),
    // StructShape
    Symbol::Nonterminal(Nonterminal::Shape),
    Symbol::Nonterminal(Nonterminal::AfterShape),
    // ShapeAndVariables
    Symbol::Nonterminal(Nonterminal::Variables),
    Symbol::Nonterminal(Nonterminal::Ending),
    // ShapeAlone
    Symbol::Nonterminal(Nonterminal::ShapeEnding),
    // ShapeEnding
    Symbol::Nonterminal(Nonterminal::LooseEnding),
    // CommonGroup
    Symbol::Nonterminal(Nonterminal::Group),
    // CommonList
    Symbol::Terminal(Terminal::OpenBrace),
    Symbol::Nonterminal(Nonterminal::Groups),
    Symbol::Terminal(Terminal::CloseBrace),
    Symbol::Nonterminal(Nonterminal::LooseEnding),
    // SomeEnding
    Symbol::Nonterminal(Nonterminal::Ending),
    // ImplicitBase
    Symbol::Nonterminal(Nonterminal::BaseType),
    Symbol::Nonterminal(Nonterminal::Ending),
    // ImplicitName
    Symbol::Nonterminal(Nonterminal::AnyName),
    Symbol::Nonterminal(Nonterminal::Ending),
    // ImplicitStruct
    Symbol::Terminal(Terminal::Struct),
    Symbol::Nonterminal(Nonterminal::ImplicitRest),
    // ImplicitShape
    Symbol::Nonterminal(Nonterminal::Shape),
    Symbol::Nonterminal(Nonterminal::ShapeEnding),
    // ImplicitStructName
    Symbol::Nonterminal(Nonterminal::AnyName),
    Symbol::Nonterminal(Nonterminal::ImplicitTail),
    // ImplicitNamedShape
    Symbol::Nonterminal(Nonterminal::Shape),
    Symbol::Nonterminal(Nonterminal::ShapeEnding),
    // ImplicitBare
    Symbol::Nonterminal(Nonterminal::Ending),
    // Range
    Symbol::Nonterminal(Nonterminal::AnyLetter),
    Symbol::Nonterminal(Nonterminal::RangeEnd),
    // SomeEnd
    Symbol::Terminal(Terminal::Minus),
    Symbol::Nonterminal(Nonterminal::AnyLetter),
    // MoreRange
    Symbol::Terminal(Terminal::Comma),
    Symbol::Nonterminal(Nonterminal::Range),
    Symbol::Nonterminal(Nonterminal::RangeMore),
    // Preset
    Symbol::Nonterminal(Nonterminal::Spot),
    Symbol::Terminal(Terminal::Assign),
    Symbol::Nonterminal(Nonterminal::PresetValue),
    // OneValue
    Symbol::Nonterminal(Nonterminal::Constant),
    // ListedValues
    Symbol::Terminal(Terminal::Open),
    Symbol::Nonterminal(Nonterminal::Many),
    Symbol::Nonterminal(Nonterminal::ManyMore),
    Symbol::Terminal(Terminal::Close),
    // MorePreset
    Symbol::Terminal(Terminal::Comma),
    Symbol::Nonterminal(Nonterminal::Preset),
    Symbol::Nonterminal(Nonterminal::PresetMore),
    // NumberMany
    Symbol::Terminal(Terminal::Number),
    Symbol::Nonterminal(Nonterminal::Repetition),
    // OtherMany
    Symbol::Nonterminal(Nonterminal::Unnumbered),
    // MoreMany
    Symbol::Terminal(Terminal::Comma),
    Symbol::Nonterminal(Nonterminal::Many),
    Symbol::Nonterminal(Nonterminal::ManyMore),
    // Repeated
    Symbol::Terminal(Terminal::Dollar),
    Symbol::Nonterminal(Nonterminal::Constant),
    // NumberConstant
    Symbol::Terminal(Terminal::Number),
    // OtherConstant
    Symbol::Nonterminal(Nonterminal::Unnumbered),
    // SignedConstant
    Symbol::Nonterminal(Nonterminal::Adding),
    Symbol::Terminal(Terminal::Number),
    // TruthConstant
    Symbol::Terminal(Terminal::Truth),
    // BasicType
    Symbol::Nonterminal(Nonterminal::BaseType),
    // NamedType
    Symbol::Nonterminal(Nonterminal::AnyName),
    // StructType
    Symbol::Terminal(Terminal::Struct),
    Symbol::Nonterminal(Nonterminal::TypeRest),
    // NamelessShape
    Symbol::Nonterminal(Nonterminal::Shape),
    // StructTypeName
    Symbol::Nonterminal(Nonterminal::AnyName),
    Symbol::Nonterminal(Nonterminal::ShapePart),
    // SomeShape
    Symbol::Nonterminal(Nonterminal::Shape),
    // PlainType
    Symbol::Terminal(Terminal::Plain),
    // FloatingType
    Symbol::Terminal(Terminal::Floating),
    // LongType
    Symbol::Terminal(Terminal::Long),
    Symbol::Terminal(Terminal::Floating),
    // Shape
    Symbol::Terminal(Terminal::OpenBrace),
    Symbol::Nonterminal(Nonterminal::Groups),
    Symbol::Terminal(Terminal::CloseBrace),
    // GroupLine
    Symbol::Terminal(Terminal::LineEnd),
    Symbol::Nonterminal(Nonterminal::Groups),
    // MoreGroups
    Symbol::Nonterminal(Nonterminal::Group),
    Symbol::Nonterminal(Nonterminal::Groups),
    // Group
    Symbol::Nonterminal(Nonterminal::Type),
    Symbol::Nonterminal(Nonterminal::Variables),
    Symbol::Nonterminal(Nonterminal::Ending),
    // Variables
    Symbol::Nonterminal(Nonterminal::Variable),
    Symbol::Nonterminal(Nonterminal::VariableMore),
    // MoreVariable
    Symbol::Terminal(Terminal::Comma),
    Symbol::Nonterminal(Nonterminal::Variable),
    Symbol::Nonterminal(Nonterminal::VariableMore),
    // Variable
    Symbol::Nonterminal(Nonterminal::AnyName),
    Symbol::Nonterminal(Nonterminal::Bounds),
    // SomeBounds
    Symbol::Terminal(Terminal::Open),
    Symbol::Nonterminal(Nonterminal::Bound),
    Symbol::Nonterminal(Nonterminal::BoundMore),
    Symbol::Terminal(Terminal::Close),
    // MoreBound
    Symbol::Terminal(Terminal::Comma),
    Symbol::Nonterminal(Nonterminal::Bound),
    Symbol::Nonterminal(Nonterminal::BoundMore),
    // StarBound
    Symbol::Terminal(Terminal::Star),
    // WholeBound
    Symbol::Nonterminal(Nonterminal::Integral),
    Symbol::Nonterminal(Nonterminal::UpperPart),
    // SomeUpper
    Symbol::Terminal(Terminal::Colon),
    Symbol::Nonterminal(Nonterminal::Upper),
    // WholeUpper
    Symbol::Nonterminal(Nonterminal::Integral),
    // StarUpper
    Symbol::Terminal(Terminal::Star),
    // SignedIntegral
    Symbol::Nonterminal(Nonterminal::Adding),
    Symbol::Terminal(Terminal::Number),
    // PlainIntegral
    Symbol::Terminal(Terminal::Number),
    // WholeExpr
    Symbol::Nonterminal(Nonterminal::Expr),
    // WholePlace
    Symbol::Nonterminal(Nonterminal::Place),
    // NamedExpr
    Symbol::Nonterminal(Nonterminal::AnyName),
    Symbol::Nonterminal(Nonterminal::ExprRest),
    // AtomExpr
    Symbol::Nonterminal(Nonterminal::Atom),
    Symbol::Nonterminal(Nonterminal::PowerTail),
    Symbol::Nonterminal(Nonterminal::AfterFactor),
    // PrefixedExpr
    Symbol::Nonterminal(Nonterminal::Prefixed),
    Symbol::Nonterminal(Nonterminal::AfterFactor),
    // NegatedExpr
    Symbol::Nonterminal(Nonterminal::Negated),
    Symbol::Nonterminal(Nonterminal::AndTail),
    Symbol::Nonterminal(Nonterminal::OrTail),
    // ExprOpen
    Symbol::Terminal(Terminal::Open),
    Symbol::Nonterminal(Nonterminal::ExprInner),
    // ExprPlace
    Symbol::Nonterminal(Nonterminal::Steps),
    Symbol::Nonterminal(Nonterminal::ExprTail),
    // ExprEmpty
    Symbol::Terminal(Terminal::Close),
    Symbol::Nonterminal(Nonterminal::PowerTail),
    Symbol::Nonterminal(Nonterminal::AfterFactor),
    // ExprFull
    Symbol::Nonterminal(Nonterminal::Arguments),
    Symbol::Terminal(Terminal::Close),
    Symbol::Nonterminal(Nonterminal::Steps),
    Symbol::Nonterminal(Nonterminal::ExprTail),
    // ExprStored
    Symbol::Nonterminal(Nonterminal::Storing),
    // ExprJoined
    Symbol::Nonterminal(Nonterminal::PowerTail),
    Symbol::Nonterminal(Nonterminal::AfterFactor),
    // AfterFactor
    Symbol::Nonterminal(Nonterminal::TermTail),
    Symbol::Nonterminal(Nonterminal::SumTail),
    Symbol::Nonterminal(Nonterminal::RelationTail),
    Symbol::Nonterminal(Nonterminal::AndTail),
    Symbol::Nonterminal(Nonterminal::OrTail),
    // OrMore
    Symbol::Terminal(Terminal::Or),
    Symbol::Nonterminal(Nonterminal::Negation),
    Symbol::Nonterminal(Nonterminal::AndTail),
    Symbol::Nonterminal(Nonterminal::OrTail),
    // AndMore
    Symbol::Terminal(Terminal::And),
    Symbol::Nonterminal(Nonterminal::Negation),
    Symbol::Nonterminal(Nonterminal::AndTail),
    // NegatedNegation
    Symbol::Nonterminal(Nonterminal::Negated),
    // Affirmed
    Symbol::Nonterminal(Nonterminal::Unary),
    Symbol::Nonterminal(Nonterminal::TermTail),
    Symbol::Nonterminal(Nonterminal::SumTail),
    Symbol::Nonterminal(Nonterminal::RelationTail),
    // Negated
    Symbol::Terminal(Terminal::Not),
    Symbol::Nonterminal(Nonterminal::Negation),
    // Compared
    Symbol::Terminal(Terminal::Relation),
    Symbol::Nonterminal(Nonterminal::Unary),
    Symbol::Nonterminal(Nonterminal::TermTail),
    Symbol::Nonterminal(Nonterminal::SumTail),
    // SumMore
    Symbol::Nonterminal(Nonterminal::Adding),
    Symbol::Nonterminal(Nonterminal::Unary),
    Symbol::Nonterminal(Nonterminal::TermTail),
    Symbol::Nonterminal(Nonterminal::SumTail),
    // TimesMore
    Symbol::Terminal(Terminal::Star),
    Symbol::Nonterminal(Nonterminal::Prime),
    Symbol::Nonterminal(Nonterminal::PowerTail),
    Symbol::Nonterminal(Nonterminal::TermTail),
    // OverMore
    Symbol::Terminal(Terminal::Slash),
    Symbol::Nonterminal(Nonterminal::Prime),
    Symbol::Nonterminal(Nonterminal::PowerTail),
    Symbol::Nonterminal(Nonterminal::TermTail),
    // Raised
    Symbol::Terminal(Terminal::Power),
    Symbol::Nonterminal(Nonterminal::Prime),
    Symbol::Nonterminal(Nonterminal::PowerTail),
    // PrefixedUnary
    Symbol::Nonterminal(Nonterminal::Prefixed),
    // PrimeUnary
    Symbol::Nonterminal(Nonterminal::Prime),
    Symbol::Nonterminal(Nonterminal::PowerTail),
    // Signed
    Symbol::Nonterminal(Nonterminal::Adding),
    Symbol::Nonterminal(Nonterminal::Unary),
    // Stepped
    Symbol::Terminal(Terminal::Stepper),
    Symbol::Nonterminal(Nonterminal::Place),
    // AtomPrime
    Symbol::Nonterminal(Nonterminal::Atom),
    // NamedPrime
    Symbol::Nonterminal(Nonterminal::AnyName),
    Symbol::Nonterminal(Nonterminal::PrimeRest),
    // NumberAtom
    Symbol::Terminal(Terminal::Number),
    // TruthAtom
    Symbol::Terminal(Terminal::Truth),
    // GroupAtom
    Symbol::Terminal(Terminal::Open),
    Symbol::Nonterminal(Nonterminal::Expr),
    Symbol::Terminal(Terminal::Close),
    // PrimeOpen
    Symbol::Terminal(Terminal::Open),
    Symbol::Nonterminal(Nonterminal::PrimeInner),
    // PrimePlace
    Symbol::Nonterminal(Nonterminal::Steps),
    // PrimeEmpty
    Symbol::Terminal(Terminal::Close),
    // PrimeFull
    Symbol::Nonterminal(Nonterminal::Arguments),
    Symbol::Terminal(Terminal::Close),
    Symbol::Nonterminal(Nonterminal::Steps),
    // Arguments
    Symbol::Nonterminal(Nonterminal::Expr),
    Symbol::Nonterminal(Nonterminal::ExprMore),
    // MoreExpr
    Symbol::Terminal(Terminal::Comma),
    Symbol::Nonterminal(Nonterminal::Expr),
    Symbol::Nonterminal(Nonterminal::ExprMore),
    // Place
    Symbol::Nonterminal(Nonterminal::AnyName),
    Symbol::Nonterminal(Nonterminal::Subscripts),
    Symbol::Nonterminal(Nonterminal::Steps),
    // SomeSubscripts
    Symbol::Terminal(Terminal::Open),
    Symbol::Nonterminal(Nonterminal::Arguments),
    Symbol::Terminal(Terminal::Close),
    // MemberStep
    Symbol::Terminal(Terminal::Point),
    Symbol::Nonterminal(Nonterminal::AnyName),
    Symbol::Nonterminal(Nonterminal::Subscripts),
    Symbol::Nonterminal(Nonterminal::Steps),
    // OverlayStep
    Symbol::Terminal(Terminal::Arrow),
    Symbol::Nonterminal(Nonterminal::AnyName),
    Symbol::Nonterminal(Nonterminal::Steps),
    // PlusSign
    Symbol::Terminal(Terminal::Plus),
    // MinusSign
    Symbol::Terminal(Terminal::Minus),
    // LongName
    Symbol::Terminal(Terminal::Name),
    // LetterName
    Symbol::Nonterminal(Nonterminal::AnyLetter),
    // PlainLetter
    Symbol::Terminal(Terminal::Letter),
    // WidthLetter
    Symbol::Terminal(Terminal::WidthLetter),
    // CharLetter
    Symbol::Terminal(Terminal::CharLetter),
    // SkipLetter
    Symbol::Terminal(Terminal::SkipLetter),
];
