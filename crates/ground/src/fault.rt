// What a text is refused for.
ghost use Rattle.std.specs.Prelude.{◌≡◌};
ghost use Rattle.ground.specs.FaultNames.{fault_number, fault_word};
ghost use Rattle.ground.specs.Faults.{fault_at, limit_at};
ghost use Rattle.ground.specs.declared.fault.Refusal.TheVariants.{Memory as WantOfMemory};

use crate::Place;
use std::alloc::AllocError;
use thiserror::Error;

/// The faults of a text, in the order of their numbers from 1 on.
#[derive(Clone, Copy, Debug, PartialEq, Eq)]
pub enum FaultKind {
    /// A character begins no token of the dialect, or a byte outside 32 to 126 stands in quotes or in an include's name.
    BadByte,
    /// A quoted text does not end on its line.
    UnclosedQuote,
    /// A number is above 2147483647.
    NumberTooLarge,
    /// A macro's name is met inside its own replacement.
    MacroLoop,
    /// A define has no name, lacks its comma or closing parenthesis, or names define or include.
    BadDefine,
    /// The library does not hold the named file, or the name is empty.
    IncludeMissing,
    /// An include is nested more than ten deep.
    IncludeDepth,
    /// A line's first byte is `%`.
    PercentLine,
    /// The token after which no tokens make a program of the grammar.
    Syntax,
    /// A name of Ratfor or FORTRAN has more than six characters.
    NameTooLong,
    /// A type other than integer and logical is declared, or an undeclared name would be real.
    OutOfProfileType,
    /// A part has another type or shape than is asked for.
    TypeClash,
    /// The number of bounds, subscripts, arguments, formals or initial values is wrong.
    WrongCount,
    /// A name is declared twice, or used in two classes.
    DuplicateName,
    /// A label is zero or too long, stands twice, is missing, or cannot be reached.
    BadLabel,
    /// A break or next names no enclosing loop or switch.
    BadBreak,
    /// Two case constants are equal, or a switch has two defaults.
    DuplicateCase,
    /// A constant does not fit the place that it stands in.
    BadConstant,
    /// EQUIVALENCE or COMMON contradict each other.
    BadEquivalence,
    /// A common block or area differs between units.
    CommonMismatch,
    /// DO ranges overlap, end wrongly, or are entered from outside.
    DoNesting,
    /// There is not exactly one main program.
    MainCount,
    /// A called unit is not in the program.
    MissingUnit,
    /// Two units, or a unit and an intrinsic function or common block, have one name.
    DuplicateUnit,
    /// The call graph has a cycle.
    Recursion,
    /// A count or width of a format is outside its range, or groups nest too deep.
    BadFormat,
    /// The target of a store or initial value may not take it.
    NotAssignable,
    /// A card breaks the rules on columns.
    BadCard,
    /// A place is initialised twice.
    InitialTwice,
    /// A counted quantity passes its limit; the fault's number says which.
    Limit,
    /// A form of the language that this version does not compile yet.
    Unbuilt,
}

impl FaultKind {
    /// The fault's number, from 1 to 31.
    pub fn number(self) -> u8
        ensures { result ≡ fault_number self }
    {
        match self {
            FaultKind::BadByte => 1,
            FaultKind::UnclosedQuote => 2,
            FaultKind::NumberTooLarge => 3,
            FaultKind::MacroLoop => 4,
            FaultKind::BadDefine => 5,
            FaultKind::IncludeMissing => 6,
            FaultKind::IncludeDepth => 7,
            FaultKind::PercentLine => 8,
            FaultKind::Syntax => 9,
            FaultKind::NameTooLong => 10,
            FaultKind::OutOfProfileType => 11,
            FaultKind::TypeClash => 12,
            FaultKind::WrongCount => 13,
            FaultKind::DuplicateName => 14,
            FaultKind::BadLabel => 15,
            FaultKind::BadBreak => 16,
            FaultKind::DuplicateCase => 17,
            FaultKind::BadConstant => 18,
            FaultKind::BadEquivalence => 19,
            FaultKind::CommonMismatch => 20,
            FaultKind::DoNesting => 21,
            FaultKind::MainCount => 22,
            FaultKind::MissingUnit => 23,
            FaultKind::DuplicateUnit => 24,
            FaultKind::Recursion => 25,
            FaultKind::BadFormat => 26,
            FaultKind::NotAssignable => 27,
            FaultKind::BadCard => 28,
            FaultKind::InitialTwice => 29,
            FaultKind::Limit => 30,
            FaultKind::Unbuilt => 31,
        }
    }

    /// The fault's name, as a report shows it.
    pub fn word(self) -> &'static str
        ensures { result.now ≡ fault_word self }
    {
        match self {
            FaultKind::BadByte => "BadByte",
            FaultKind::UnclosedQuote => "UnclosedQuote",
            FaultKind::NumberTooLarge => "NumberTooLarge",
            FaultKind::MacroLoop => "MacroLoop",
            FaultKind::BadDefine => "BadDefine",
            FaultKind::IncludeMissing => "IncludeMissing",
            FaultKind::IncludeDepth => "IncludeDepth",
            FaultKind::PercentLine => "PercentLine",
            FaultKind::Syntax => "Syntax",
            FaultKind::NameTooLong => "NameTooLong",
            FaultKind::OutOfProfileType => "OutOfProfileType",
            FaultKind::TypeClash => "TypeClash",
            FaultKind::WrongCount => "WrongCount",
            FaultKind::DuplicateName => "DuplicateName",
            FaultKind::BadLabel => "BadLabel",
            FaultKind::BadBreak => "BadBreak",
            FaultKind::DuplicateCase => "DuplicateCase",
            FaultKind::BadConstant => "BadConstant",
            FaultKind::BadEquivalence => "BadEquivalence",
            FaultKind::CommonMismatch => "CommonMismatch",
            FaultKind::DoNesting => "DoNesting",
            FaultKind::MainCount => "MainCount",
            FaultKind::MissingUnit => "MissingUnit",
            FaultKind::DuplicateUnit => "DuplicateUnit",
            FaultKind::Recursion => "Recursion",
            FaultKind::BadFormat => "BadFormat",
            FaultKind::NotAssignable => "NotAssignable",
            FaultKind::BadCard => "BadCard",
            FaultKind::InitialTwice => "InitialTwice",
            FaultKind::Limit => "Limit",
            FaultKind::Unbuilt => "Unbuilt",
        }
    }
}

/// A fault at its place. The number is that of the limit where the kind is Limit, and else 0.
#[derive(Clone, Copy, Debug, PartialEq, Eq)]
pub struct Fault {
    pub kind: FaultKind,
    pub place: Place,
    pub number: u64,
}

impl Fault {
    /// The fault of this kind at a place. That of a limit is made by `limit`.
    pub fn new(place: Place, kind: FaultKind) -> Self
        ensures { result ≡ fault_at place kind }
    {
        Fault {
            kind,
            place,
            number: 0,
        }
    }

    /// The fault of passing the limit of this number at a place.
    pub fn limit(place: Place, number: u64) -> Self
        ensures { result ≡ limit_at place number }
    {
        Fault {
            kind: FaultKind::Limit,
            place,
            number,
        }
    }
}

/// Want of memory.
#[derive(Clone, Copy, Debug, PartialEq, Eq)]
pub struct Memory;

/// Why a call gives nothing: a fault of its text, or want of memory.
#[derive(Clone, Copy, Debug, PartialEq, Eq, Error)]
pub enum Refusal {
    #[error("a fault of the text")]
    Fault(Fault),
    #[error("want of memory")]
    Memory,
}

impl From<AllocError> for Memory {
    fn from(_: AllocError) -> Self {
        Memory
    }
}

impl From<AllocError> for Refusal {
    ghost from_gives = { λ _ refusal. refusal ≡ WantOfMemory };

    fn from(_: AllocError) -> Self {
        Refusal::Memory
    }
}

impl From<Memory> for Refusal {
    ghost from_gives = { λ _ refusal. refusal ≡ WantOfMemory };

    fn from(_: Memory) -> Self {
        Refusal::Memory
    }
}
