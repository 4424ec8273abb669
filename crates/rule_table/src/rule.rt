// The rules that the parts of a unit can break, and the faults that they tell.
ghost use Rattle.std.specs.Prelude.{◌≡◌};
ghost use Rattle.rule_table.specs.FaultRules.{kind_of, limit_of, rule_number, fault_of, lesser as lesser_of};

use ground::{Fault, FaultKind, Place};

/// The rules of a unit, each a kind of fault and of a limit its number, in the order of both (X3.9-1966, sections 3 to 10).
#[derive(Clone, Copy, Debug, PartialEq, Eq)]
pub enum Rule {
    /// A statement has the form of its grammar, and stands where it may.
    Syntax,
    /// A name has at most six characters.
    NameTooLong,
    /// A type is integer or logical.
    OutOfProfileType,
    /// A part has the type or shape that is asked for.
    TypeClash,
    /// Dimensions, subscripts and arguments are as many as is asked for.
    WrongCount,
    /// A name is declared once, and used in one class.
    DuplicateName,
    /// A label is legal and stands once, and those that are named are there.
    BadLabel,
    /// A break or next has its loop or switch.
    BadBreak,
    /// A switch has one default.
    DuplicateCase,
    /// A constant fits its place.
    BadConstant,
    /// DO ranges nest, end as they may, and are not entered from outside.
    DoNesting,
    /// A format's counts and widths are in their ranges.
    BadFormat,
    /// What is stored into may take it.
    NotAssignable,
    /// An array has at most 32,767 places.
    LargeArray,
    /// The text of a statement fits its cards, and one that the compiler puts an expression into does.
    LongText,
    /// A form of the language that this version does not compile yet.
    Unbuilt,
}

impl Rule {
    /// The kind of the fault that it tells.
    pub fn kind(self) -> FaultKind
        ensures { result ≡ kind_of self }
    {
        match self {
            Rule::Syntax => FaultKind::Syntax,
            Rule::NameTooLong => FaultKind::NameTooLong,
            Rule::OutOfProfileType => FaultKind::OutOfProfileType,
            Rule::TypeClash => FaultKind::TypeClash,
            Rule::WrongCount => FaultKind::WrongCount,
            Rule::DuplicateName => FaultKind::DuplicateName,
            Rule::BadLabel => FaultKind::BadLabel,
            Rule::BadBreak => FaultKind::BadBreak,
            Rule::DuplicateCase => FaultKind::DuplicateCase,
            Rule::BadConstant => FaultKind::BadConstant,
            Rule::DoNesting => FaultKind::DoNesting,
            Rule::BadFormat => FaultKind::BadFormat,
            Rule::NotAssignable => FaultKind::NotAssignable,
            Rule::LargeArray | Rule::LongText => FaultKind::Limit,
            Rule::Unbuilt => FaultKind::Unbuilt,
        }
    }

    /// The number of the limit that it tells, or 0 where it is no limit.
    pub fn limit(self) -> u64
        ensures { result ≡ limit_of self }
    {
        match self {
            Rule::LargeArray => 7,
            Rule::LongText => 9,
            _ => 0,
        }
    }

    /// The fault of a part that breaks it.
    pub fn fault(self, place: Place) -> Fault
        ensures { result ≡ fault_of place self }
    {
        Fault {
            kind: self.kind(),
            place,
            number: self.limit(),
        }
    }

    /// Its place in the order of faults.
    fn number(self) -> u64
        ensures { result ≡ rule_number self }
    {
        self.kind().number() as u64 * 100 + self.limit()
    }
}

/// Of what two tables tell, the rule that comes first.
pub fn lesser(first: Option<Rule>, second: Option<Rule>) -> Option<Rule>
    ensures { result ≡ lesser_of first second }
{
    match first {
        Some(one) => match second {
            Some(other) if other.number() < one.number() => Some(other),
            _ => Some(one),
        },
        None => second,
    }
}
