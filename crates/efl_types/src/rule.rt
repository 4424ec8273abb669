// The rules of types, and the faults that they tell.
ghost use Rattle.std.specs.Prelude.{◌≡◌};
ghost use Rattle.efl_types.specs.TypeRules.{kind_of, limit_of};

use ground::FaultKind;

/// The rules of types, each a kind of fault and of a limit its number, in the order of both (Feldman, The Programming Language EFL).
#[derive(Clone, Copy, Debug, PartialEq, Eq)]
pub enum TypeRule {
    /// An undeclared variable is of a letter that gives a type of the profile.
    OutOfProfileType,
    /// An operand, condition, subscript, actual or value has the type or shape that is asked for.
    TypeClash,
    /// Bounds, subscripts, actuals, formals and initial values are as many as is asked for.
    WrongCount,
    /// The constants of a switch differ, and it has one default.
    DuplicateCase,
    /// A constant fits its place, bounds are in order, and a repeat count is not zero.
    BadConstant,
    /// A procedure that is called is in the program.
    MissingUnit,
    /// Widths are 1 to 132, and their sum is at most 132.
    BadFormat,
    /// What is stored into or initialised is a place that may take it.
    NotAssignable,
    /// A place is initialised once.
    InitialTwice,
    /// A variable or member has at most 32,767 places.
    LargeVariable,
    /// The program gives at most 32,767 initial values.
    ManyValues,
}

impl TypeRule {
    /// The kind of the fault that it tells.
    pub fn kind(self) -> FaultKind
        ensures { result ≡ kind_of self }
    {
        match self {
            TypeRule::OutOfProfileType => FaultKind::OutOfProfileType,
            TypeRule::TypeClash => FaultKind::TypeClash,
            TypeRule::WrongCount => FaultKind::WrongCount,
            TypeRule::DuplicateCase => FaultKind::DuplicateCase,
            TypeRule::BadConstant => FaultKind::BadConstant,
            TypeRule::MissingUnit => FaultKind::MissingUnit,
            TypeRule::BadFormat => FaultKind::BadFormat,
            TypeRule::NotAssignable => FaultKind::NotAssignable,
            TypeRule::InitialTwice => FaultKind::InitialTwice,
            TypeRule::LargeVariable | TypeRule::ManyValues => FaultKind::Limit,
        }
    }

    /// The number of the limit that it tells, or 0 where it is no limit.
    pub fn limit(self) -> u64
        ensures { result ≡ limit_of self }
    {
        match self {
            TypeRule::LargeVariable => 7,
            TypeRule::ManyValues => 13,
            _ => 0,
        }
    }
}
