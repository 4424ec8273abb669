// The rules of scopes, and the faults that they tell.
ghost use Rattle.std.specs.Prelude.{◌≡◌};
ghost use Rattle.efl_scope.specs.ScopeRules.{kind_of};

use ground::FaultKind;

/// The rules of scopes, each a kind of fault, in the order of their numbers (Feldman, The Programming Language EFL).
#[derive(Clone, Copy, Debug, PartialEq, Eq)]
pub enum ScopeRule {
    /// A type is integer, logical or a structure whose shape stands before it.
    OutOfProfileType,
    /// A name is declared once in its block, shape or header, and a structure's name stands for no variable.
    DuplicateName,
    /// A label stands once in its procedure, and a jump's stands in a list around it.
    BadLabel,
    /// A `break` or `next` has its loop or switch around it.
    BadBreak,
    /// All procedures that name an area declare the same list of types.
    CommonMismatch,
}

impl ScopeRule {
    /// The kind of the fault that it tells.
    pub fn kind(self) -> FaultKind
        ensures { result ≡ kind_of self }
    {
        match self {
            ScopeRule::OutOfProfileType => FaultKind::OutOfProfileType,
            ScopeRule::DuplicateName => FaultKind::DuplicateName,
            ScopeRule::BadLabel => FaultKind::BadLabel,
            ScopeRule::BadBreak => FaultKind::BadBreak,
            ScopeRule::CommonMismatch => FaultKind::CommonMismatch,
        }
    }
}
