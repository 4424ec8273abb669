// The forms of statements that the rules tell apart.
ghost use Rattle.std.specs.Prelude.{◌≡◌};
ghost use Rattle.f66_tree.specs.Views.{header_of, act_of};
ghost use Rattle.f66_flow.specs.Acts as acts;

use f66_tree::{Header, StmtKind};

pub(crate) fn is_executable(kind: &StmtKind) -> bool
    ensures { result ≡ acts.is_executable (act_of kind.now) }
{
    !(is_specification(kind) || is_data(kind) || is_format(kind))
}

/// Whether it is a type statement, DIMENSION, COMMON or EQUIVALENCE (X3.9-1966, section 7.2.1).
pub fn is_specification(kind: &StmtKind) -> bool
    ensures { result ≡ acts.is_specification (act_of kind.now) }
{
    matches!(
        kind,
        StmtKind::Typed(..)
            | StmtKind::Dimension(_)
            | StmtKind::Common(_)
            | StmtKind::Equivalence(_)
    )
}

pub(crate) fn is_data(kind: &StmtKind) -> bool
    ensures { result ≡ acts.is_data (act_of kind.now) }
{
    matches!(kind, StmtKind::Preset(_))
}

/// Whether it is a FORMAT (section 7.2.3).
pub fn is_format(kind: &StmtKind) -> bool
    ensures { result ≡ acts.is_format (act_of kind.now) }
{
    matches!(kind, StmtKind::Format(_))
}

/// Whether BLOCK DATA does not have it.
pub(crate) fn is_misplaced(header: &Header, kind: &StmtKind) -> bool
    ensures { result ≡ acts.is_misplaced (header_of header.now) (act_of kind.now) }
{
    match header {
        Header::Block => is_executable(kind) || is_format(kind),
        _ => false,
    }
}

pub(crate) fn needs_executable(header: &Header) -> bool
    ensures { result ≡ acts.needs_executable (header_of header.now) }
{
    !matches!(header, Header::Block)
}

pub(crate) fn is_transfer(kind: &StmtKind) -> bool
    ensures { result ≡ acts.is_transfer (act_of kind.now) }
{
    matches!(
        kind,
        StmtKind::Goto(_)
            | StmtKind::Computed(..)
            | StmtKind::Sign(..)
            | StmtKind::Return
            | StmtKind::Stop(_)
    )
}

/// Whether no range may end with a statement.
pub(crate) fn ends_no_range(kind: &StmtKind) -> bool
    ensures { result ≡ acts.ends_no_range (act_of kind.now) }
{
    match kind {
        StmtKind::Loop(..) => true,
        StmtKind::When(_, inner) => ends_no_range(inner),
        kind => is_transfer(kind),
    }
}
