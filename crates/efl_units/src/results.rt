// The types that procedures give.
ghost use Rattle.std.specs.Prelude.{◌≡◌, option_map};
ghost use Rattle.efl_tree.specs.Views.{procedure_of, type_if_any};
ghost use Rattle.efl_types.specs.Signatures.{result_of};
ghost use Rattle.efl_lowered.specs.Lowering.{gives, word_of};
ghost use Rattle.efl_units.specs.Results.{kind_given};

use efl_tree::{EflProcedure, EflType};
use f66_tree::TypeWord;
use ground::Kind;

/// The type of what a procedure gives, where it gives a scalar.
pub fn given_kind(given: &Option<EflType>) -> Option<Kind>
    ensures { result ≡ kind_given (result_of (type_if_any given.now)) }
{
    match given {
        Some(EflType::Integer) => Some(Kind::Integer),
        Some(EflType::Logical) => Some(Kind::Logical),
        _ => None,
    }
}

/// Whether a procedure gives a value of this type.
pub fn gives(kind: Kind, procedure: &EflProcedure) -> bool
    ensures { result ≡ gives kind (procedure_of procedure.now) }
{
    match (given_kind(&procedure.result), kind) {
        (Some(Kind::Integer), Kind::Integer) | (Some(Kind::Logical), Kind::Logical) => true,
        _ => false,
    }
}

/// The word of a type statement.
pub fn word_of(kind: Kind) -> TypeWord
    ensures { result ≡ word_of kind }
{
    match kind {
        Kind::Integer => TypeWord::Integer,
        Kind::Logical => TypeWord::Logical,
    }
}
