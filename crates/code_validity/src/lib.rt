//! The stack code of whole programs of FORTRAN is valid.
#![tactic(auto)]

ghost use Rattle.code_validity.specs.Valid.{CompiledIsValid, InitialAreValues};

/// So a check of stack code never refuses what is compiled. The function does nothing: its contract is the law.
pub fn compiled_is_valid()
    ensures { CompiledIsValid }
{}

/// The initial values that `compiled_is_valid` asks for.
pub fn initial_are_values()
    ensures { InitialAreValues }
{}
