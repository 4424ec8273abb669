//! What the limits of EFL's parser and of a text's tokens bound in a program: labels, variables, procedures,
//! temporaries, storage and the deck of its units.
#![tactic(auto)]

mod laws;

pub use laws::{
    grammar_has_little_storage, grammar_is_short, parsed_has_few_labels, parsed_has_few_procedures,
    parsed_is_small,
};
