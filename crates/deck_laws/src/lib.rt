//! A printed deck of sound units is read as these units again.
#![tactic(auto)]

mod again;
mod laws;

pub use again::print_and_read;
pub use laws::{
    decks_are_given_again, fitting_texts_pass, formats_are_whole, headers_are_answered,
    small_decks_pass_no_limit, sound_decks_are_accepted, sound_decks_fit, soundness_asks_no_places,
    statements_are_answered, statements_are_no_headers,
};
