//! The front of the compiler: a text with its includes becomes units of FORTRAN, or is refused for its first fault.
#![tactic(auto)]

mod efl;
mod laws;
mod made;
mod ratfor;
mod translate;

pub use laws::one_verdict;
pub use macro_define::TextRefusal;
pub use made::Made;
pub use translate::{Translated, name_of, translate_text};
