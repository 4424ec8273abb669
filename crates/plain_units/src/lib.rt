//! Units of FORTRAN of plain statements, and the lemma that they are sound.
#![tactic(auto)]
