//! Plain units of FORTRAN with few operands, and the lemma that they fit their cards.
#![tactic(auto)]
