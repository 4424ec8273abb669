//! The lines of FORTRAN that routes become: what each says, and that their labels are as a unit's have to be.
#![tactic(auto)]
