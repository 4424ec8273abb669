//! The units of an accepted program of EFL over scalars are units of plain statements.
#![tactic(auto)]
