//! Texts, their tokens and faults, and what files and streams give: the tests of the crates `ports`, `free_scan` and
//! `macro_define`, which are proved without them.
#![tactic(auto)]

#[cfg(test)]
mod gathered;
#[cfg(test)]
mod ported;
#[cfg(test)]
mod scanned;
#[cfg(test)]
mod shown;
