//! Units of FORTRAN, decks, formats, names and stack code in rows of text, with what the checks and records make of them. The crate
//! has tests alone.
#![tactic(auto)]

#[cfg(test)]
mod checks;
#[cfg(test)]
mod codes;
#[cfg(test)]
mod decks;
#[cfg(test)]
mod flow;
#[cfg(test)]
mod formats;
#[cfg(test)]
mod names;
#[cfg(test)]
mod reading;
#[cfg(test)]
mod records;
#[cfg(test)]
mod subprograms;
#[cfg(test)]
mod transfers;
#[cfg(test)]
mod units;
