//! The typed bodies of an EFL program whose variables are scalars.
#![tactic(auto)]

mod bodies;
mod copies;
mod items;
mod statements;
mod transfers;

pub use bodies::typed_bodies;
