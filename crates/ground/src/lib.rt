//! What every crate speaks of: integers and their traps, places in a text, faults, tokens and texts.
#![tactic(auto)]

mod arithmetic;
mod fault;
mod place;
mod text;
mod token;
mod trap;
mod value;

pub use arithmetic::{add, div, modulo, mul, power, sub};
pub use fault::{Fault, FaultKind, Memory, Refusal};
pub use place::Place;
pub use text::{List, Text, is_spelled};
pub use token::{Dialect, Sign, Token, TokenKind};
pub use trap::Trap;
pub use value::{Kind, Value};
