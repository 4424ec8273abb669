//! From Ratfor to FORTRAN: each unit of a program becomes a unit of FORTRAN that does the same.
#![tactic(auto)]

mod around;
mod emission;
mod lines;
mod maker;
mod names;
mod program;
mod routine;
mod switches;
mod unit;

use around::{Around, label_again, label_behind};
use emission::emit_all;
use lines::{
    append, put, put_act, put_back, put_break, put_cases, put_do, put_head, put_here, put_jump,
    put_mark, put_next, put_otherwise, put_return, put_turn, put_unless, put_value,
};
use maker::Maker;
use names::names_for;
pub use program::{lower, lower_accepted};
use routine::lower_unit;
use switches::have_switch;
use unit::lower_body;
