//! The statements of FORTRAN that a typed body of EFL becomes: those of its routes, of which none is ever in memory.
#![tactic(auto)]

mod actions;
mod arguments;
mod body;
mod cases;
mod emitter;
mod expressions;
mod groups;
mod labels;
mod lines;
mod naming;
mod operand;
mod rings;
mod starts;
mod statements;
mod transfers;
mod turns;

use actions::{emit_action, emit_action_if_any, emit_if_any, emit_return, emit_unless, emit_where};
use arguments::{Arguments, or_one};
pub use body::emit_body;
use cases::emit_cases;
use efl_room::{made, place_in, plus};
use emitter::Emitter;
use expressions::{emit_actuals, emit_expression};
use groups::set_gathered;
use labels::put_marks;
use lines::{load, put_choice, set_temporary, store};
use naming::intrinsic_name;
pub use naming::{Naming, digit, temporary};
use operand::{Evaluated, Operand, boxed_operand, operand_expr, operand_not, operand_pair};
use rings::{RingKind, Rings, break_label, next_label};
use starts::emit_start;
use statements::emit_list;
use transfers::{emit_read, emit_write};
use turns::{Turn, emit_bottom, emit_top};
