// A READ or WRITE in the middle of its list, and the plan of its format.
ghost use Rattle.std.specs.Prelude.{◌≡◌, ◌≤◌, IfOk, OnOk};
ghost use Rattle.f66_tree.specs.Fields.{Fields};
ghost use Rattle.f66_tree.specs.Views.{fields_of};
ghost use Rattle.f66_tree.specs.declared.editing.Way.TheVariants.{Reading, Writing};
ghost use Rattle.f66_tree.specs.Turns.{next_turn, last_turn, put_letter, take_whole};
ghost use Rattle.format_io.specs.Places.{depth, hand_of};
ghost use Rattle.format_io.specs.Answers.{Answers, Puts};

use f66_tree::{Field, Turn};
use format_io::{Edit, Plan, plan};
use ground::{Kind, List, Memory, Trap};
use std::alloc::Global;

/// The plan of a format whose groups nest at most two deep.
pub fn plan_of(alloc: Global, fields: &List<Field>) -> Result<Plan, Memory>
    requires shallow { depth (fields_of fields.now.items) ≤ 2 }
    ensures same { IfOk result (λ p. p ≡ fields_of fields.now.items) }
{
    plan(alloc, fields)
}

/// The next turn for an item of this type.
pub fn turn(edit: &mut Edit, plan: &Plan, kind: Kind) -> Result<Turn, Trap>
    ensures way { OnOk result (edit.new.way ≡ edit.old.way) }
    ensures turn { Answers plan.now result edit.new (next_turn (hand_of plan.now edit.old) kind) }
{
    edit.next_item(plan, kind)
}

/// The next turn where no item is left.
pub fn end(edit: &mut Edit, plan: &Plan) -> Result<Option<Turn>, Trap>
    ensures way { OnOk result (edit.new.way ≡ edit.old.way) }
    ensures turn { Answers plan.now result edit.new (last_turn (hand_of plan.now edit.old)) }
{
    edit.finish(plan)
}

/// The character of a code goes out.
pub fn letter_out(edit: &mut Edit, v: i64) -> Result<(), Trap>
    requires { edit.old.way ≡ Writing }
    ensures same_way { edit.new.way ≡ edit.old.way }
    ensures hand { (fs : Fields) → Puts fs result edit.new (put_letter (hand_of fs edit.old) v) }
{
    edit.put_char(v)
}

/// The integer in the field of the edit that waits.
pub fn integer_in(edit: &mut Edit) -> Result<i64, Trap>
    requires { edit.old.way ≡ Reading }
    ensures same_way { edit.new.way ≡ edit.old.way }
    ensures hand { (fs : Fields) → Answers fs result edit.new (take_whole (hand_of fs edit.old)) }
{
    edit.take_int()
}
