// The instructions that have to do with records.
ghost use Rattle.std.specs.Prelude.{◌≡◌, ◌-◌, ◌≤◌, ℕ, List, length, IfOk, OnOk, Some, false};
ghost use Rattle.f66_tree.specs.Fields.{Fields};
ghost use Rattle.f66_tree.specs.Statements.{unit_for as unit_of_way};
ghost use Rattle.f66_tree.specs.Turns.{is_over};
ghost use Rattle.f66_tree.specs.World.{World};
ghost use Rattle.stack_code.specs.Instructions.{Start, Item, Row};
ghost use Rattle.stack_code.specs.StackMachine.{Core, act};
ghost use Rattle.stack_code.specs.Views.{instruction_of};
ghost use Rattle.runner.specs.Words.{Stand, pile_of};
ghost use Rattle.runner.specs.Work.{MayWork, MayHold, IsFine};
ghost use Rattle.runner.specs.Recording.{MayAct, Acts, IsRoomOver, IsUnitTest, IsStarted};
ghost use Rattle.runner.specs.Running.{role as role_for};
ghost use Rattle.runner.specs.declared.run.Role.TheVariants.{Records as records};

use crate::elements::extent_of;
use crate::items::item;
use crate::rows::row;
use crate::slots::Slot;
use crate::words::{Word, word_at};
use f66_tree::Way;
use format_io::Plan;
use ground::{Kind, Trap};
use ports::{Sink, Source};
use record_flow::{Flow, Stop};
use stack_code::Op;

/// The number of the unit.
fn unit_for(way: Way) -> i32
    ensures { result ≡ unit_of_way way }
{
    match way {
        Way::Reading => 5,
        Way::Writing => 6,
    }
}

/// Whether the number on top is the unit's.
fn is_unit(way: Way, number: u32, stack: &[Word], top: usize) -> bool
    requires { MayWork (Start way number) stack.now top }
    ensures some { 1 ≤ top }
    ensures unit { (plans : List Fields) (s : Core) (w : World) → Stand s.stack (pile_of stack.now top) → IsFine (act plans (Some (Start way number)) s w) → IsUnitTest plans way number s w stack.now top result }
{
    word_at(stack, top).value == unit_for(way)
}

/// The number of a unit is popped, and a READ or WRITE on it begins.
fn start<S: Source>(
    way: Way,
    number: u32,
    stack: &[Word],
    top: usize,
    flow: &mut Flow,
    input: &mut S,
) -> Result<(usize, usize), Stop>
    requires { MayWork (Start way number) stack.now top }
    ensures way { OnOk result (flow.new.stand.way ≡ way) }
    ensures going { OnOk result (is_over flow.new.stand.mark ≡ false) }
    ensures rest { IfOk result (λ r. (r.0 ≡ top - 1) × (r.1 ≡ number)) }
    ensures step { (fs : Fields) → IsStarted S.left S.faults input.old input.new way number fs flow.old flow.new stack.now top result }
{
    if !is_unit(way, number, stack, top) {
        return Err(Stop::Trapped(Trap::BadUnit));
    }
    match flow.open(way, input) {
        Ok(()) => Ok((top - 1, number as usize)),
        Err(stop) => Err(stop),
    }
}

/// A spot is popped, and the content of its unit goes out or one comes in.
fn item_at<S: Source, K: Sink>(
    way: Way,
    kind: Kind,
    plans: &[Plan],
    plan: usize,
    stack: &[Word],
    top: usize,
    cells: &mut [Slot],
    flow: &mut Flow,
    input: &mut S,
    out: &mut K,
) -> Result<(usize, usize), Stop>
    requires hold { MayHold (Item way kind) stack.now top cells.old }
    requires act { MayAct plans.now (Item way kind) plan flow.old.stand }
    ensures acts { Acts S.left K.puts S.faults K.faults input.old input.new out.old out.new plans.now (Item way kind) plan flow.old flow.new stack.now top cells.old stack.now cells.new result }
    ensures units { length cells.new ≡ length cells.old }
    ensures room { IsRoomOver stack.now result }
{
    let spot = word_at(stack, top);
    match item(way, kind, spot, &plans[plan], cells, flow, input, out) {
        Ok(()) => Ok((top - 1, plan)),
        Err(stop) => Err(stop),
    }
}

/// Dimensions and a spot are popped, and all units of an array from there on are items.
fn row_at<S: Source, K: Sink>(
    way: Way,
    kind: Kind,
    count: u8,
    plans: &[Plan],
    plan: usize,
    stack: &[Word],
    top: usize,
    cells: &mut [Slot],
    flow: &mut Flow,
    input: &mut S,
    out: &mut K,
) -> Result<(usize, usize), Stop>
    requires hold { MayHold (Row way kind count) stack.now top cells.old }
    requires act { MayAct plans.now (Row way kind count) plan flow.old.stand }
    ensures acts { Acts S.left K.puts S.faults K.faults input.old input.new out.old out.new plans.now (Row way kind count) plan flow.old flow.new stack.now top cells.old stack.now cells.new result }
    ensures units { length cells.new ≡ length cells.old }
    ensures room { IsRoomOver stack.now result }
{
    let at = top - count as usize;
    match extent_of(stack, at, count as usize) {
        None => Err(Stop::Trapped(Trap::Subscript)),
        Some(far) => {
            let spot = word_at(stack, at);
            match row(way, kind, spot, far, &plans[plan], cells, flow, input, out) {
                Ok(()) => Ok((at - 1, plan)),
                Err(stop) => Err(stop),
            }
        }
    }
}

/// An instruction that has to do with records. How many entries the stack has then, and the number of the open statement's format.
/// It stands apart from the loop that runs code, whose registers it would take.
#[inline(never)]
pub(crate) fn record_step<S: Source, K: Sink>(
    op: &Op,
    plans: &[Plan],
    plan: usize,
    stack: &mut [Word],
    top: usize,
    cells: &mut [Slot],
    flow: &mut Flow,
    input: &mut S,
    out: &mut K,
) -> Result<(usize, usize), Stop>
    requires role { role_for (instruction_of op.now) ≡ records }
    requires hold { MayHold (instruction_of op.now) stack.old top cells.old }
    requires act { MayAct plans.now (instruction_of op.now) plan flow.old.stand }
    ensures acts { Acts S.left K.puts S.faults K.faults input.old input.new out.old out.new plans.now (instruction_of op.now) plan flow.old flow.new stack.old top cells.old stack.new cells.new result }
    ensures units { length cells.new ≡ length cells.old }
    ensures room { IsRoomOver stack.new result }
{
    let next = match op {
        Op::WriteStart(number) => start(Way::Writing, *number, stack, top, flow, input)?,
        Op::ReadStart(number) => start(Way::Reading, *number, stack, top, flow, input)?,
        Op::Finish => {
            flow.close(&plans[plan], input, out)?;
            (top, plan)
        }
        Op::PutItem(kind) => item_at(
            Way::Writing,
            *kind,
            plans,
            plan,
            stack,
            top,
            cells,
            flow,
            input,
            out,
        )?,
        Op::TakeItem(kind) => item_at(
            Way::Reading,
            *kind,
            plans,
            plan,
            stack,
            top,
            cells,
            flow,
            input,
            out,
        )?,
        Op::PutRow(kind, count) => row_at(
            Way::Writing,
            *kind,
            *count,
            plans,
            plan,
            stack,
            top,
            cells,
            flow,
            input,
            out,
        )?,
        Op::TakeRow(kind, count) => row_at(
            Way::Reading,
            *kind,
            *count,
            plans,
            plan,
            stack,
            top,
            cells,
            flow,
            input,
            out,
        )?,
        _ => unreachable!(),
    };
    Ok(next)
}
