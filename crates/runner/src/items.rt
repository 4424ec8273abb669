// The items of a READ or WRITE: what a unit holds goes out, or a value comes in.
ghost use Rattle.std.specs.Prelude.{◌≡◌, ◌<◌, ◌^◌, length, OnOk, false};
ghost use Rattle.ground.specs.declared.trap.Trap.{Trap as TheTrap};
ghost use Rattle.ground.specs.declared.value.Kind.{Kind as TheKind};
ghost use Rattle.f66_tree.specs.declared.editing.Way.TheVariants.{Reading, Writing};
ghost use Rattle.f66_tree.specs.Evaluation.{asked};
ghost use Rattle.f66_tree.specs.Turns.{is_over};
ghost use Rattle.f66_tree.specs.World.{Store as TheStore};
ghost use Rattle.record_flow.specs.declared.flow.Break.TheVariants.{Trapped};
ghost use Rattle.record_flow.specs.Values.{content, IsSmall as IsSmallValue};
ghost use Rattle.stack_code.specs.StackMachine.{Spot, At, store as stored_at, edited};
ghost use Rattle.runner.specs.Words.{Shows, Agrees, content_of};
ghost use Rattle.runner.specs.Exchanges.{IsSpot, IsAsked, IsSet, Transfers, IsExchange};

use crate::places::{cell_at, keep, unit_of};
use crate::slots::Slot;
use crate::words::{Cell, Word};
use f66_tree::Way;
use format_io::Plan;
use ground::{Kind, Trap, Value};
use ports::{Sink, Source};
use record_flow::{Break, Flow, Stop};

/// What a unit holds, where a value of a type is asked for.
fn value_in(kind: Kind, cell: Cell) -> Result<Value, Trap>
    ensures { IsAsked (asked kind (content_of cell)) result }
{
    match kind {
        Kind::Integer => match cell {
            Cell::Whole(value) => Ok(Value::Int(i64::from(value))),
            Cell::Nothing => Err(Trap::Undefined),
            Cell::Truth(_) => Err(Trap::Undefined),
        },
        Kind::Logical => match cell {
            Cell::Truth(value) => Ok(Value::Log(value)),
            Cell::Nothing => Err(Trap::Undefined),
            Cell::Whole(_) => Err(Trap::Undefined),
        },
    }
}

/// What a unit holds that has this value.
fn cell_for(value: Value) -> Cell
    requires { IsSmallValue value }
    ensures { content_of result ≡ content value }
{
    match value {
        Value::Int(number) => Cell::Whole(number as i32),
        Value::Log(holds) => Cell::Truth(holds),
    }
}

/// The trap that ends the statement. An edit that is due is never for another type than its item's.
fn trap_of(stop: Break) -> Trap
    ensures { (trap : TheTrap) → stop ≡ Trapped trap → result ≡ trap }
{
    match stop {
        Break::Trapped(trap) => trap,
        Break::Wrong => Trap::Undefined,
    }
}

/// A value is stored at a spot.
fn set(word: Word, value: Value, cells: &mut [Slot]) -> Result<(), Trap>
    requires spot { IsSpot cells.old word }
    requires small { IsSmallValue value }
    ensures set { (p : Spot) (st : TheStore) → Shows (At p) word → Agrees cells.old st → IsSet (stored_at p (content value) st) cells.new result }
    ensures units { length cells.new ≡ length cells.old }
{
    if word.behind == 0 {
        return Err(Trap::ValueArgument);
    }
    keep(cells, unit_of(word), cell_for(value));
    Ok(())
}

/// What a unit holds goes out by the edit that is due.
fn give(kind: Kind, word: Word, cells: &[Slot], flow: &mut Flow) -> Result<(), Trap>
    requires spot { IsSpot cells.now word }
    requires way { flow.old.stand.way ≡ Writing }
    ensures way { flow.new.stand.way ≡ Writing }
    ensures going { OnOk result (is_over flow.new.stand.mark ≡ false) }
    ensures intake { flow.new.intake ≡ flow.old.intake }
    ensures step { Transfers Writing kind word flow.old.stand flow.new.stand cells.now cells.now result }
{
    match value_in(kind, cell_at(cells, unit_of(word))) {
        Ok(value) => match flow.put(value) {
            Ok(()) => Ok(()),
            Err(stop) => Err(trap_of(stop)),
        },
        Err(trap) => Err(trap),
    }
}

/// A value comes in by the edit that is due, and a unit holds it.
fn receive(word: Word, cells: &mut [Slot], flow: &mut Flow) -> Result<(), Trap>
    requires spot { IsSpot cells.old word }
    requires way { flow.old.stand.way ≡ Reading }
    ensures way { flow.new.stand.way ≡ Reading }
    ensures going { OnOk result (is_over flow.new.stand.mark ≡ false) }
    ensures intake { flow.new.intake ≡ flow.old.intake }
    ensures units { length cells.new ≡ length cells.old }
    ensures step { (kind : TheKind) → Transfers Reading kind word flow.old.stand flow.new.stand cells.old cells.new result }
{
    match flow.take() {
        Ok(value) => set(word, value, cells),
        Err(stop) => Err(trap_of(stop)),
    }
}

/// An item at a spot: a content comes or goes by the edit that is due.
fn transfer(
    way: Way,
    kind: Kind,
    word: Word,
    cells: &mut [Slot],
    flow: &mut Flow,
) -> Result<(), Trap>
    requires spot { IsSpot cells.old word }
    requires way { flow.old.stand.way ≡ way }
    ensures way { flow.new.stand.way ≡ way }
    ensures going { OnOk result (is_over flow.new.stand.mark ≡ false) }
    ensures intake { flow.new.intake ≡ flow.old.intake }
    ensures units { length cells.new ≡ length cells.old }
    ensures step { Transfers way kind word flow.old.stand flow.new.stand cells.old cells.new result }
{
    match way {
        Way::Reading => receive(word, cells, flow),
        Way::Writing => give(kind, word, cells, flow),
    }
}

/// An item at a spot: its edit is found, with the records that end before it, and a content comes or goes.
pub(crate) fn item<S: Source, K: Sink>(
    way: Way,
    kind: Kind,
    word: Word,
    plan: &Plan,
    cells: &mut [Slot],
    flow: &mut Flow,
    input: &mut S,
    out: &mut K,
) -> Result<(), Stop>
    requires spot { IsSpot cells.old word }
    requires way { flow.old.stand.way ≡ way }
    ensures way { OnOk result (flow.new.stand.way ≡ way) }
    ensures going { OnOk result (is_over flow.new.stand.mark ≡ false) }
    ensures units { length cells.new ≡ length cells.old }
    ensures step { IsExchange S.left K.puts S.faults K.faults input.old input.new out.old out.new (λ p place. edited place way kind p) word plan.now flow.old flow.new cells.old cells.new result }
{
    match flow.due(plan, kind, input, out) {
        Ok(()) => match transfer(way, kind, word, cells, flow) {
            Ok(()) => Ok(()),
            Err(trap) => Err(Stop::Trapped(trap)),
        },
        Err(stop) => Err(stop),
    }
}
