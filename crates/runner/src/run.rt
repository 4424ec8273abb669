// The loop that runs code, over a stack and a store that are given to it.
ghost use Rattle.std.specs.Prelude.{◌≡◌, ◌+◌, ◌-◌, ◌<◌, ◌≤◌, ◌^◌, ℕ, [], true, length, drop, Some, IfSome};
ghost use Rattle.ground.specs.declared.value.Kind.TheVariants.{Integer};
ghost use Rattle.stack_code.specs.Instructions.{Load, LoopTurn};
ghost use Rattle.stack_code.specs.Views.{code_of, instruction_of};
ghost use Rattle.runner.specs.Work.{MayWork, Works, MayHold, Holds, IsRoomFor};
ghost use Rattle.runner.specs.Frames.{place_by, place_at};
ghost use Rattle.runner.specs.Running.{IsReady, HasRange, HasUnits, bounded, ran, role as role_for};
ghost use Rattle.runner.specs.Endings.{IsUnread, IsRunOf, end_in};
ghost use Rattle.runner.specs.declared.run.End.TheVariants.{Trapped};
ghost use Rattle.runner.specs.declared.run.Role.TheVariants.{Works as works, Operates as operates, Holds as holds};

use crate::branches::leap;
use crate::elements::element;
use crate::frames::{Resume, call, caller_below, dummy, keep_caller};
use crate::intrinsics::known;
use crate::loops::{loop_start, loop_turn, variable_turn};
use crate::places::{forget, lend, load, store, variable};
use crate::records::record_step;
use crate::slots::Slot;
use crate::subscripts::{Subscripts, element_by_one, element_by_two, subscript, subscripts_behind};
use crate::values::{arithmetic, both, minus, not, push_integer, push_spot, push_truth};
use crate::words::Word;
use f66_tree::Operator;
use ground::{Kind, Place, Trap};
use ports::{Sink, Source};
use record_flow::{Flow, Stop};
use stack_code::{Code, Op, valid_is_safe};

/// How a run ended.
#[derive(Clone, Copy)]
pub enum End {
    /// At a STOP without a number, or past the main's last statement.
    Done,
    /// At a STOP with this number.
    Stopped(u16),
    /// In a trap, within the statement at this place.
    Trapped(Trap, Place),
    /// Where no further statement may begin.
    StepLimit,
    /// A read failed where the run asks for a record.
    InputFault,
    /// A put failed.
    OutputFault,
}

/// How a run went.
#[derive(Clone, Copy)]
pub struct Ran {
    /// How it ended.
    pub end: End,
    /// How many statements may still begin.
    pub left: u64,
    /// How many instructions were executed, at most the greatest number of this type.
    pub executed: u64,
}

/// What an instruction is to the loop.
#[derive(Clone, Copy)]
enum Role {
    /// A statement begins.
    Begins,
    /// A turn of an implied DO begins.
    Turns,
    Halts,
    Stops(u16),
    /// It may go on elsewhere than at the next instruction.
    Leaps,
    /// It pushes a spot of these units: the first, and how many.
    Spots(u32, u32),
    /// It works on the stack alone.
    Works,
    /// It is an operator of two values.
    Operates,
    /// It stores a value.
    Stores,
    /// It works on the stack and the store in another way.
    Holds,
    /// A turn of a DO ends: the units of its limit and its step, and where the next turn begins.
    Loops(u32, u32, u32),
    /// It pushes a dummy's spot.
    Dummies(u32),
    /// It calls this entry with so many dummies.
    Calls(u32, u32),
    Returns,
    /// A READ or WRITE begins or ends, or items of it come or go.
    Records,
}

#[inline(always)]
fn role_of(op: &Op) -> Role
    ensures { result ≡ role_for (instruction_of op.now) }
{
    match op {
        Op::Begin(_) => Role::Begins,
        Op::Step => Role::Turns,
        Op::PushInt(_) => Role::Works,
        Op::PushLog(_) => Role::Works,
        Op::Spot(first, size) => Role::Spots(*first, *size),
        Op::Dummy(number) => Role::Dummies(*number),
        Op::Element(_) => Role::Works,
        Op::LoadInt => Role::Holds,
        Op::LoadLog => Role::Holds,
        Op::Store => Role::Stores,
        Op::Forget => Role::Holds,
        Op::Lend(_) => Role::Holds,
        Op::Add => Role::Operates,
        Op::Sub => Role::Operates,
        Op::Mul => Role::Operates,
        Op::Div => Role::Operates,
        Op::Pow => Role::Operates,
        Op::Minus => Role::Works,
        Op::Not => Role::Works,
        Op::And => Role::Operates,
        Op::Or => Role::Operates,
        Op::Compare(_) => Role::Operates,
        Op::Known(_, _) => Role::Works,
        Op::Jump(_) => Role::Leaps,
        Op::JumpFalse(_) => Role::Leaps,
        Op::JumpSign(_, _, _) => Role::Leaps,
        Op::JumpTable(_) => Role::Leaps,
        Op::LoopStart(_, _) => Role::Holds,
        Op::LoopTurn(limit, step, to) => Role::Loops(*limit, *step, *to),
        Op::Call(to, count) => Role::Calls(*to, *count),
        Op::Return => Role::Returns,
        Op::WriteStart(_) => Role::Records,
        Op::ReadStart(_) => Role::Records,
        Op::PutItem(_) => Role::Records,
        Op::TakeItem(_) => Role::Records,
        Op::PutRow(_, _) => Role::Records,
        Op::TakeRow(_, _) => Role::Records,
        Op::Finish => Role::Records,
        Op::Halt => Role::Halts,
        Op::HaltWith(number) => Role::Stops(*number),
    }
}

/// Whether an integer is loaded.
#[inline(always)]
pub(crate) fn is_load(op: &Op) -> bool
    ensures { result ≡ true → instruction_of op.now ≡ Load Integer }
{
    matches!(op, Op::LoadInt)
}

/// The units and the target of the end of a DO's turn, where that stands behind a spot of one unit. The size is looked at first, so
/// that what is asked of the instruction behind is not one choice with whether it is a load, which comes most often.
#[inline(always)]
fn turn_behind(size: u32, op: &Op) -> Option<(u32, u32, u32)>
    ensures { IfSome result (λ r. instruction_of op.now ≡ LoopTurn r.0 r.1 r.2) }
{
    if size == 1 {
        match op {
            Op::LoopTurn(limit, step, to) => Some((*limit, *step, *to)),
            _ => None,
        }
    } else {
        None
    }
}

/// An operator of two values.
#[inline(always)]
fn operation(op: &Op, stack: &mut [Word], top: usize) -> Result<usize, Trap>
    requires role { role_for (instruction_of op.now) ≡ operates }
    requires work { MayWork (instruction_of op.now) stack.old top }
    ensures works { Works (instruction_of op.now) stack.old top stack.new result }
    ensures room { IsRoomFor stack.new result }
{
    match op {
        Op::Add => arithmetic(Operator::Add, stack, top),
        Op::Sub => arithmetic(Operator::Sub, stack, top),
        Op::Mul => arithmetic(Operator::Mul, stack, top),
        Op::Div => arithmetic(Operator::Div, stack, top),
        Op::Pow => arithmetic(Operator::Power, stack, top),
        Op::And => both(Operator::And, stack, top),
        Op::Or => both(Operator::Or, stack, top),
        Op::Compare(op) => both(*op, stack, top),
        _ => unreachable!(),
    }
}

/// Another instruction that works on the stack alone. It stands apart from the operators, since one choice among so many would not be
/// made together with the choice of the role.
#[inline(always)]
fn work(op: &Op, stack: &mut [Word], top: usize) -> Result<usize, Trap>
    requires role { role_for (instruction_of op.now) ≡ works }
    requires ranges { HasRange (instruction_of op.now) }
    requires work { MayWork (instruction_of op.now) stack.old top }
    ensures works { Works (instruction_of op.now) stack.old top stack.new result }
    ensures room { IsRoomFor stack.new result }
{
    match op {
        Op::PushInt(number) => Ok(push_integer(*number, stack, top)),
        Op::PushLog(value) => Ok(push_truth(*value, stack, top)),
        Op::Minus => Ok(minus(stack, top)),
        Op::Not => Ok(not(stack, top)),
        Op::Element(count) => element(*count, stack, top),
        Op::Known(function, count) => known(*function, *count, stack, top),
        _ => unreachable!(),
    }
}

/// An instruction that works on the stack and the store.
#[inline(always)]
fn hold(op: &Op, stack: &mut [Word], top: usize, cells: &mut [Slot]) -> Result<usize, Trap>
    requires role { role_for (instruction_of op.now) ≡ holds }
    requires ranges { HasUnits (instruction_of op.now) (length cells.old) }
    requires few { length cells.old < 2 ^ 31 }
    requires hold { MayHold (instruction_of op.now) stack.old top cells.old }
    ensures works { Holds (instruction_of op.now) stack.old top cells.old stack.new cells.new result }
    ensures room { IsRoomFor stack.new result }
{
    match op {
        Op::LoadInt => load(Kind::Integer, stack, top, cells),
        Op::LoadLog => load(Kind::Logical, stack, top, cells),
        Op::Forget => forget(stack, top, cells),
        Op::Lend(unit) => Ok(lend(*unit, stack, top, cells)),
        Op::LoopStart(limit, step) => loop_start(*limit, *step, stack, top, cells),
        _ => unreachable!(),
    }
}

/// The code from an instruction on. What stands behind that one is found from here, where its address is known.
#[inline(always)]
fn code_from(ops: &[Op], pc: usize) -> &[Op]
    requires { pc ≤ length ops.now }
    ensures is { result.now ≡ drop pc ops.now }
    ensures long { length result.now + pc ≡ length ops.now }
{
    &ops[pc..]
}

/// The number before which an instruction has seven or more behind it.
#[inline(always)]
fn roomy(ops: &[Op]) -> usize
    ensures { result ≡ length ops.now - 7 }
{
    ops.len().saturating_sub(7)
}

/// So many instructions more, and the one at `pc`.
#[inline(always)]
fn counted(executed: u64, from: usize, pc: usize) -> u64
    requires order { from ≤ pc }
    requires few { pc < 2 ^ 63 }
    ensures { (base : ℕ) → executed ≡ bounded base → result ≡ bounded (base + (pc - from) + 1) }
{
    executed.saturating_add((pc - from) as u64 + 1)
}

/// Runs the code, and takes no memory. It stands apart from its caller, with whose variables the loop would share its registers.
#[inline(never)]
pub(crate) fn run_code<S: Source, K: Sink>(
    code: &Code,
    flow: &mut Flow,
    input: &mut S,
    out: &mut K,
    stack: &mut [Word],
    cells: &mut [Slot],
    spots: &mut [Word],
    resumes: &mut [Resume],
    steps: u64,
) -> Ran
    requires ready { IsReady code.now stack.old cells.old spots.old resumes.old }
    requires unread { IsUnread flow.old.intake }
    ensures { IsRunOf S.left K.puts S.faults K.faults input.old input.new out.old out.new code.now steps result }
{
    valid_is_safe();
    let ops: &[Op] = &code.ops;
    let mut pc = 0;
    let mut ahead = code_from(ops, 0);
    let mut top = 0;
    let mut left = steps;
    // The instruction that began the statement: at first none.
    let mut begun = ops.len();
    let mut done = 0;
    let mut from = 0;
    let mut level = 0;
    let mut base = 0;
    let mut plan: usize = 0;
    let bound = roomy(ops);
    'turn: loop {
        prove!(0 < ahead.len());
        let op = &ahead[0];
        match role_of(op) {
            Role::Begins => {
                if left == 0 {
                    return over(End::StepLimit, left, counted(done, from, pc));
                }
                left -= 1;
                begun = pc;
                pc += 1;
                ahead = code_from(ahead, 1);
            }
            Role::Turns => {
                if left == 0 {
                    return over(End::StepLimit, left, counted(done, from, pc));
                }
                left -= 1;
                pc += 1;
                ahead = code_from(ahead, 1);
            }
            Role::Halts => return over(End::Done, left, counted(done, from, pc)),
            Role::Stops(number) => return over(End::Stopped(number), left, counted(done, from, pc)),
            Role::Leaps => match leap(op, pc, stack, top) {
                Ok((to, rest)) => {
                    done = counted(done, from, pc);
                    pc = to;
                    from = to;
                    ahead = code_from(ops, to);
                    top = rest;
                }
                Err(trap) => return halted(trap, code, begun, left, done, from, pc),
            },
            Role::Loops(limit, step, to) => {
                match loop_turn(limit, step, to, pc, stack, top, cells) {
                    Ok((next, rest)) => {
                        done = counted(done, from, pc);
                        pc = next;
                        from = next;
                        ahead = code_from(ops, next);
                        top = rest;
                    }
                    Err(trap) => return halted(trap, code, begun, left, done, from, pc),
                }
            }
            Role::Spots(first, size) => {
                prove!(1 < ahead.len());
                if is_load(&ahead[1]) {
                    match variable(first, stack, top, cells) {
                        Ok(rest) => {
                            top = rest;
                            pc += 2;
                            ahead = code_from(ahead, 2);
                        }
                        Err(trap) => return halted(trap, code, begun, left, done, from, pc + 1),
                    }
                } else if let Some((limit, step, to)) = turn_behind(size, &ahead[1]) {
                    match variable_turn(first, limit, step, to, pc + 1, top, cells) {
                        Ok((next, rest)) => {
                            done = counted(done, from, pc + 1);
                            pc = next;
                            from = next;
                            ahead = code_from(ops, next);
                            top = rest;
                        }
                        Err(trap) => return halted(trap, code, begun, left, done, from, pc + 1),
                    }
                } else {
                    match subscripts_behind(size, ahead, 1, pc, bound) {
                        Subscripts::Other => {
                            top = push_spot(first, size, stack, top);
                            pc += 1;
                            ahead = code_from(ahead, 1);
                        }
                        Subscripts::One(unit, extent) => match subscript(unit, cells) {
                            Ok(value) => {
                                match element_by_one(first, size, value, extent, stack, top) {
                                    Ok(rest) => {
                                        top = rest;
                                        pc += 5;
                                        ahead = code_from(ahead, 5);
                                    }
                                    Err(trap) => return halted(
                                        trap,
                                        code,
                                        begun,
                                        left,
                                        done,
                                        from,
                                        pc + 4,
                                    ),
                                }
                            }
                            Err(trap) => return halted(trap, code, begun, left, done, from, pc + 2),
                        },
                        Subscripts::Two(one, two, rows, columns) => match subscript(one, cells) {
                            Ok(x) => match subscript(two, cells) {
                                Ok(y) => {
                                    match element_by_two(
                                        first, size, x, y, rows, columns, stack, top,
                                    ) {
                                        Ok(rest) => {
                                            top = rest;
                                            pc += 8;
                                            ahead = code_from(ahead, 8);
                                        }
                                        Err(trap) => return halted(
                                            trap,
                                            code,
                                            begun,
                                            left,
                                            done,
                                            from,
                                            pc + 7,
                                        ),
                                    }
                                }
                                Err(trap) => return halted(
                                    trap,
                                    code,
                                    begun,
                                    left,
                                    done,
                                    from,
                                    pc + 4,
                                ),
                            },
                            Err(trap) => return halted(trap, code, begun, left, done, from, pc + 2),
                        },
                    }
                }
            }
            Role::Works => match work(op, stack, top) {
                Ok(rest) => {
                    top = rest;
                    pc += 1;
                    ahead = code_from(ahead, 1);
                }
                Err(trap) => return halted(trap, code, begun, left, done, from, pc),
            },
            Role::Operates => match operation(op, stack, top) {
                Ok(rest) => {
                    top = rest;
                    pc += 1;
                    ahead = code_from(ahead, 1);
                }
                Err(trap) => return halted(trap, code, begun, left, done, from, pc),
            },
            Role::Stores => match store(stack, top, cells) {
                Ok(rest) => {
                    top = rest;
                    pc += 1;
                    ahead = code_from(ahead, 1);
                }
                Err(trap) => return halted(trap, code, begun, left, done, from, pc),
            },
            Role::Holds => match hold(op, stack, top, cells) {
                Ok(rest) => {
                    top = rest;
                    pc += 1;
                    ahead = code_from(ahead, 1);
                }
                Err(trap) => return halted(trap, code, begun, left, done, from, pc),
            },
            Role::Dummies(number) => {
                top = dummy(number, spots, base, stack, top);
                pc += 1;
                ahead = code_from(ahead, 1);
            }
            Role::Calls(to, count) => {
                let above = base + code.dummies as usize;
                top = call(count, stack, top, spots, above);
                keep_caller(resumes, level, Resume { at: pc + 1, begun });
                done = counted(done, from, pc);
                pc = to as usize;
                from = to as usize;
                ahead = code_from(ops, to as usize);
                level += 1;
                base = above;
            }
            Role::Returns => {
                let resume = caller_below(resumes, level);
                done = counted(done, from, pc);
                pc = resume.at;
                from = resume.at;
                ahead = code_from(ops, resume.at);
                begun = resume.begun;
                level -= 1;
                base -= code.dummies as usize;
            }
            Role::Records => match record_step(
                op,
                &code.plans,
                plan,
                stack,
                top,
                cells,
                flow,
                input,
                out,
            ) {
                Ok((rest, number)) => {
                    top = rest;
                    plan = number;
                    pc += 1;
                    ahead = code_from(ahead, 1);
                }
                Err(stop) => return over(
                    end_at(stop, place_of(code, begun)),
                    left,
                    counted(done, from, pc),
                ),
            },
        }
    }
}

/// How a run ends in the statement at this place.
fn end_at(stop: Stop, place: Place) -> End
    ensures { result ≡ end_in stop place }
{
    match stop {
        Stop::Trapped(trap) => End::Trapped(trap, place),
        Stop::Input => End::InputFault,
        Stop::Output => End::OutputFault,
    }
}

/// The place of the statement that an instruction begins.
fn begun_by(op: &Op) -> Place
    ensures { result ≡ place_by (Some (instruction_of op.now)) }
{
    match op {
        Op::Begin(place) => Place {
            file: place.file,
            line: place.line,
        },
        _ => Place { file: 0, line: 0 },
    }
}

/// The place of the statement that the instruction of this number begins.
#[inline(never)]
fn place_of(code: &Code, begun: usize) -> Place
    ensures { result ≡ place_at (code_of code.now.ops.items) begun }
{
    let ops: &[Op] = &code.ops;
    if begun < ops.len() {
        begun_by(&ops[begun])
    } else {
        Place { file: 0, line: 0 }
    }
}

/// How a run went that a trap halts at `pc`, in the statement that an instruction begins, with so many instructions more and that one.
#[inline(never)]
fn halted(
    trap: Trap,
    code: &Code,
    begun: usize,
    left: u64,
    executed: u64,
    from: usize,
    pc: usize,
) -> Ran
    requires order { from ≤ pc }
    requires few { pc < 2 ^ 63 }
    ensures end { result ≡ ran (Trapped trap (place_at (code_of code.now.ops.items) begun)) left result.executed }
    ensures counts { (base : ℕ) → executed ≡ bounded base → result.executed ≡ bounded (base + (pc - from) + 1) }
{
    over(
        End::Trapped(trap, place_of(code, begun)),
        left,
        counted(executed, from, pc),
    )
}

/// How a run went.
#[inline(always)]
fn over(end: End, left: u64, executed: u64) -> Ran
    ensures { result ≡ ran end left executed }
{
    Ran {
        end,
        left,
        executed,
    }
}
