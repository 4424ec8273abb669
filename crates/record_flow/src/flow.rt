// The records of a run as they come and go, and the statement that reads or writes them.
ghost use Rattle.std.specs.Prelude.{◌≡◌, ◌<◌, ◌≤◌, ◌+◌, ◌++◌, ◌∷◌, ℕ, List, [], All, IfOk, OnOk, OnErr, length, take as first, drop, replicate, true, false};
ghost use Rattle.ground.specs.declared.value.Value.TheVariants.{Int, Log};
ghost use Rattle.f66_tree.specs.declared.editing.Way.TheVariants.{Reading, Writing};
ghost use Rattle.f66_tree.specs.declared.editing.Mark.TheVariants.{Between};
ghost use Rattle.f66_tree.specs.declared.editing.EditKind.TheVariants.{Letter};
ghost use Rattle.f66_tree.specs.Fields.{Fields, Takes};
ghost use Rattle.f66_tree.specs.Turns.{is_over};
ghost use Rattle.f66_tree.specs.World.{Record};
ghost use Rattle.f66_tree.specs.Records.{due, put, take, closed};
ghost use Rattle.format_io.specs.Letters.{IsLetter};
ghost use Rattle.format_io.specs.Places.{hand_of};
ghost use Rattle.ports.specs.Puts.{PutsPrefix};
ghost use Rattle.ports.specs.Causes.{HasCause};
ghost use Rattle.record_flow.specs.declared.flow.Break.TheVariants.{Trapped};
ghost use Rattle.record_flow.specs.Flows.{State, tape};
ghost use Rattle.record_flow.specs.Values.{content, IsSmall};
ghost use Rattle.record_flow.specs.Moves.{Changes, IsPut, IsTaken, onward, ahead, to_close, left_of};
ghost use Rattle.record_flow.specs.Letters.{SendsLetters, GetsLetters};
ghost use Rattle.record_flow.specs.Steps.{IsFetched, IsChanged, IsTurned, IfGoesOn, IsStep, IsOpened};

use f66_tree::{EditKind, Turn, Way};
use format_io::{Edit, Plan};
use ground::{Kind, Memory, Trap, Value};
use ports::{Failed, Sink, Source};
use record_intake::{Found, Intake};
use std::alloc::Global;
use std::marker::Model;

/// Why a step does not go on: a trap, or a read or a put that has failed.
#[derive(Clone, Copy)]
pub enum Stop {
    Trapped(Trap),
    Input,
    Output,
}

/// Why a content does not go out or come in: a trap, or what no sound unit does.
#[derive(Clone, Copy, Debug, PartialEq, Eq)]
pub enum Break {
    Trapped(Trap),
    Wrong,
}

impl From<Trap> for Break {
    ghost from_gives = { λ trap stop. stop ≡ Trapped trap };

    fn from(trap: Trap) -> Self {
        Break::Trapped(trap)
    }
}

/// The bytes at hand of a source, and the statement in progress.
#[derive(Drop)]
pub struct Flow {
    intake: Intake,
    edit: Edit,
    line: Vec<u8>,
}

impl Model for Flow {
    ghost use Rattle.record_flow.specs.Flows.{State};

    ghost Value = { State };

    ghost view = { λ f. record { intake = f.intake; stand = f.edit } };
}

/// The bytes of a line at the front of a buffer.
fn copy_front(buffer: &mut [u8], line: &[u8])
    requires { length line.now ≤ length buffer.old }
    ensures room { length buffer.new ≡ length buffer.old }
    ensures front { first (length line.now) buffer.new ≡ line.now }
{
    buffer[..line.len()].copy_from_slice(line);
}

/// A line at the front of a buffer, with a byte 10 behind it.
fn lay(buffer: &mut [u8], line: &[u8])
    requires { length line.now < length buffer.old }
    ensures room { length buffer.new ≡ length buffer.old }
    ensures front { first (length line.now + 1) buffer.new ≡ line.now ++ 10 ∷ [] }
{
    copy_front(buffer, line);
    buffer[line.len()] = 10;
}

/// Puts a line with a byte 10 behind it: one that fits the buffer, as all do, in one call.
fn send<K: Sink>(buffer: &mut [u8], line: &[u8], out: &mut K) -> Result<(), Failed>
    ensures put { OnOk result (K.puts out.old (line.now ++ 10 ∷ []) out.new) }
    ensures cut { OnErr result (PutsPrefix K.puts out.old (line.now ++ 10 ∷ []) out.new) }
    ensures cause { HasCause (K.faults out.old) (K.faults out.new) result }
{
    let size = line.len();
    if size < buffer.len() {
        lay(buffer, line);
        out.put(&buffer[..size + 1])
    } else {
        send_parts(line, out)
    }
}

/// Puts a line, and then a byte 10.
fn send_parts<K: Sink>(line: &[u8], out: &mut K) -> Result<(), Failed>
    ensures put { OnOk result (K.puts out.old (line.now ++ 10 ∷ []) out.new) }
    ensures cut { OnErr result (PutsPrefix K.puts out.old (line.now ++ 10 ∷ []) out.new) }
    ensures cause { HasCause (K.faults out.old) (K.faults out.new) result }
{
    match out.put(line) {
        Ok(()) => out.put(&[10]),
        Err(Failed) => Err(Failed),
    }
}

impl Flow {
    /// Takes all the memory that the statements of a run need.
    pub fn new(alloc: Global) -> Result<Self, Memory>
        ensures hand { IfOk result (λ f. f.intake.hand ≡ []) }
        ensures going { IfOk result (λ f. f.intake.ended ≡ false) }
        ensures ended { IfOk result (λ f. f.intake.ended ≡ false) }
    {
        let intake = Intake::new(alloc)?;
        let edit = Edit::new(alloc)?;
        let line = vec![in alloc; 0u8; 133]?;
        Ok(Flow { intake, edit, line })
    }

    /// Whether the statement reads or writes.
    pub fn way(&self) -> Way
        ensures { result ≡ self.now.stand.way }
    {
        self.edit.way()
    }

    /// The next record of a READ, in place of the one in hand.
    fn fetch<S: Source>(&mut self, input: &mut S) -> Result<(), Stop>
        requires { self.old.stand.way ≡ Reading }
        ensures way { self.new.stand.way ≡ Reading }
        ensures mark { OnOk result (self.new.stand.mark ≡ Between) }
        ensures fetched { IsFetched S.left S.faults input.old input.new self.old self.new result }
    {
        match self.intake.find(input) {
            Found::Record(size, next) => {
                if size > 65535 {
                    return Err(Stop::Trapped(Trap::LongRecord));
                }
                self.edit.take_record(&self.intake.hand()[..size]);
                self.intake.pass(next);
                Ok(())
            }
            Found::Long => Err(Stop::Trapped(Trap::LongRecord)),
            Found::Nothing => Err(Stop::Trapped(Trap::EndOfInput)),
            Found::Failed => Err(Stop::Input),
        }
    }

    /// A statement begins; a READ takes its first record, or it is EndOfInput or LongRecord.
    pub fn open<S: Source>(&mut self, way: Way, input: &mut S) -> Result<(), Stop>
        ensures way { OnOk result (self.new.stand.way ≡ way) }
        ensures going { OnOk result (is_over self.new.stand.mark ≡ false) }
        ensures step { (fs : Fields) → IsOpened S.left S.faults input.old input.new way fs self.old self.new result }
    {
        self.edit.start(way);
        match way {
            Way::Reading => self.fetch(input),
            Way::Writing => Ok(()),
        }
    }

    /// The record in hand goes out.
    fn dispatch<K: Sink>(&mut self, out: &mut K) -> Result<(), Failed>
        ensures same { self.new ≡ self.old }
        ensures put { OnOk result (K.puts out.old (self.old.stand.line ++ 10 ∷ []) out.new) }
        ensures cut { OnErr result (PutsPrefix K.puts out.old (self.old.stand.line ++ 10 ∷ []) out.new) }
        ensures cause { HasCause (K.faults out.old) (K.faults out.new) result }
    {
        send(&mut self.line, self.edit.in_hand(), out)
    }

    /// The record in hand goes out, or the next one comes in.
    fn change<S: Source, K: Sink>(&mut self, input: &mut S, out: &mut K) -> Result<(), Stop>
        ensures way { OnOk result (self.new.stand.way ≡ self.old.stand.way) }
        ensures mark { OnOk result (Changes self.old.stand.way self.old.stand.mark self.new.stand.mark) }
        ensures changed { IsChanged S.left K.puts S.faults K.faults input.old input.new out.old out.new self.old self.new result }
    {
        match self.edit.way() {
            Way::Reading => self.fetch(input),
            Way::Writing => match self.dispatch(out) {
                Ok(()) => Ok(()),
                Err(Failed) => Err(Stop::Output),
            },
        }
    }

    /// One turn for an item: whether an edit is ready for it.
    fn turn<S: Source, K: Sink>(
        &mut self,
        plan: &Plan,
        kind: Kind,
        input: &mut S,
        out: &mut K,
    ) -> Result<bool, Stop>
        ensures way { OnOk result (self.new.stand.way ≡ self.old.stand.way) }
        ensures going { OnOk result (is_over self.new.stand.mark ≡ false) }
        ensures turn { IsTurned S.left K.puts S.faults K.faults input.old input.new out.old out.new (onward kind) plan.now self.old self.new result }
        ensures nearer { IfGoesOn result (ahead (hand_of plan.now self.new.stand) < ahead (hand_of plan.now self.old.stand)) }
    {
        match self.edit.next_item(plan, kind) {
            Err(trap) => Err(Stop::Trapped(trap)),
            Ok(Turn::Ready(_)) => Ok(true),
            Ok(Turn::RecordDone) => match self.change(input, out) {
                Err(stop) => Err(stop),
                Ok(()) => Ok(false),
            },
        }
    }

    /// An item of this type is due: all turns up to its edit, with the records that end before it.
    pub fn due<S: Source, K: Sink>(
        &mut self,
        plan: &Plan,
        kind: Kind,
        input: &mut S,
        out: &mut K,
    ) -> Result<(), Stop>
        ensures way { OnOk result (self.new.stand.way ≡ self.old.stand.way) }
        ensures going { OnOk result (is_over self.new.stand.mark ≡ false) }
        ensures step { IsStep S.left K.puts S.faults K.faults input.old input.new out.old out.new (due kind) plan.now self.old self.new result }
    {
        'turns: loop {
            match self.turn(plan, kind, input, out) {
                Err(stop) => return Err(stop),
                Ok(true) => return Ok(()),
                Ok(false) => {}
            }
        }
    }

    /// One turn where no item is left: whether the statement is over.
    fn last_turn<S: Source, K: Sink>(
        &mut self,
        plan: &Plan,
        input: &mut S,
        out: &mut K,
    ) -> Result<bool, Stop>
        ensures turn { IsTurned S.left K.puts S.faults K.faults input.old input.new out.old out.new to_close plan.now self.old self.new result }
        ensures nearer { IfGoesOn result (left_of (hand_of plan.now self.new.stand) < left_of (hand_of plan.now self.old.stand)) }
    {
        match self.edit.finish(plan) {
            Err(trap) => Err(Stop::Trapped(trap)),
            Ok(None) => Ok(true),
            Ok(Some(_)) => match self.change(input, out) {
                Err(stop) => Err(stop),
                Ok(()) => Ok(false),
            },
        }
    }

    /// The statement ends: all turns that are left, with their records.
    pub fn close<S: Source, K: Sink>(
        &mut self,
        plan: &Plan,
        input: &mut S,
        out: &mut K,
    ) -> Result<(), Stop>
        requires going { is_over self.old.stand.mark ≡ false }
        ensures step { IsStep S.left K.puts S.faults K.faults input.old input.new out.old out.new closed plan.now self.old self.new result }
    {
        'turns: loop {
            match self.last_turn(plan, input, out) {
                Err(stop) => return Err(stop),
                Ok(true) => return Ok(()),
                Ok(false) => {}
            }
        }
    }

    /// A value goes out by the edit that is due, or it is LongRecord or BadCharacter; Wrong where none is due for it.
    pub fn put(&mut self, value: Value) -> Result<(), Break>
        requires { self.old.stand.way ≡ Writing }
        ensures way { self.new.stand.way ≡ self.old.stand.way }
        ensures going { OnOk result (is_over self.new.stand.mark ≡ false) }
        ensures intake { self.new.intake ≡ self.old.intake }
        ensures step { (fs : Fields) (unread written : List Record) → IsPut (put (content value) (tape fs self.old.stand unread written)) result (tape fs self.new.stand unread written) }
    {
        match value {
            Value::Int(n) => self.put_number(n),
            Value::Log(holds) => self.put_fact(holds),
        }
    }

    fn put_number(&mut self, n: i64) -> Result<(), Break>
        requires { self.old.stand.way ≡ Writing }
        ensures way { self.new.stand.way ≡ self.old.stand.way }
        ensures going { OnOk result (is_over self.new.stand.mark ≡ false) }
        ensures intake { self.new.intake ≡ self.old.intake }
        ensures step { (fs : Fields) (unread written : List Record) → IsPut (put (content (Int n)) (tape fs self.old.stand unread written)) result (tape fs self.new.stand unread written) }
    {
        match self.edit.due() {
            Some(EditKind::Whole) => self.edit.put_int(n)?,
            Some(EditKind::Letter) => self.edit.put_char(n)?,
            Some(EditKind::Truth) => return Err(Break::Wrong),
            None => return Err(Break::Wrong),
        }
        Ok(())
    }

    fn put_fact(&mut self, holds: bool) -> Result<(), Break>
        requires { self.old.stand.way ≡ Writing }
        ensures way { self.new.stand.way ≡ self.old.stand.way }
        ensures going { OnOk result (is_over self.new.stand.mark ≡ false) }
        ensures intake { self.new.intake ≡ self.old.intake }
        ensures step { (fs : Fields) (unread written : List Record) → IsPut (put (content (Log holds)) (tape fs self.old.stand unread written)) result (tape fs self.new.stand unread written) }
    {
        match self.edit.due() {
            Some(EditKind::Truth) => self.edit.put_log(holds)?,
            Some(EditKind::Whole) => return Err(Break::Wrong),
            Some(EditKind::Letter) => return Err(Break::Wrong),
            None => return Err(Break::Wrong),
        }
        Ok(())
    }

    /// A value comes in by the edit that is due, or it is BadField or BadCharacter; Wrong where none is due.
    pub fn take(&mut self) -> Result<Value, Break>
        requires { self.old.stand.way ≡ Reading }
        ensures way { self.new.stand.way ≡ self.old.stand.way }
        ensures going { OnOk result (is_over self.new.stand.mark ≡ false) }
        ensures range { IfOk result IsSmall }
        ensures intake { self.new.intake ≡ self.old.intake }
        ensures step { (fs : Fields) (unread written : List Record) → IsTaken (take (tape fs self.old.stand unread written)) result (tape fs self.new.stand unread written) }
    {
        match self.edit.due() {
            Some(EditKind::Whole) => {
                let n = self.edit.take_int()?;
                Ok(Value::Int(n))
            }
            Some(EditKind::Truth) => {
                let holds = self.edit.take_log()?;
                Ok(Value::Log(holds))
            }
            Some(EditKind::Letter) => {
                let n = self.edit.take_char()?;
                Ok(Value::Int(n))
            }
            None => Err(Break::Wrong),
        }
    }

    /// How many edits A1 come next with nothing between them.
    pub fn letters_ahead(&self, plan: &Plan) -> usize
        ensures { first result (hand_of plan.now self.now.stand).rest ≡ replicate result (Takes Letter 1) }
    {
        self.edit.letters_ahead(plan)
    }

    /// The front of a text goes out by edits that come with nothing between them, as much as has room, where all of it are
    /// characters; else none. How many.
    pub fn put_letters(&mut self, plan: &Plan, text: &[u8]) -> usize
        requires { self.old.stand.way ≡ Writing }
        ensures way { self.new.stand.way ≡ self.old.stand.way }
        ensures going { is_over self.old.stand.mark ≡ false → is_over self.new.stand.mark ≡ false }
        ensures intake { self.new.intake ≡ self.old.intake }
        ensures within { result ≤ length text.now }
        ensures letters { All IsLetter (first result text.now) }
        ensures sent { (unread written : List Record) → SendsLetters (first result text.now) (tape plan.now self.old.stand unread written) (tape plan.now self.new.stand unread written) }
    {
        self.edit.put_letters(plan, text)
    }

    /// The next characters of the record come into the first of these bytes by edits with nothing between them, where all of
    /// them are characters; else none. How many.
    pub fn take_letters(&mut self, plan: &Plan, bytes: &mut [u8]) -> usize
        requires { self.old.stand.way ≡ Reading }
        ensures way { self.new.stand.way ≡ self.old.stand.way }
        ensures going { is_over self.old.stand.mark ≡ false → is_over self.new.stand.mark ≡ false }
        ensures intake { self.new.intake ≡ self.old.intake }
        ensures within { result ≤ length bytes.old }
        ensures letters { (cs : List ℕ) × All IsLetter cs × (length cs ≡ result) × (bytes.new ≡ cs ++ drop result bytes.old) × ((unread written : List Record) → GetsLetters cs (tape plan.now self.old.stand unread written) (tape plan.now self.new.stand unread written)) }
    {
        self.edit.take_letters(plan, bytes)
    }
}
