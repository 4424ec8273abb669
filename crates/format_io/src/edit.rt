// A READ or WRITE in the middle of its list: the record in hand, and the place in the format.
ghost use Rattle.std.specs.Prelude.{◌≡◌, ◌+◌, ◌<◌, ◌≤◌, ◌++◌, ℕ, true, List, OnOk, All, length, take, drop, replicate};
ghost use Rattle.f66_tree.specs.declared.editing.EditKind.TheVariants.{Letter};
ghost use Rattle.f66_tree.specs.Fields.{Fields, Takes};
ghost use Rattle.f66_tree.specs.declared.editing.Mark.TheVariants.{Between};
ghost use Rattle.f66_tree.specs.declared.editing.Way.TheVariants.{Reading, Writing};
ghost use Rattle.f66_tree.specs.Turns.{started, with_record, next_turn, last_turn, is_over, suits, width_of, put_whole, put_truth, put_letter, take_whole, take_truth, take_letter};
ghost use Rattle.format_io.specs.Letters.{IsLetter, PutsLetters, TakesLetters, LettersNext};
ghost use Rattle.format_io.specs.Places.{Stand, hand_of, format, IsPlan, step_of};
ghost use Rattle.format_io.specs.Answers.{line_in, Answers, opened, due_of, StepsTo, EndsTo, ClosesTo, Puts};

use crate::between::{pass_blanks, pass_text};
use crate::code::{Laid, Op, Piece};
use crate::format::Plan;
use crate::input::Input;
use crate::output::Output;
use crate::walk::{Walk, advance, op_at};
use f66_tree::{EditKind, Mark, Turn, Way};
use ground::{Kind, Memory, Trap};
use std::alloc::Global;
use std::marker::Model;

/// Whether an edit takes an item of this type.
fn suits(kind: Kind, wanted: EditKind) -> bool
    ensures { result ≡ suits kind wanted }
{
    match kind {
        Kind::Integer => matches!(wanted, EditKind::Whole | EditKind::Letter),
        Kind::Logical => matches!(wanted, EditKind::Truth),
    }
}

/// Whether an edit is A1.
fn is_letter(piece: &Piece) -> bool
    ensures { result ≡ true → step_of piece.now ≡ Takes Letter 1 }
{
    matches!(piece, Piece::Takes(EditKind::Letter, 1))
}

/// The record in hand, and the place in the plan.
#[derive(Drop)]
pub struct Edit {
    way: Way,
    walk: Walk,
    output: Output,
    input: Input,
    mark: Mark,
}

impl Model for Edit {
    ghost use Rattle.format_io.specs.Places.{Stand};
    ghost use Rattle.format_io.specs.Answers.{line_in};

    ghost Value = { Stand };

    ghost view = { λ e. record { way = e.way; pc = e.walk.pc; past = e.walk.past; counts = e.walk.counts; line = line_in e.way e.output e.input; mark = e.mark } };
}

impl Edit {
    /// All the memory that statements need. What it is for, `start` says.
    pub fn new(alloc: Global) -> Result<Self, Memory> {
        let input = Input::new(alloc)?;
        Ok(Edit {
            way: Way::Writing,
            walk: Walk {
                pc: 0,
                past: 0,
                counts: [0; 2],
            },
            output: Output::new(),
            input,
            mark: Mark::Between,
        })
    }

    /// A statement begins: a WRITE with an empty record, a READ before its first one is taken.
    pub fn start(&mut self, way: Way)
        ensures way { self.new.way ≡ way }
        ensures hand { (fs : Fields) → hand_of fs self.new ≡ started way fs }
    {
        self.way = way;
        self.walk = Walk {
            pc: 0,
            past: 0,
            counts: [0; 2],
        };
        self.output.clear();
        self.input.clear();
        self.mark = Mark::Between;
    }

    /// After a complete record an empty one begins.
    fn open(&mut self)
        ensures { (fs : Fields) → hand_of fs self.new ≡ opened (hand_of fs self.old) }
    {
        if let Way::Writing = self.way {
            if let Mark::Complete = self.mark {
                self.output.clear();
            }
        }
        self.mark = Mark::Between;
    }

    /// One step of the plan.
    fn step(&mut self, plan: &Laid, kind: Kind) -> Result<Option<Turn>, Trap>
        requires { IsPlan plan.now }
        ensures { StepsTo result (hand_of (format plan.now) self.old) (hand_of (format plan.now) self.new) kind }
    {
        match advance(&mut self.walk, plan) {
            None => {
                if !plan.cycles {
                    return Err(Trap::FormatMismatch);
                }
                self.walk.pc = plan.start;
                self.walk.past = 0;
                self.mark = Mark::Complete;
                Ok(Some(Turn::RecordDone))
            }
            Some(Piece::Takes(wanted, width)) => {
                if !suits(kind, *wanted) {
                    return Err(Trap::FormatMismatch);
                }
                self.mark = Mark::Due(*wanted, *width);
                Ok(Some(Turn::Ready(*wanted)))
            }
            Some(Piece::Blanks(count)) => {
                pass_blanks(self.way, &mut self.output, &mut self.input, *count)?;
                Ok(None)
            }
            Some(Piece::Chars(text)) => {
                pass_text(self.way, &mut self.output, &self.input, text.as_bytes())?;
                Ok(None)
            }
            Some(Piece::Slash) => {
                self.mark = Mark::Complete;
                Ok(Some(Turn::RecordDone))
            }
        }
    }

    /// The next turn for an item.
    fn next_laid(&mut self, plan: &Laid, kind: Kind) -> Result<Turn, Trap>
        requires { IsPlan plan.now }
        ensures { Answers (format plan.now) result self.new (next_turn (hand_of (format plan.now) self.old) kind) }
    {
        self.open();
        'item: loop {
            if let Some(turn) = self.step(plan, kind)? {
                return Ok(turn);
            }
        }
    }

    /// The last record is complete, and no edit is left.
    fn close(&mut self, plan: &Laid) -> Option<Turn>
        requires { IsPlan plan.now }
        ensures { ClosesTo result (hand_of (format plan.now) self.old) (hand_of (format plan.now) self.new) }
    {
        self.walk.pc = plan.ops.len();
        self.mark = Mark::Over;
        match self.way {
            Way::Writing => Some(Turn::RecordDone),
            Way::Reading => None,
        }
    }

    /// One step of the plan where no item is left.
    fn last_step(&mut self, plan: &Laid) -> Result<Option<Option<Turn>>, Trap>
        requires { IsPlan plan.now }
        ensures { EndsTo result (hand_of (format plan.now) self.old) (hand_of (format plan.now) self.new) }
    {
        match advance(&mut self.walk, plan) {
            None => Ok(Some(self.close(plan))),
            Some(Piece::Takes(_, _)) => Ok(Some(self.close(plan))),
            Some(Piece::Blanks(count)) => {
                pass_blanks(self.way, &mut self.output, &mut self.input, *count)?;
                Ok(None)
            }
            Some(Piece::Chars(text)) => {
                pass_text(self.way, &mut self.output, &self.input, text.as_bytes())?;
                Ok(None)
            }
            Some(Piece::Slash) => {
                self.mark = Mark::Complete;
                Ok(Some(Some(Turn::RecordDone)))
            }
        }
    }

    fn is_over(&self) -> bool
        ensures { result ≡ is_over self.now.mark }
    {
        matches!(self.mark, Mark::Over)
    }

    /// The next turn where no item is left; None is the end of the statement.
    fn finish_laid(&mut self, plan: &Laid) -> Result<Option<Turn>, Trap>
        requires { IsPlan plan.now }
        ensures { Answers (format plan.now) result self.new (last_turn (hand_of (format plan.now) self.old)) }
    {
        if self.is_over() {
            return Ok(None);
        }
        self.open();
        'last: loop {
            if let Some(turn) = self.last_step(plan)? {
                return Ok(turn);
            }
        }
    }

    /// The next turn for an item of this type: ready for it, or a record is done; FormatMismatch, or LongRecord.
    pub fn next_item(&mut self, plan: &Plan, kind: Kind) -> Result<Turn, Trap>
        ensures way { OnOk result (self.new.way ≡ self.old.way) }
        ensures turn { Answers plan.now result self.new (next_turn (hand_of plan.now self.old) kind) }
    {
        self.next_laid(&plan.laid, kind)
    }

    /// The next turn where no item is left; None is the end of the statement.
    pub fn finish(&mut self, plan: &Plan) -> Result<Option<Turn>, Trap>
        ensures way { OnOk result (self.new.way ≡ self.old.way) }
        ensures turn { Answers plan.now result self.new (last_turn (hand_of plan.now self.old)) }
    {
        self.finish_laid(&plan.laid)
    }

    /// The record in hand: of a WRITE what is written so far, of a READ what is not read yet.
    pub fn in_hand(&self) -> &[u8]
        ensures { result.now ≡ self.now.line }
    {
        match self.way {
            Way::Writing => self.output.as_slice(),
            Way::Reading => self.input.as_slice(),
        }
    }

    /// The next record of a READ, in place of the one in hand.
    pub fn take_record(&mut self, bytes: &[u8])
        requires room { length bytes.now ≤ 65535 }
        requires way { self.old.way ≡ Reading }
        ensures same_way { self.new.way ≡ self.old.way }
        ensures hand { (fs : Fields) → hand_of fs self.new ≡ with_record (hand_of fs self.old) bytes.now }
    {
        self.input.replace(bytes);
        self.mark = Mark::Between;
    }

    /// Whether the statement reads or writes.
    pub fn way(&self) -> Way
        ensures { result ≡ self.now.way }
    {
        self.way
    }

    /// The edit that waits for its item, if one does.
    pub fn due(&self) -> Option<EditKind>
        ensures { result ≡ due_of self.now.mark }
    {
        match self.mark {
            Mark::Due(wanted, _) => Some(wanted),
            _ => None,
        }
    }

    /// The width of the field of the edit that waits.
    fn width(&self) -> u16
        ensures { result ≡ width_of self.now.mark }
    {
        match self.mark {
            Mark::Due(_, width) => width,
            _ => 0,
        }
    }

    /// How many edits A1 come next with nothing between them, where no record and no other item is in between.
    pub fn letters_ahead(&self, plan: &Plan) -> usize
        ensures { take result (hand_of plan.now self.now).rest ≡ replicate result (Takes Letter 1) }
    {
        self.letters_laid(&plan.laid) as usize
    }

    fn letters_laid(&self, plan: &Laid) -> u16
        requires { IsPlan plan.now }
        ensures between { 0 < result → self.now.mark ≡ Between }
        ensures fits { self.now.past + result ≤ 65535 }
        ensures onward { (k : ℕ) → k ≤ result → LettersNext (format plan.now) self.now k }
    {
        let past = self.walk.past;
        if !matches!(self.mark, Mark::Between) {
            return 0;
        }
        if let Some(Op::Once(count, piece)) = op_at(plan, self.walk.pc) {
            if is_letter(piece) {
                return count.saturating_sub(past);
            }
        }
        0
    }

    /// The front of a text goes out by edits that come with nothing between them, as much as has room, where all of it are
    /// characters; else none. How many.
    pub fn put_letters(&mut self, plan: &Plan, text: &[u8]) -> usize
        requires { self.old.way ≡ Writing }
        ensures same_way { self.new.way ≡ self.old.way }
        ensures within { result ≤ length text.now }
        ensures letters { All IsLetter (take result text.now) }
        ensures put { PutsLetters (take result text.now) (hand_of plan.now self.old) (hand_of plan.now self.new) }
    {
        self.put_laid(&plan.laid, text)
    }

    fn put_laid(&mut self, plan: &Laid, text: &[u8]) -> usize
        requires plan { IsPlan plan.now }
        requires way { self.old.way ≡ Writing }
        ensures same_way { self.new.way ≡ self.old.way }
        ensures within { result ≤ length text.now }
        ensures letters { All IsLetter (take result text.now) }
        ensures put { PutsLetters (take result text.now) (hand_of (format plan.now) self.old) (hand_of (format plan.now) self.new) }
    {
        let most = text.len().min(self.letters_laid(plan) as usize);
        let count = self.output.letters(&text[..most]);
        self.walk.past += count as u16;
        count
    }

    /// The next characters of the record come into the first of these bytes by edits with nothing between them, where all of
    /// them are characters; else none. How many.
    pub fn take_letters(&mut self, plan: &Plan, bytes: &mut [u8]) -> usize
        requires { self.old.way ≡ Reading }
        ensures same_way { self.new.way ≡ self.old.way }
        ensures within { result ≤ length bytes.old }
        ensures letters { (cs : List ℕ) × All IsLetter cs × (length cs ≡ result) × (bytes.new ≡ cs ++ drop result bytes.old) × TakesLetters cs (hand_of plan.now self.old) (hand_of plan.now self.new) }
    {
        self.take_laid(&plan.laid, bytes)
    }

    fn take_laid(&mut self, plan: &Laid, bytes: &mut [u8]) -> usize
        requires plan { IsPlan plan.now }
        requires way { self.old.way ≡ Reading }
        ensures same_way { self.new.way ≡ self.old.way }
        ensures within { result ≤ length bytes.old }
        ensures letters { (cs : List ℕ) × All IsLetter cs × (length cs ≡ result) × (bytes.new ≡ cs ++ drop result bytes.old) × TakesLetters cs (hand_of (format plan.now) self.old) (hand_of (format plan.now) self.new) }
    {
        let most = bytes.len().min(self.letters_laid(plan) as usize);
        let count = self.input.letters(&mut bytes[..most]);
        self.input.skip(count as u16);
        self.walk.past += count as u16;
        count
    }

    /// An integer goes out by the edit `I` that waits, or LongRecord.
    pub fn put_int(&mut self, v: i64) -> Result<(), Trap>
        requires { self.old.way ≡ Writing }
        ensures same_way { self.new.way ≡ self.old.way }
        ensures hand { (fs : Fields) → Puts fs result self.new (put_whole (hand_of fs self.old) v) }
    {
        let width = self.width();
        self.output.whole(width, v)?;
        self.mark = Mark::Between;
        Ok(())
    }

    /// A truth value goes out by the edit `L` that waits, or LongRecord.
    pub fn put_log(&mut self, v: bool) -> Result<(), Trap>
        requires { self.old.way ≡ Writing }
        ensures same_way { self.new.way ≡ self.old.way }
        ensures hand { (fs : Fields) → Puts fs result self.new (put_truth (hand_of fs self.old) v) }
    {
        let width = self.width();
        self.output.truth(width, v)?;
        self.mark = Mark::Between;
        Ok(())
    }

    /// The character of a code goes out; BadCharacter, or else LongRecord.
    pub fn put_char(&mut self, v: i64) -> Result<(), Trap>
        requires { self.old.way ≡ Writing }
        ensures same_way { self.new.way ≡ self.old.way }
        ensures hand { (fs : Fields) → Puts fs result self.new (put_letter (hand_of fs self.old) v) }
    {
        self.output.letter(v)?;
        self.mark = Mark::Between;
        Ok(())
    }

    /// The integer in the field of the edit `I` that waits, or BadField.
    pub fn take_int(&mut self) -> Result<i64, Trap>
        requires { self.old.way ≡ Reading }
        ensures same_way { self.new.way ≡ self.old.way }
        ensures hand { (fs : Fields) → Answers fs result self.new (take_whole (hand_of fs self.old)) }
    {
        let width = self.width();
        let value = self.input.whole(width)?;
        self.input.skip(width);
        self.mark = Mark::Between;
        Ok(value)
    }

    /// The truth value in the field of the edit `L` that waits, or BadField.
    pub fn take_log(&mut self) -> Result<bool, Trap>
        requires { self.old.way ≡ Reading }
        ensures same_way { self.new.way ≡ self.old.way }
        ensures hand { (fs : Fields) → Answers fs result self.new (take_truth (hand_of fs self.old)) }
    {
        let width = self.width();
        let value = self.input.truth(width)?;
        self.input.skip(width);
        self.mark = Mark::Between;
        Ok(value)
    }

    /// The code of the next character, or BadCharacter.
    pub fn take_char(&mut self) -> Result<i64, Trap>
        requires { self.old.way ≡ Reading }
        ensures same_way { self.new.way ≡ self.old.way }
        ensures hand { (fs : Fields) → Answers fs result self.new (take_letter (hand_of fs self.old)) }
    {
        let width = self.width();
        let value = self.input.letter()?;
        self.input.skip(width);
        self.mark = Mark::Between;
        Ok(value)
    }
}
