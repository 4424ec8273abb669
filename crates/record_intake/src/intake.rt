// The bytes that a source has given and that no record has taken yet.
ghost use Rattle.std.specs.Prelude.{◌≡◌, ◌≤◌, ◌<◌, ◌++◌, ℕ, List, [], true, false, IfOk, OnErr, MatchOption, ◌+◌, ◌-◌, length, take, drop};
ghost use Rattle.std.specs.Io.KnownBytes.{Consumes, Keeps, IsAtEnd};
ghost use Rattle.ports.specs.Records.{without_return};
ghost use Rattle.ports.specs.Causes.{HasCause};
ghost use Rattle.record_intake.specs.Intakes.{Content, Gets, IsNone, Grows, IsFound, IsCut, is_steady, Counts};

use ground::Memory;
use memchr::memchr;
use ports::{Failed, Source};
use std::alloc::Global;
use std::marker::Model;

/// So many bytes without a byte 10 are a record that is too long, whatever comes behind them.
const ROOM: usize = 65_537;

/// What the bytes at hand begin with.
#[derive(Clone, Copy)]
pub enum Found {
    /// A record of so many bytes; behind so many the others begin.
    Record(usize, usize),
    /// A record of more than 65,535 bytes.
    Long,
    /// No record, and none will come.
    Nothing,
    /// No record, and a read has failed.
    Failed,
}

/// The bytes at hand, and whether the source has come to its end.
#[derive(Drop)]
pub struct Intake {
    bytes: Vec<u8>,
    first: usize,
    end: usize,
    ended: bool,
}

impl Model for Intake {
    ghost use Rattle.std.specs.Prelude.{◌≡◌, ◌≤◌, length, take, drop};
    ghost use Rattle.record_intake.specs.Intakes.{Content};

    ghost Value = { Content };

    ghost view = { λ i. record { hand = drop i.first (take i.end i.bytes.items); ended = i.ended } };

    ghost invariant = { λ i. (i.first ≤ i.end) × (i.end ≤ 65537) × (length i.bytes.items ≡ 65537) };
}

/// Some bytes of a buffer come to its front. Where they end.
fn settled(buffer: &mut [u8], first: usize, end: usize) -> usize
    requires order { first ≤ end }
    requires within { end ≤ length buffer.old }
    ensures room { length buffer.new ≡ length buffer.old }
    ensures end { result ≡ end - first }
    ensures bytes { take (end - first) buffer.new ≡ drop first (take end buffer.old) }
{
    buffer.copy_within(first..end, 0);
    end - first
}

/// One read behind the bytes that a buffer has. How many bytes it gave.
fn read_behind<S: Source>(buffer: &mut [u8], end: usize, input: &mut S) -> Result<usize, Failed>
    requires { end < length buffer.old }
    ensures room { length buffer.new ≡ length buffer.old }
    ensures within { IfOk result (λ n. end + n ≤ length buffer.new) }
    ensures bytes { IfOk result (λ n. (got : List ℕ) × (take (end + n) buffer.new ≡ take end buffer.old ++ got) × (length got ≡ n) × Consumes (S.left input.old) (S.left input.new) got) }
    ensures at_end { IfOk result (λ n. n ≡ 0 → IsAtEnd (S.left input.new)) }
    ensures front { take end buffer.new ≡ take end buffer.old }
    ensures none { OnErr result (Keeps (S.left input.old) (S.left input.new)) }
    ensures cause { HasCause (S.faults input.old) (S.faults input.new) result }
{
    input.read(&mut buffer[end..])
}

/// How many bytes of a line belong to its record.
fn length_of(line: &[u8]) -> usize
    ensures record { take result line.now ≡ without_return line.now }
    ensures most { result ≤ length line.now }
{
    match line.strip_suffix(&[13]) {
        Some(front) => front.len(),
        None => line.len(),
    }
}

impl Intake {
    /// No bytes, with the memory for all that ever are at hand.
    pub fn new(alloc: Global) -> Result<Self, Memory>
        ensures hand { IfOk result (λ i. i.hand ≡ []) }
        ensures ended { IfOk result (λ i. i.ended ≡ false) }
    {
        let bytes = vec![in alloc; 0u8; ROOM]?;
        Ok(Intake {
            bytes,
            first: 0,
            end: 0,
            ended: false,
        })
    }

    /// The bytes at hand.
    pub fn hand(&self) -> &[u8]
        ensures { result.now ≡ self.now.hand }
    {
        &self.bytes[self.first..self.end]
    }

    /// So many bytes are at hand no more.
    pub fn pass(&mut self, count: usize)
        requires { count ≤ length self.old.hand }
        ensures hand { self.new.hand ≡ drop count self.old.hand }
        ensures ended { self.new.ended ≡ self.old.ended }
    {
        self.first += count;
    }

    /// The source has come to its end.
    fn close(&mut self)
        ensures hand { self.new.hand ≡ self.old.hand }
        ensures ended { self.new.ended ≡ true }
    {
        self.ended = true;
    }

    /// One read. How many bytes more are at hand.
    fn read<S: Source>(&mut self, input: &mut S) -> Result<usize, Failed>
        requires { length self.old.hand < 65537 }
        ensures more { IfOk result (λ n. (got : List ℕ) × (self.new.hand ≡ self.old.hand ++ got) × (length got ≡ n) × Consumes (S.left input.old) (S.left input.new) got) }
        ensures few { IfOk result (λ n. n ≤ 65537) }
        ensures at_end { IfOk result (λ n. n ≡ 0 → IsAtEnd (S.left input.new)) }
        ensures same { OnErr result (self.new.hand ≡ self.old.hand) }
        ensures none { OnErr result (Keeps (S.left input.old) (S.left input.new)) }
        ensures ended { self.new.ended ≡ self.old.ended }
        ensures cause { HasCause (S.faults input.old) (S.faults input.new) result }
    {
        self.end = settled(&mut self.bytes, self.first, self.end);
        self.first = 0;
        let count = read_behind(&mut self.bytes, self.end, input)?;
        self.end += count;
        Ok(count)
    }

    /// What the bytes at hand begin with; None where more of them must be read.
    fn at_hand(&self) -> Option<Found>
        ensures { MatchOption result (IsCut self.now) (λ f. IsFound f self.now × is_steady f ≡ true) }
    {
        let hand = self.hand();
        match memchr(10, hand) {
            Some(at) => Some(Found::Record(length_of(&hand[..at]), at + 1)),
            None => {
                if hand.len() == ROOM {
                    Some(Found::Long)
                } else if !self.ended {
                    None
                } else if hand.is_empty() {
                    Some(Found::Nothing)
                } else {
                    Some(Found::Record(hand.len(), hand.len()))
                }
            }
        }
    }

    /// What the input goes on with, of which as much is read as that takes.
    pub fn find<S: Source>(&mut self, input: &mut S) -> Found
        ensures grows { (got : List ℕ) × Grows self.old self.new got × Consumes (S.left input.old) (S.left input.new) got × Gets IsNone input.old input.new self.old got }
        ensures found { IsFound result self.new }
        ensures at_end { (self.old.ended ≡ true → IsAtEnd (S.left input.old)) → self.new.ended ≡ true → IsAtEnd (S.left input.new) }
        ensures counts { Counts result (S.faults input.old) (S.faults input.new) }
    {
        'reads: loop {
            if let Some(found) = self.at_hand() {
                return found;
            }
            match self.read(input) {
                Ok(0) => self.close(),
                Ok(_) => {}
                Err(Failed) => return Found::Failed,
            }
        }
    }
}
