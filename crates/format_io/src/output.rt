// The record in hand of a WRITE: at most 132 characters, and what edits put at its end.
ghost use Rattle.std.specs.Prelude.{◌≡◌, ℕ, ◌+◌, ◌<◌, ◌≤◌, List, [], ◌∷◌, ◌++◌, length, take, drop, replicate, nat_le, All};
ghost use Rattle.f66_tree.specs.Fielded.{whole_text, truth_text};
ghost use Rattle.f66_tree.specs.Turns.{extended, with_letter};
ghost use Rattle.format_io.specs.Answers.{Writes};
ghost use Rattle.format_io.specs.Letters.{IsLetter};

use crate::characters::are_characters;
use ground::Trap;
use itoa::Buffer;
use std::marker::Model;

/// The front of a text comes to the first of these bytes, as much as has room, where all of it are characters; else none. How many.
fn characters_into(bytes: &mut [u8], text: &[u8]) -> usize
    ensures within { result ≤ length text.now }
    ensures room { length bytes.new ≡ length bytes.old }
    ensures letters { All IsLetter (take result text.now) }
    ensures bytes { bytes.new ≡ take result text.now ++ drop result bytes.old }
{
    let count = text.len().min(bytes.len());
    let front = &text[..count];
    if !are_characters(front) {
        return 0;
    }
    bytes[..count].copy_from_slice(front);
    count
}

/// At most 132 characters.
#[derive(Drop)]
pub struct Output {
    bytes: [u8; 132],
    len: usize,
}

impl Model for Output {
    ghost Value = { List ℕ };

    ghost view = { λ o. take o.len o.bytes };

    ghost invariant = { λ o. o.len ≤ 132 };
}

impl Output {
    /// An empty record.
    pub fn new() -> Self
        ensures { result ≡ [] }
    {
        Output {
            bytes: [0; 132],
            len: 0,
        }
    }

    /// The characters so far.
    pub fn as_slice(&self) -> &[u8]
        ensures { result.now ≡ self.now }
    {
        &self.bytes[..self.len]
    }

    /// The record is empty again.
    pub fn clear(&mut self)
        ensures { self.new ≡ [] }
    {
        self.len = 0;
    }

    /// Whether so many characters more have room.
    pub fn has_room(&self, count: usize) -> bool
        ensures { result ≡ nat_le (length self.now + count) 132 }
    {
        count <= 132 && self.len + count <= 132
    }

    fn push(&mut self, byte: u8)
        requires { length self.old + 1 ≤ 132 }
        ensures { self.new ≡ self.old ++ byte ∷ [] }
    {
        self.bytes[self.len] = byte;
        self.len += 1;
    }

    fn fill(&mut self, byte: u8, count: usize)
        requires { length self.old + count ≤ 132 }
        ensures { self.new ≡ self.old ++ replicate count byte }
    {
        for _i in 0..count {
            self.push(byte);
        }
    }

    fn push_all(&mut self, text: &[u8])
        requires { length self.old + length text.now ≤ 132 }
        ensures { self.new ≡ self.old ++ text.now }
    {
        for b in text {
            self.push(*b);
        }
    }

    /// Blanks at the end.
    pub fn blank(&mut self, count: u16) -> Result<(), Trap>
        ensures { Writes result self.new (extended self.old (replicate count 32)) }
    {
        let count = count as usize;
        if !self.has_room(count) {
            return Err(Trap::LongRecord);
        }
        self.fill(b' ', count);
        Ok(())
    }

    /// A text at the end.
    pub fn text(&mut self, text: &[u8]) -> Result<(), Trap>
        ensures { Writes result self.new (extended self.old text.now) }
    {
        if !self.has_room(text.len()) {
            return Err(Trap::LongRecord);
        }
        self.push_all(text);
        Ok(())
    }

    /// An integer at the right of a field.
    pub fn whole(&mut self, width: u16, n: i64) -> Result<(), Trap>
        ensures { Writes result self.new (extended self.old (whole_text width n)) }
    {
        let width = width as usize;
        if !self.has_room(width) {
            return Err(Trap::LongRecord);
        }
        let mut buffer = Buffer::new();
        let digits = buffer.format(n).as_bytes();
        if digits.len() <= width {
            self.fill(b' ', width - digits.len());
            self.push_all(digits);
        } else {
            self.fill(b'*', width);
        }
        Ok(())
    }

    /// A truth value at the right of a field.
    pub fn truth(&mut self, width: u16, holds: bool) -> Result<(), Trap>
        ensures { Writes result self.new (extended self.old (truth_text width holds)) }
    {
        let blanks = if width == 0 { 0 } else { width as usize - 1 };
        if !self.has_room(blanks + 1) {
            return Err(Trap::LongRecord);
        }
        self.fill(b' ', blanks);
        self.push(if holds { b'T' } else { b'F' });
        Ok(())
    }

    /// The front of a text goes to the end, as much as has room, where all of it are characters; else none. How many.
    pub fn letters(&mut self, text: &[u8]) -> usize
        ensures within { result ≤ length text.now }
        ensures room { 0 < result → length self.new ≤ 132 }
        ensures letters { All IsLetter (take result text.now) }
        ensures pushed { self.new ≡ self.old ++ take result text.now }
    {
        let count = characters_into(&mut self.bytes[self.len..], text);
        self.len += count;
        count
    }

    /// The character of a code.
    pub fn letter(&mut self, n: i64) -> Result<(), Trap>
        ensures { Writes result self.new (with_letter n self.old) }
    {
        if n < 32 || n > 126 {
            return Err(Trap::BadCharacter);
        }
        if !self.has_room(1) {
            return Err(Trap::LongRecord);
        }
        self.push(n as u8);
        Ok(())
    }
}
