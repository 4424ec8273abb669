// The record in hand of a READ: what of it is not read yet, and the contents of its fields.
ghost use Rattle.std.specs.Prelude.{◌≡◌, ℕ, ◌≤◌, ◌-◌, List, [], ◌++◌, length, take, drop, replicate, get_or, All, IfOk};
ghost use Rattle.format_io.specs.Letters.{IsLetter};
ghost use Rattle.f66_tree.specs.Fielded.{field, unblanked, in_magnitude, digit, digits_of, ranged, sign_of, digits_from, whole_of, truth_of, letter_of};

use crate::characters::are_characters;
use ground::Trap;
use std::alloc::{AllocError, Global};
use std::marker::Model;

/// The value of a digit, or of a blank among digits.
fn digit_of(c: u8) -> Option<u8>
    ensures { result ≡ digit c }
{
    if c == b' ' {
        Some(0)
    } else if c >= b'0' && c <= b'9' {
        Some(c - b'0')
    } else {
        None
    }
}

fn with_sign(negative: bool, n: u32) -> i64
    ensures { result ≡ sign_of negative n }
{
    if negative { -(n as i64) } else { n as i64 }
}

/// The character at a column of a record, which is extended by blanks.
fn column(line: &[u8], i: usize) -> u8
    ensures { result ≡ get_or line.now i 32 }
{
    match line.get(i) {
        Some(byte) => *byte,
        None => b' ',
    }
}

/// The record at the front of a buffer.
fn copy_into(buffer: &mut [u8], bytes: &[u8])
    requires { length bytes.now ≤ length buffer.old }
    ensures room { length buffer.new ≡ length buffer.old }
    ensures front { take (length bytes.now) buffer.new ≡ bytes.now }
{
    buffer[..bytes.len()].copy_from_slice(bytes);
}

/// A text at the front of a field, and blanks behind it.
fn lay(field: &mut [u8], text: &[u8])
    requires { length text.now ≤ length field.old }
    ensures { field.new ≡ text.now ++ replicate (length field.old - length text.now) 32 }
{
    let (front, behind) = field.split_at_mut(text.len());
    front.copy_from_slice(text);
    behind.fill(b' ');
}

/// What is not read yet of a record of at most 65,535 bytes.
#[derive(Drop)]
pub struct Input {
    bytes: Vec<u8>,
    first: usize,
    end: usize,
}

impl Model for Input {
    ghost Value = { List ℕ };

    ghost view = { λ i. drop i.first (take i.end i.bytes.items) };

    ghost invariant = { λ i. (i.first ≤ i.end) × (i.end ≤ 65535) × (length i.bytes.items ≡ 65535) };
}

impl Input {
    /// No record, and room for the longest one.
    pub fn new(alloc: Global) -> Result<Self, AllocError>
        ensures { IfOk result (λ i. i ≡ []) }
    {
        let bytes = vec![in alloc; 0u8; 65535]?;
        Ok(Input {
            bytes,
            first: 0,
            end: 0,
        })
    }

    /// The next record, in place of this one.
    pub fn replace(&mut self, bytes: &[u8])
        requires { length bytes.now ≤ 65535 }
        ensures { self.new ≡ bytes.now }
    {
        copy_into(&mut self.bytes, bytes);
        self.first = 0;
        self.end = bytes.len();
    }

    /// Nothing is left to read.
    pub fn clear(&mut self)
        ensures { self.new ≡ [] }
    {
        self.first = self.end;
    }

    /// What is not read yet.
    pub fn as_slice(&self) -> &[u8]
        ensures { result.now ≡ self.now }
    {
        &self.bytes[self.first..self.end]
    }

    /// So many characters are behind, or all that there are.
    pub fn skip(&mut self, count: u16)
        ensures { self.new ≡ drop count self.old }
    {
        let count = count as usize;
        if count < self.end - self.first {
            self.first += count;
        } else {
            self.first = self.end;
        }
    }

    /// The character at a column.
    fn at(&self, i: usize) -> u8
        ensures { result ≡ get_or self.now i 32 }
    {
        column(self.as_slice(), i)
    }

    /// The first column of a field that isn't blank.
    fn mark(&self, width: usize) -> usize
        requires { width ≤ 65535 }
        ensures within { result ≤ width }
        ensures rest { drop result (field width self.now) ≡ unblanked (field width self.now) }
    {
        for i in 0..width {
            if self.at(i) != b' ' {
                return i;
            }
        }
        width
    }

    /// The number of the digits from a column on.
    fn magnitude(&self, from: usize, width: usize) -> Option<u32>
        requires width { width ≤ 65535 }
        requires from { from ≤ width }
        ensures { result ≡ in_magnitude (digits_from 0 (drop from (field width self.now))) }
    {
        let mut n: u32 = 0;
        for i in from..width {
            let Some(digit) = digit_of(self.at(i)) else {
                return None;
            };
            let more = n as u64 * 10 + digit as u64;
            if more > 2147483647 {
                return None;
            }
            n = more as u32;
        }
        Some(n)
    }

    /// The value of the digits from a column on, at least one.
    fn value(&self, negative: bool, from: usize, width: usize) -> Result<i64, Trap>
        requires width { width ≤ 65535 }
        requires from { from ≤ width }
        ensures { result ≡ ranged (sign_of negative) (digits_of (drop from (field width self.now))) }
    {
        if from == width {
            return Err(Trap::BadField);
        }
        match self.magnitude(from, width) {
            None => Err(Trap::BadField),
            Some(n) => Ok(with_sign(negative, n)),
        }
    }

    /// The integer in a field.
    pub fn whole(&self, width: u16) -> Result<i64, Trap>
        ensures { result ≡ whole_of (field width self.now) }
    {
        let width = width as usize;
        let start = self.mark(width);
        if start == width {
            return Ok(0);
        }
        let sign = self.at(start);
        if sign == b'+' {
            return self.value(false, start + 1, width);
        }
        if sign == b'-' {
            return self.value(true, start + 1, width);
        }
        self.value(false, start, width)
    }

    /// The truth value in a field.
    pub fn truth(&self, width: u16) -> Result<bool, Trap>
        ensures { result ≡ truth_of (field width self.now) }
    {
        let width = width as usize;
        let start = self.mark(width);
        if start == width {
            return Err(Trap::BadField);
        }
        let letter = self.at(start);
        if letter == b'T' {
            Ok(true)
        } else if letter == b'F' {
            Ok(false)
        } else {
            Err(Trap::BadField)
        }
    }

    /// The next bytes, blanks behind the record's end, come into these, where all of them are characters; else none. How many.
    pub fn letters(&self, bytes: &mut [u8]) -> usize
        ensures within { result ≤ length bytes.old }
        ensures letters { All IsLetter (field result self.now) }
        ensures came { bytes.new ≡ field result self.now ++ drop result bytes.old }
    {
        let line = self.as_slice();
        let count = line.len().min(bytes.len());
        let front = &line[..count];
        if !are_characters(front) {
            return 0;
        }
        lay(bytes, front);
        bytes.len()
    }

    /// The code of the next character.
    pub fn letter(&self) -> Result<i64, Trap>
        ensures { result ≡ letter_of (field 1 self.now) }
    {
        let code = self.at(0);
        if code >= 32 && code <= 126 {
            Ok(code as i64)
        } else {
            Err(Trap::BadCharacter)
        }
    }
}
