// The lines of a text, without their comments, the insides of their quoted texts and the underscores that are dropped.
ghost use Rattle.std.specs.Prelude.{◌≡◌, ◌+◌, ◌<◌, ◌≤◌, length, drop, IfOk, IfSome, All};
ghost use Rattle.free_scan.specs.Lines.{joint as joint_of, has_no_more as has_no_more_on_line, last_underscore as last_underscore_of, line as line_of, line_size as size_of_line, part as part_of, more_of, IsPlace, IsWithin};

use crate::characters::{begins_with, count_blanks, is_blank, is_line_end, is_quote};
use crate::quotes::measure;
use ground::Dialect;
use std::alloc::AllocError;

/// A character of a line. `next` is the place of the byte that follows it in the text.
#[derive(Clone, Copy, Debug, PartialEq, Eq)]
pub struct Character {
    pub byte: u8,
    pub line: u32,
    pub next: usize,
}

/// What stands at a byte outside quotes, with how many of the bytes that follow go with it.
#[derive(Clone, Copy, Debug, PartialEq, Eq)]
pub enum Part {
    /// The line's end.
    Ends,
    /// Nothing of the line's characters.
    Dropped(usize),
    /// What joins an EFL line to the next.
    Joined(usize),
    /// A character; for an opening quote the quoted text goes with it.
    Kept(usize),
}

/// Where a line ends: the place and the number of the line that follows, and whether a byte 10 stands at the end.
#[derive(Clone, Copy, Debug, PartialEq, Eq)]
pub struct LineEnding {
    pub next: usize,
    pub number: u32,
    pub ended: bool,
}

/// The bytes before the next byte 10.
pub fn line_size(text: &[u8]) -> usize
    ensures size { result ≡ size_of_line text.now }
    ensures in_range { result ≤ length text.now }
{
    text.iter().take_while(|byte| **byte != b'\n').count()
}

fn has_no_more(rest: &[u8]) -> bool
    ensures { result ≡ has_no_more_on_line rest.now }
{
    for (i, byte) in rest.iter().enumerate() {
        if !is_blank(*byte) {
            return *byte == b'#' || is_line_end(&rest[i..]);
        }
    }
    true
}

fn joint(rest: &[u8]) -> Option<usize>
    ensures joint { result ≡ joint_of rest.now }
    ensures in_range { IfSome result (λ size. size ≤ length rest.now) }
{
    let size = line_size(rest);
    if size == rest.len() {
        return None;
    }
    let next = &rest[size + 1..];
    if begins_with(b'%', next) {
        return None;
    }
    Some(size + 1 + count_blanks(next))
}

fn last_underscore(dialect: Dialect, rest: &[u8]) -> Part
    ensures part { result ≡ last_underscore_of dialect rest.now }
    ensures in_range { more_of result ≤ length rest.now }
{
    match dialect {
        Dialect::Ratfor => Part::Kept(0),
        Dialect::Efl => match joint(rest) {
            Some(size) => Part::Joined(size),
            None => Part::Kept(0),
        },
    }
}

fn part_at(dialect: Dialect, byte: u8, rest: &[u8]) -> Part
    ensures part { result ≡ part_of dialect byte rest.now }
    ensures in_range { more_of result ≤ length rest.now }
{
    match byte {
        b'\n' => Part::Ends,
        b'\r' if begins_with(b'\n', rest) => Part::Dropped(0),
        b'#' => Part::Dropped(line_size(rest)),
        b'_' if has_no_more(rest) => last_underscore(dialect, rest),
        b'_' => Part::Dropped(0),
        b'\'' | b'"' => Part::Kept(measure(dialect, byte, rest).size),
        _ => Part::Kept(0),
    }
}

/// Reads the line that starts at a place of the text, in the line of this number, into `characters`.
pub fn read_line(
    dialect: Dialect,
    text: &[u8],
    start: usize,
    number: u32,
    characters: &mut Vec<Character>,
) -> Result<LineEnding, AllocError>
    requires short { length text.now < 4294967295 }
    requires in_text { start < length text.now }
    requires counted { number ≤ start + 1 }
    requires numbered { 0 < number }
    ensures line { IfOk result (λ end. line_of dialect 0 start number (drop start text.now)
        ≡ record { characters = characters.new.items; ending = end }) }
    ensures place { IfOk result (λ end. IsPlace (start + 1) (length text.now) end.next end.number) }
    ensures within { All (IsWithin start (length text.now)) characters.new.items }
{
    characters.clear();
    let mut at = start;
    let mut line = number;
    while at < text.len() {
        match part_at(dialect, text[at], &text[at + 1..]) {
            Part::Ends => {
                return Ok(LineEnding {
                    next: at + 1,
                    number: line + 1,
                    ended: true,
                });
            }
            Part::Dropped(more) => at += 1 + more,
            Part::Joined(more) => {
                at += 1 + more;
                line += 1;
            }
            Part::Kept(more) => {
                characters.push(Character {
                    byte: text[at],
                    line,
                    next: at + 1,
                })?;
                at += 1 + more;
            }
        }
    }
    Ok(LineEnding {
        next: at,
        number: line,
        ended: false,
    })
}
