// Names and labels of a unit.
ghost use Rattle.std.specs.Prelude.{◌≡◌, ◌+◌, ◌<◌, ◌≤◌, [], ◌∷◌, length, min, false, OnOk, OnErr, IfOk, IfSome, if◌then◌else◌};
ghost use Rattle.std.specs.List.{list_any};
ghost use Rattle.std.specs.Str.{bytes_eq};
ghost use Rattle.name_alloc.specs.Numbers.{is_in, next_number, starting, taking, making};
ghost use Rattle.name_alloc.specs.MadeNames.{digit_at, digit_of, holds_number, made_name, number_of, is_used, is_free, intrinsic_names, next_name, unused, keeping, naming, labelling};

use crate::Numbers;
use f66_tree::Name;
use ground::{Memory, Text};
use std::alloc::{AllocError, Global};
use std::marker::Model;

/// The names and labels in use in a unit. Made names are a letter with five digits, made labels are from 23000 on.
#[derive(Debug, Drop)]
pub struct Names {
    letter: u8,
    kept: Vec<Name>,
    numbers: Numbers,
    labels: Numbers,
}

impl Model for Names {
    ghost use Rattle.std.specs.Prelude.{◌≡◌, true, length, ◌≤◌};
    ghost use Rattle.name_alloc.specs.MadeNames.{Used, covers};

    ghost Value = { Used };

    ghost view = { λ s. record { letter = s.letter; kept = s.kept.items; numbers = s.numbers; labels = s.labels } };

    ghost invariant = { λ s. (covers s.letter s.numbers.taken s.kept.items ≡ true) × (length s.numbers.taken ≤ length s.kept.items) × (s.numbers.first ≡ 1) × (s.labels.first ≡ 23000) };
}

impl Names {
    /// Made names begin with Z. It takes no memory.
    pub fn new(alloc: Global) -> Names
        ensures { result ≡ unused }
    {
        Names {
            letter: b'Z',
            kept: Vec::new(alloc),
            numbers: Numbers::new(alloc, 1),
            labels: Numbers::new(alloc, 23000),
        }
    }

    /// For units and common blocks: made names begin with X. It takes no memory.
    pub fn external(alloc: Global) -> Names
        ensures letter { result.letter ≡ 88 }
        ensures kept { result.kept ≡ [] }
        ensures numbers { result.numbers ≡ starting 1 }
        ensures labels { result.labels ≡ starting 23000 }
    {
        Names {
            letter: b'X',
            kept: Vec::new(alloc),
            numbers: Numbers::new(alloc, 1),
            labels: Numbers::new(alloc, 23000),
        }
    }

    /// How many names were made.
    pub fn made(&self) -> u32
        ensures { result ≡ min (length self.now.numbers.made) 4294967295 }
    {
        self.numbers.made()
    }

    /// How many names of the source are kept.
    pub fn taken(&self) -> u32
        ensures { result ≡ min (length self.now.kept) 4294967295 }
    {
        match u32::try_from(self.kept.len()) {
            Ok(count) => count,
            Err(_) => u32::MAX,
        }
    }

    pub fn made_labels(&self) -> u32
        ensures { result ≡ min (length self.now.labels.made) 4294967295 }
    {
        self.labels.made()
    }

    pub fn taken_labels(&self) -> u32
        ensures { result ≡ min (length self.now.labels.taken) 4294967295 }
    {
        self.labels.taken()
    }

    /// Takes a label of the source. A label that was made before is not taken back: the caller keeps all labels of a
    /// unit before it makes any, or knows that they differ.
    pub fn keep_label(&mut self, label: u32) -> Result<(), Memory>
        requires { is_in self.old.labels.made label ≡ false }
        ensures taken { OnOk result (self.new ≡ labelling self.old (taking self.old.labels label)) }
        ensures kept { OnErr result (self.new ≡ self.old) }
    {
        self.labels.take(label)?;
        Ok(())
    }

    /// The next label that no statement of the source has, from 23000 on.
    pub fn fresh_label(&mut self) -> Result<u32, Memory>
        requires { length self.old.labels.made + length self.old.labels.taken < 77000 }
        ensures label { IfOk result (λ label. label ≡ next_number self.old.labels) }
        ensures fresh { IfOk result (λ label. (is_in self.old.labels.taken label ≡ false) × (is_in self.old.labels.made label ≡ false)) }
        ensures limit { IfOk result (λ label. label ≤ 99999) }
        ensures made { OnOk result (self.new ≡ labelling self.old (making self.old.labels)) }
        ensures kept { OnErr result (self.new ≡ self.old) }
    {
        let label = self.labels.make()?;
        Ok(label)
    }

    /// Keeps a name of the source as it stands, whatever it is. A name that was made before is not taken back: the caller
    /// keeps all names of a unit before it makes any, or knows that they differ.
    pub fn keep_name(&mut self, name: &Name) -> Result<(), AllocError>
        ensures used { OnOk result (self.new ≡ keeping self.old name.now) }
        ensures kept { OnErr result (self.new ≡ self.old) }
    {
        let copy = name.copy()?;
        self.kept.push(copy)?;
        let Some(number) = number_of(self.letter, name.as_bytes()) else {
            return Ok(());
        };
        match self.numbers.take(number) {
            Ok(()) => Ok(()),
            Err(error) => {
                self.kept.pop();
                Err(error)
            }
        }
    }

    /// Keeps a free name of at most six characters, and else makes one. The intrinsic names are never free.
    pub fn keep_or_rename(&mut self, name: &Text) -> Result<Name, Memory>
        requires { length self.old.numbers.made + length self.old.kept < 99999 }
        ensures name { IfOk result (λ answer. answer ≡ (if is_free self.old name.now then name.now else next_name self.old)) }
        ensures fresh { IfOk result (λ answer. is_used self.old answer ≡ false) }
        ensures used { OnOk result (self.new ≡ (if is_free self.old name.now then keeping self.old name.now else naming self.old)) }
        ensures kept { OnErr result (self.new ≡ self.old) }
    {
        if self.can_keep(name.as_bytes()) {
            return Ok(self.keep(name)?);
        }
        self.fresh_name()
    }

    /// The next name that no unit of the source has, from 1 on.
    pub fn fresh_name(&mut self) -> Result<Name, Memory>
        requires { length self.old.numbers.made + length self.old.kept < 99999 }
        ensures name { IfOk result (λ answer. answer ≡ next_name self.old) }
        ensures fresh { IfOk result (λ answer. is_used self.old answer ≡ false) }
        ensures used { OnOk result (self.new ≡ naming self.old) }
        ensures kept { OnErr result (self.new ≡ self.old) }
    {
        let number = self.numbers.make()?;
        Ok(numbered(self.letter, number))
    }

    fn can_keep(&self, name: &[u8]) -> bool
        ensures { result ≡ is_free self.now name.now }
    {
        name.len() <= 6
            && !is_intrinsic(name)
            && !has_name(&self.kept, name)
            && !self.has_made(name)
    }

    fn has_made(&self, name: &[u8]) -> bool
        ensures { result ≡ holds_number self.now.numbers.made (number_of self.now.letter name.now) }
    {
        match number_of(self.letter, name) {
            Some(number) => self.numbers.is_made(number),
            None => false,
        }
    }

    fn keep(&mut self, name: &Text) -> Result<Name, AllocError>
        requires { is_used self.old name.now ≡ false }
        ensures name { IfOk result (λ answer. answer ≡ name.now) }
        ensures fresh { IfOk result (λ answer. is_used self.old answer ≡ false) }
        ensures used { OnOk result (self.new ≡ keeping self.old name.now) }
        ensures kept { OnErr result (self.new ≡ self.old) }
    {
        let answer = name_of(name)?;
        self.keep_name(&answer)?;
        Ok(answer)
    }
}

fn name_of(text: &Text) -> Result<Name, AllocError>
    ensures { IfOk result (λ name. name ≡ text.now) }
{
    Ok(Name::new(text.clone()?))
}

// The made name with this number.
fn numbered(letter: u8, number: u32) -> Name
    ensures { result ≡ made_name letter number }
{
    let text = [
        letter,
        digit(number, 10_000),
        digit(number, 1_000),
        digit(number, 100),
        digit(number, 10),
        digit(number, 1),
    ];
    Name::new(Text::short(&text))
}

fn has_name(names: &[Name], name: &[u8]) -> bool
    ensures { result ≡ list_any (bytes_eq name.now) names.now }
{
    for other in names {
        if name == other.as_bytes() {
            return true;
        }
    }
    false
}

fn is_intrinsic(name: &[u8]) -> bool
    ensures { result ≡ list_any (bytes_eq name.now) intrinsic_names }
{
    name == b"IABS".as_slice()
        || name == b"MOD".as_slice()
        || name == b"ISIGN".as_slice()
        || name == b"IDIM".as_slice()
        || name == b"MAX0".as_slice()
        || name == b"MIN0".as_slice()
}

// The digit of a number at a unit, by its code.
fn digit(number: u32, unit: u32) -> u8
    requires { 0 < unit }
    ensures { result ≡ digit_at number unit }
{
    48 + (number / unit % 10) as u8
}

// The number of a name that is this letter with five digits.
fn number_of(letter: u8, name: &[u8]) -> Option<u32>
    ensures { result ≡ number_of letter name.now }
{
    if name.len() != 6 || name[0] != letter {
        return None;
    }
    let mut number = digit_of(name[1])?;
    number = number * 10 + digit_of(name[2])?;
    number = number * 10 + digit_of(name[3])?;
    number = number * 10 + digit_of(name[4])?;
    number = number * 10 + digit_of(name[5])?;
    Some(number)
}

fn digit_of(code: u8) -> Option<u32>
    ensures value { result ≡ digit_of code }
    ensures small { IfSome result (λ digit. digit ≤ 9) }
{
    if b'0' <= code && code <= b'9' {
        Some(u32::from(code - b'0'))
    } else {
        None
    }
}
