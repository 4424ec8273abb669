// Numbers that are in use, and the next ones that are not.
ghost use Rattle.std.specs.Prelude.{◌≡◌, ◌+◌, ◌^◌, ◌<◌, ◌≤◌, length, min, false, OnOk, OnErr, IfOk};
ghost use Rattle.name_alloc.specs.Numbers.{is_in, above, free_number, next_number, starting, taking, making};

use crate::NumberSet;
use std::alloc::{AllocError, Global};
use std::marker::Model;

/// The numbers that are taken, in their order, and those that were made, of which the last is below `next`.
#[derive(Debug, Drop)]
pub struct Numbers {
    first: u32,
    taken: NumberSet,
    made: Vec<u32>,
    next: u32,
}

impl Model for Numbers {
    ghost use Rattle.std.specs.Prelude.{◌≡◌, ℕ, ◌+◌, ◌≤◌, false, length};
    ghost use Rattle.name_alloc.specs.Numbers.{Numbering, is_in, behind, above};

    ghost Value = { Numbering };

    ghost view = { λ s. record { first = s.first; taken = s.taken; made = s.made.items } };

    ghost invariant = { λ s. (s.next ≡ behind s.first s.made.items) × (s.next + above s.next s.taken ≤ s.first + length s.made.items + length s.taken) × ((n : ℕ) → s.next ≤ n → is_in s.made.items n ≡ false) };
}

impl Numbers {
    /// Numbers from `first` on. It takes no memory.
    pub fn new(alloc: Global, first: u32) -> Self
        ensures { result ≡ starting first }
    {
        Numbers {
            first,
            taken: NumberSet::new(alloc),
            made: Vec::new(alloc),
            next: first,
        }
    }

    /// How many were made, at most the greatest u32.
    pub fn made(&self) -> u32
        ensures { result ≡ min (length self.now.made) 4294967295 }
    {
        count(self.made.len())
    }

    /// How many are taken, at most the greatest u32.
    pub fn taken(&self) -> u32
        ensures { result ≡ min (length self.now.taken) 4294967295 }
    {
        count(self.taken.len())
    }

    pub fn is_made(&self, number: u32) -> bool
        ensures { result ≡ is_in self.now.made number }
    {
        self.made.contains(&number)
    }

    /// Takes a number of the source.
    pub fn take(&mut self, number: u32) -> Result<(), AllocError>
        ensures taken { OnOk result (self.new ≡ taking self.old number) }
        ensures kept { OnErr result (self.new ≡ self.old) }
    {
        self.taken.insert(number)
    }

    /// The next number that is not taken.
    pub fn make(&mut self) -> Result<u32, AllocError>
        requires { self.old.first + length self.old.made + length self.old.taken < 4294967295 }
        ensures number { IfOk result (λ number. number ≡ next_number self.old) }
        ensures fresh { IfOk result (λ number. (is_in self.old.taken number ≡ false) × (is_in self.old.made number ≡ false)) }
        ensures low { IfOk result (λ number. number ≤ self.old.first + length self.old.made + length self.old.taken) }
        ensures made { OnOk result (self.new ≡ making self.old) }
        ensures kept { OnErr result (self.new ≡ self.old) }
    {
        let number = next_free(&self.taken, self.next);
        self.made.push(number)?;
        self.next = number + 1;
        Ok(number)
    }
}

fn count(length: usize) -> u32
    ensures { result ≡ min length 4294967295 }
{
    match u32::try_from(length) {
        Ok(count) => count,
        Err(_) => u32::MAX,
    }
}

// The least number from `first` on that is not taken.
fn next_free(taken: &NumberSet, first: u32) -> u32
    requires { first + above first taken.now < 4294967295 }
    ensures { result ≡ free_number taken.now first }
{
    let mut number = first;
    for _ in 0..taken.len() {
        if !taken.contains(number) {
            return number;
        }
        number += 1;
    }
    number
}
