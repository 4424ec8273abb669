// A set of numbers.
ghost use Rattle.std.specs.Prelude.{◌≡◌, [], length, OnOk, OnErr};
ghost use Rattle.name_alloc.specs.Numbers.{is_in, with_number};

use indexmap::IndexSet;
use std::alloc::{AllocError, Global};
use std::marker::Model;

/// Numbers in the order in which they came, each once. Contracts see the list.
#[derive(Debug, Drop)]
pub struct NumberSet {
    numbers: IndexSet<u32>,
}

impl Model for NumberSet {
    ghost use Rattle.std.specs.Prelude.{List, ℕ};

    ghost Value = { List ℕ };

    ghost view = { λ s. s.numbers.keys };
}

impl NumberSet {
    /// No numbers. It takes no memory.
    pub fn new(alloc: Global) -> NumberSet
        ensures { result ≡ [] }
    {
        NumberSet {
            numbers: IndexSet::new(alloc),
        }
    }

    pub fn len(&self) -> usize
        ensures { result ≡ length self.now }
    {
        self.numbers.len()
    }

    #[tactic(auto, using(crate::proofs::Sets::set_steps))]
    pub fn contains(&self, number: u32) -> bool
        ensures { result ≡ is_in self.now number }
    {
        self.numbers.contains(&number)
    }

    #[tactic(auto, using(crate::proofs::Sets::set_steps))]
    pub fn insert(&mut self, number: u32) -> Result<(), AllocError>
        ensures inserted { OnOk result (self.new ≡ with_number number self.old) }
        ensures kept { OnErr result (self.new ≡ self.old) }
    {
        self.numbers.insert(number)?;
        Ok(())
    }
}
