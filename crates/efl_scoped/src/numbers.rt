// Numbers of pairs, of which equal ones alone share theirs.
ghost use Rattle.std.specs.Prelude.{◌≡◌, IfOk, OnOk, Some};
ghost use Rattle.efl_scoped.specs.Numbers.{number_in, AreBelow, AreAbove, AreDistinct, Grows};

use std::alloc::{AllocError, Global};
use std::collections::HashMap;

/// The number of integer.
pub const INTEGER: usize = 0;

/// The number of logical.
pub const LOGICAL: usize = 1;

/// The number from which structures go on, member by member.
pub const STRUCTURE: usize = 2;

/// The number from which arrays go on.
pub const ARRAY: usize = 3;

/// The first number of a pair.
const FIRST: usize = 4;

/// Pairs with their numbers, which contracts see by `number_in`.
#[derive(Drop)]
pub struct Pairs {
    pub table: HashMap<(usize, usize), usize>,
    ghost below: { AreBelow table },
    ghost above: { AreAbove (number_in table) },
    ghost distinct: { AreDistinct (number_in table) },
}

impl Pairs {
    /// No pairs. It takes no memory.
    pub fn new(alloc: Global) -> Pairs {
        Pairs {
            table: HashMap::new(alloc),
        }
    }

    /// The number of a pair, which it gets where it has none.
    pub fn number(&mut self, a: usize, b: usize) -> Result<usize, AllocError>
        ensures numbered { IfOk result (λ n. number_in self.new.table a b ≡ Some n) }
        ensures kept { OnOk result (Grows (number_in self.old.table) (number_in self.new.table)) }
    {
        if let Some(n) = self.table.get(&(a, b)) {
            return Ok(*n);
        }
        let n = self.table.len() + FIRST;
        self.table.insert((a, b), n)?;
        Ok(n)
    }
}
