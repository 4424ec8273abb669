// The rows of a unit's names among those of its program.
ghost use Rattle.std.specs.Prelude.{◌≡◌, ◌<◌, ℕ, List, Some, length};
ghost use Rattle.std.specs.HashMap.{get_by};
ghost use Rattle.std.specs.Str.{bytes_eq};
ghost use Rattle.std.proofs.Props.{props};

use std::collections::HashMap;

/// The rows of a unit's names: of each name that has places its row in the unit, and of each row of the unit its row in the program.
#[derive(Drop)]
pub struct UnitRows<'a> {
    pub rows: HashMap<&'a [u8], usize>,
    pub whole: Vec<usize>,
    ghost inside: { (x : List ℕ) (i : ℕ) → get_by (λ k. bytes_eq x k.now) rows ≡ Some i → i < length whole.items } by { Prim.hlevel props },
}
