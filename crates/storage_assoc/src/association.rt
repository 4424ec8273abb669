// The numbers of the storage units of a unit's places.
ghost use Rattle.std.specs.Prelude.{◌≡◌, ◌<◌, ◌+◌, ◌^◌, ℕ, List, Some, length, slice_index};
ghost use Rattle.std.specs.HashMap.{get_by};
ghost use Rattle.std.specs.Str.{bytes_eq};
ghost use Rattle.std.proofs.Props.{props};

use std::collections::HashMap;

/// The numbers of the storage units of a unit's places: of each name its row, and of each row how many places it has, and the
/// number of the first; and how many storage units there are.
#[derive(Drop)]
pub struct Association<'a> {
    pub rows: HashMap<&'a [u8], usize>,
    pub sizes: Vec<usize>,
    pub firsts: Vec<usize>,
    pub total: usize,
    ghost inside: { (x : List ℕ) (i : ℕ) → get_by (λ k. bytes_eq x k.now) rows ≡ Some i → (i < length sizes.items) × (i < length firsts.items) } by { Prim.hlevel props },
    ghost fits: { (x : List ℕ) (i o : ℕ) → get_by (λ k. bytes_eq x k.now) rows ≡ Some i → o < slice_index sizes.items i → slice_index firsts.items i + o < 2 ^ 64 } by { Prim.hlevel props },
}
