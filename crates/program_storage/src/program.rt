// The numbers of the storage units of a program's places.
ghost use Rattle.std.specs.Prelude.{◌≡◌, ◌<◌, ◌+◌, ◌^◌, ℕ, List, Some, length, slice_index};
ghost use Rattle.std.proofs.Props.{props};
ghost use Rattle.program_storage.specs.Parts.{find_in};

use crate::unit_rows::UnitRows;

/// The numbers of the storage units of a program's places: of the names of each unit their rows, of each row how many places it has, and
/// the number of the first; and how many storage units there are.
#[derive(Drop)]
pub struct ProgramStorage<'a> {
    pub units: Vec<UnitRows<'a>>,
    pub sizes: Vec<usize>,
    pub firsts: Vec<usize>,
    pub total: usize,
    ghost inside: { (u : ℕ) (x : List ℕ) (i : ℕ) → find_in units.items u x ≡ Some i → (i < length sizes.items) × (i < length firsts.items) } by { Prim.hlevel props },
    ghost fits: { (u : ℕ) (x : List ℕ) (i o : ℕ) → find_in units.items u x ≡ Some i → o < slice_index sizes.items i → slice_index firsts.items i + o < 2 ^ 64 } by { Prim.hlevel props },
}
