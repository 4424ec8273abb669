// A linked program with the tables of its units.
ghost use Rattle.std.specs.Prelude.{◌≡◌, ◌<◌, ◌^◌, ℕ, List, Some, length, map, slice_index_or, unwrap_or};
ghost use Rattle.std.proofs.Props.{props};
ghost use Rattle.std.specs.List.{slice_get};
ghost use Rattle.f66_tree.specs.Units.{dummies_of, kind_of, position, sizes_of};
ghost use Rattle.f66_tree.specs.Views.{par_of, routine_of};
ghost use Rattle.f66_program.specs.Association.{size_in};
ghost use Rattle.f66_program.specs.Mentions.{context_of};
ghost use Rattle.linker.specs.CallViews.{units_in};
ghost use Rattle.program_storage.specs.Numbers.{number_in_program};
ghost use Rattle.whole_program.specs.Linkage.{context_or, linkage_of};
ghost use Rattle.whole_program.specs.Linked.{found_in};
ghost use Rattle.code_layout.specs.declared.unit_tables.UnitTables.{UnitTables as Tables};
ghost use Rattle.code_layout.specs.Same.{AreSame};

use crate::unit_tables::UnitTables;
use f66_tree::{Name, Par};
use ground::{Kind, Value};
use whole_program::Linked;

/// A linked program, the tables of its units, and the initial values of its storage units.
#[derive(Drop)]
pub struct ProgramTables<'a> {
    pub linked: &'a Linked<'a>,
    pub units: Vec<UnitTables<'a>>,
    pub presets: Vec<(u32, Value)>,
    ghost many: { length units.items ≡ length linked.now.calls.units.now } by { Prim.hlevel props },
    ghost same: { (u : ℕ) (x : Tables) → u < length units.items → x ≡ slice_index_or units.items u x → AreSame (context_of (routine_of x.unit.now)) (context_or (slice_get (units_in linked.now.calls) u)) } by { Prim.hlevel props },
    ghost found: { (x : List ℕ) (v : ℕ) → found_in linked.now x ≡ Some v → v < length units.items } by { Prim.hlevel props },
    ghost small: { (u : ℕ) (x : List ℕ) (o n : ℕ) → number_in_program linked.now.storage u x o ≡ Some n → n < 2 ^ 32 } by { Prim.hlevel props },
}

impl<'a> ProgramTables<'a> {
    /// The number of the first storage unit of a name of a unit, or 0 where it has none.
    pub(crate) fn first(&self, unit: usize, name: &Name) -> u32
        ensures { result ≡ unwrap_or (number_in_program self.now.linked.now.storage unit name.now 0) 0 }
    {
        match self.linked.number(unit, name.as_bytes(), 0) {
            Some(number) => number as u32,
            None => 0,
        }
    }

    /// How many places a name of a unit has.
    pub(crate) fn places(&self, unit: usize, name: &Name) -> u32
        requires { unit < length self.now.units.items }
        ensures { result ≡ size_in ((linkage_of self.now.linked.now).context unit) name.now }
    {
        let units = self.units.as_slice();
        units[unit].places(name)
    }

    /// The dimensions of a name of a unit.
    pub(crate) fn sizes(&self, unit: usize, name: &Name) -> &'a [Par]
        requires { unit < length self.now.units.items }
        ensures { map par_of result.now ≡ sizes_of name.now ((linkage_of self.now.linked.now).context unit).notes }
    {
        let units = self.units.as_slice();
        units[unit].sizes(name)
    }

    /// The type of a name of a unit.
    pub(crate) fn kind(&self, unit: usize, name: &Name) -> Kind
        requires { unit < length self.now.units.items }
        ensures { result ≡ kind_of ((linkage_of self.now.linked.now).context unit) name.now }
    {
        let units = self.units.as_slice();
        units[unit].kind(name)
    }

    /// Which dummy of a unit a name is.
    pub(crate) fn dummy(&self, unit: usize, name: &Name) -> Option<u32>
        requires { unit < length self.now.units.items }
        ensures { result ≡ position name.now (dummies_of ((linkage_of self.now.linked.now).context unit).header) }
    {
        let units = self.units.as_slice();
        units[unit].dummy(name)
    }
}
