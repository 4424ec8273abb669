// One of the units of a linked program, as its stack code goes by it.
ghost use Rattle.std.specs.Prelude.{◌≡◌, ◌<◌, Some, length};
ghost use Rattle.std.proofs.Props.{props};
ghost use Rattle.std.specs.List.{slice_get};
ghost use Rattle.f66_tree.specs.Units.{is_main};
ghost use Rattle.f66_tree.specs.Views.{lines_of, routine_of};
ghost use Rattle.linker.specs.CallViews.{units_in};
ghost use Rattle.code_layout.specs.Tabled.{callee_at, layout_in};

use crate::program_tables::ProgramTables;
use crate::spread::Spread;
use code_emit::{Base, Callee, NamedUnit};
use f66_tree::{Header, Name, Par, Stmt, Unit};
use ground::{Kind, Value};

/// The unit with this number, from 0 on, in a layout.
#[derive(Clone, Copy, Drop)]
pub struct LinkedUnit<'a> {
    pub tables: &'a ProgramTables<'a>,
    pub spread: &'a Spread,
    pub number: usize,
    ghost inside: { number < length tables.now.units.items } by { Prim.hlevel props },
}

impl<'a> LinkedUnit<'a> {
    /// The unit itself.
    fn unit(&self) -> &'a Unit
        ensures { slice_get (units_in self.now.tables.now.linked.now.calls) self.now.number ≡ Some (routine_of result.now) }
    {
        let tables = self.tables;
        let linked = tables.linked;
        let all = linked.units();
        let number = self.number;
        &all[number]
    }

    /// The unit with this number, and the places of a name there.
    fn called(&self, unit: usize, name: &Name) -> Callee
        requires { unit < length self.now.tables.now.units.items }
        ensures { result ≡ callee_at (layout_in self.now.tables.now self.now.spread.now) name.now unit }
    {
        let entry = match self.spread.starts.get(unit) {
            Some(start) => *start,
            None => self.spread.end,
        };
        let first = self.tables.first(unit, name);
        let size = self.tables.places(unit, name);
        Callee { entry, first, size }
    }
}

fn statements_of(unit: &Unit) -> &[Stmt]
    ensures { lines_of result.now ≡ (routine_of unit.now).lines }
{
    &unit.statements
}

fn is_main_unit(unit: &Unit) -> bool
    ensures { result ≡ is_main (routine_of unit.now).header }
{
    matches!(unit.header, Header::Main)
}

impl<'a> NamedUnit for LinkedUnit<'a> {
    ghost layout = { λ s. layout_in s.tables.now s.spread.now };

    ghost number = { λ s. s.number };

    fn statements(&self) -> &[Stmt] {
        statements_of(self.unit())
    }

    fn base(&self, name: &Name) -> Base {
        match self.tables.dummy(self.number, name) {
            Some(number) => Base::Dummy(number),
            None => Base::Own(
                self.tables.first(self.number, name),
                self.tables.places(self.number, name),
            ),
        }
    }

    fn kind(&self, name: &Name) -> Kind {
        self.tables.kind(self.number, name)
    }

    fn sizes(&self, name: &Name) -> &[Par] {
        self.tables.sizes(self.number, name)
    }

    fn callee(&self, name: &Name) -> Option<Callee> {
        match self.tables.linked.find(name.as_bytes()) {
            Some(unit) => Some(self.called(unit, name)),
            None => None,
        }
    }

    fn spare(&self) -> u32 {
        match self.spread.spares.get(self.number) {
            Some(spare) => *spare,
            None => self.spread.bound,
        }
    }

    fn loops(&self) -> u32 {
        match self.spread.loops.get(self.number) {
            Some(loops) => *loops,
            None => self.spread.bound,
        }
    }

    fn is_main(&self) -> bool {
        is_main_unit(self.unit())
    }

    fn presets(&self) -> &[(u32, Value)] {
        self.tables.presets.as_slice()
    }
}
