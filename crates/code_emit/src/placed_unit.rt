// A unit whose statements have their places, made of one whose names have theirs.
ghost use Rattle.std.specs.Prelude.{◌≡◌, ℕ, ◌+◌, ◌<◌, ◌^◌, nat_eq, unwrap_or, IfOk};
ghost use Rattle.std.specs.HashMap.{get};
ghost use Rattle.std.proofs.Props.{props};
ghost use Rattle.code_gen.specs.Statements.{unit_size};
ghost use Rattle.code_emit.specs.Places.{starts};
ghost use Rattle.code_emit.specs.Plans.{formats_count, plan_in};
ghost use Rattle.code_emit.specs.Turns.{AreNoted, AreNumbered};

use crate::coded_unit::{Base, Callee, CodedUnit, NamedUnit, Turn};
use crate::labels::{Labels, labels_of};
use crate::places::{Places, places_of};
use crate::plans::{Plans, plans_of};
use crate::rooms::plus;
use f66_tree::{Name, Par, Stmt};
use ground::{Kind, Value};
use std::alloc::{AllocError, Global};

/// A unit with its labels, the places of its statements, the plans of its formats, and its entry.
#[derive(Drop)]
pub struct PlacedUnit<'a, N: NamedUnit> {
    pub named: &'a N,
    pub labels: Labels<'a>,
    pub places: Places,
    pub plans: Plans,
    pub entry: u32,
    ghost numbered: { AreNumbered labels.numbers ((N.layout named.now).lines (N.number named.now)) } by { Prim.hlevel props },
    ghost ended: { AreNoted labels.turns 0 ((N.layout named.now).lines (N.number named.now)) } by { Prim.hlevel props },
    ghost placed: { places.starts.items ≡ starts (N.layout named.now) (N.number named.now) } by { Prim.hlevel props },
    ghost sized: { places.size ≡ unit_size (N.layout named.now) (N.number named.now) } by { Prim.hlevel props },
    ghost planned: { (l : ℕ) → unwrap_or (get nat_eq plans.numbers l) 0 ≡ (N.layout named.now).plan (N.number named.now) l } by { Prim.hlevel props },
    ghost entered: { entry ≡ (N.layout named.now).entry (N.number named.now) } by { Prim.hlevel props },
    ghost fits: { entry + places.size < 2 ^ 32 } by { Prim.hlevel props },
}

impl<'a, N: NamedUnit> PlacedUnit<'a, N> {
    /// A unit whose code begins at an entry, and whose first format has a number.
    pub fn new(
        alloc: Global,
        named: &'a N,
        entry: u32,
        plan: u32,
    ) -> Result<PlacedUnit<'a, N>, AllocError>
        requires entered { entry ≡ (N.layout named.now).entry (N.number named.now) }
        requires planned { (l : ℕ) → (N.layout named.now).plan (N.number named.now) l ≡ plan_in plan ((N.layout named.now).lines (N.number named.now)) l }
        ensures named { IfOk result (λ unit. unit.named.now ≡ named.now) }
        ensures plans { IfOk result (λ unit. unit.plans.end ≡ plan + formats_count ((N.layout named.now).lines (N.number named.now))) }
    {
        let statements = named.statements();
        let labels = labels_of(alloc, statements)?;
        let places = places_of(alloc, named, &labels)?;
        let plans = plans_of(alloc, statements, plan)?;
        plus(entry, places.size)?;
        Ok(PlacedUnit {
            named,
            labels,
            places,
            plans,
            entry,
        })
    }
}

impl<'a, N: NamedUnit> NamedUnit for PlacedUnit<'a, N> {
    ghost layout = { λ s. N.layout s.named.now };

    ghost number = { λ s. N.number s.named.now };

    fn statements(&self) -> &[Stmt] {
        self.named.statements()
    }

    fn base(&self, name: &Name) -> Base {
        self.named.base(name)
    }

    fn kind(&self, name: &Name) -> Kind {
        self.named.kind(name)
    }

    fn sizes(&self, name: &Name) -> &[Par] {
        self.named.sizes(name)
    }

    fn callee(&self, name: &Name) -> Option<Callee> {
        self.named.callee(name)
    }

    fn spare(&self) -> u32 {
        self.named.spare()
    }

    fn loops(&self) -> u32 {
        self.named.loops()
    }

    fn is_main(&self) -> bool {
        self.named.is_main()
    }

    fn presets(&self) -> &[(u32, Value)] {
        self.named.presets()
    }
}

impl<'a, N: NamedUnit> CodedUnit for PlacedUnit<'a, N> {
    fn place(&self, statement: usize) -> u32 {
        match self.places.starts.get(statement) {
            Some(start) => self.entry + *start,
            None => self.entry + (self.places.size - 1),
        }
    }

    fn target(&self, label: u32) -> u32 {
        match self.labels.numbers.get(&label) {
            Some(number) => self.place(*number),
            None => self.entry + (self.places.size - 1),
        }
    }

    fn turns(&self, statement: &Stmt) -> &[Turn<'_>] {
        self.labels.ending(statement)
    }

    fn plan(&self, label: u32) -> u32 {
        match self.plans.numbers.get(&label) {
            Some(plan) => *plan,
            None => 0,
        }
    }
}
