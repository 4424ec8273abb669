// The labels of a unit, its spare name and its own.
ghost use Rattle.std.specs.Prelude.{◌≡◌, ℕ, ◌+◌, ◌<◌, ◌≤◌, [], length, IfOk, OnOk};
ghost use Rattle.f66_tree.specs.Units.{name_of};
ghost use Rattle.f66_tree.specs.Views.{header_of};
ghost use Rattle.name_alloc.specs.Numbers.{starting};
ghost use Rattle.name_alloc.specs.MadeNames.{next_name};
ghost use Rattle.rat_lower.specs.Emitted.{labels_past};

use f66_tree::{Header, Name};
use ground::{Memory, Text};
use name_alloc::Names;
use std::alloc::{AllocError, Global};
use std::marker::Model;

/// What the statements of a unit are made with: labels that its source lacks, the name that holds the values of its
/// switches, and the unit's own name, which holds the value of a function.
#[derive(Drop)]
pub struct Maker {
    alloc: Global,
    names: Names,
    spare: Name,
    own: Name,
}

impl Model for Maker {
    ghost use Rattle.std.specs.Prelude.{◌≡◌, length};
    ghost use Rattle.name_alloc.specs.Numbers.{made_first};
    ghost use Rattle.rat_lower.specs.Emitted.{Making};

    ghost Value = { Making };

    ghost view = { λ s. record { taken = s.names.labels.taken; made = length s.names.labels.made; spare = s.spare; own = s.own } };

    ghost invariant = { λ s. (s.names.labels.first ≡ 23000) × (s.names.labels.made ≡ made_first 23000 s.names.labels.taken (length s.names.labels.made)) };
}

impl Maker {
    /// The names are those of the source, the header is that of the unit, and `taken` are its labels.
    pub fn new(
        alloc: Global,
        mut names: Names,
        header: &Header,
        taken: &[u32],
    ) -> Result<Maker, Memory>
        requires none_made { names.numbers.made ≡ [] }
        requires few_names { length names.kept < 99999 }
        requires no_labels { names.labels ≡ starting 23000 }
        ensures made { IfOk result (λ maker. maker.made ≡ 0) }
        ensures spare { IfOk result (λ maker. maker.spare ≡ next_name names) }
        ensures own { IfOk result (λ maker. maker.own ≡ name_of (header_of header.now)) }
        ensures few { IfOk result (λ maker. length maker.taken ≤ length taken.now) }
        ensures labels { IfOk result (λ maker. (i : ℕ) → labels_past maker.taken i ≡ labels_past taken.now i) }
    {
        let spare = names.fresh_name()?;
        keep_labels(&mut names, taken)?;
        let own = own_name(header)?;
        Ok(Maker {
            alloc,
            names,
            spare,
            own,
        })
    }

    pub fn alloc(&self) -> Global {
        self.alloc
    }

    /// The name that holds the values of switches, once more.
    pub fn spare(&self) -> Result<Name, AllocError>
        ensures { IfOk result (λ name. name ≡ self.now.spare) }
    {
        self.spare.copy()
    }

    /// The unit's own name, once more.
    pub fn own(&self) -> Result<Name, AllocError>
        ensures { IfOk result (λ name. name ≡ self.now.own) }
    {
        self.own.copy()
    }

    /// The next label that the source lacks.
    pub fn fresh_label(&mut self) -> Result<u32, Memory>
        requires { self.old.made + length self.old.taken < 77000 }
        ensures label { IfOk result (λ label. label ≡ labels_past self.old.taken self.old.made) }
        ensures made { OnOk result (self.new.made ≡ self.old.made + 1) }
        ensures taken { OnOk result (self.new.taken ≡ self.old.taken) }
        ensures spare { OnOk result (self.new.spare ≡ self.old.spare) }
        ensures own { OnOk result (self.new.own ≡ self.old.own) }
    {
        self.names.fresh_label()
    }

    /// The next two labels.
    pub fn two_labels(&mut self) -> Result<(u32, u32), Memory>
        requires { self.old.made + length self.old.taken + 2 ≤ 77000 }
        ensures first { IfOk result (λ labels. labels.0 ≡ labels_past self.old.taken self.old.made) }
        ensures second { IfOk result (λ labels. labels.1 ≡ labels_past self.old.taken (self.old.made + 1)) }
        ensures made { OnOk result (self.new.made ≡ self.old.made + 2) }
        ensures taken { OnOk result (self.new.taken ≡ self.old.taken) }
        ensures spare { OnOk result (self.new.spare ≡ self.old.spare) }
        ensures own { OnOk result (self.new.own ≡ self.old.own) }
    {
        let first = self.fresh_label()?;
        let second = self.fresh_label()?;
        Ok((first, second))
    }

    /// The next three labels.
    pub fn three_labels(&mut self) -> Result<(u32, u32, u32), Memory>
        requires { self.old.made + length self.old.taken + 3 ≤ 77000 }
        ensures first { IfOk result (λ labels. labels.0 ≡ labels_past self.old.taken self.old.made) }
        ensures second { IfOk result (λ labels. labels.1 ≡ labels_past self.old.taken (self.old.made + 1)) }
        ensures third { IfOk result (λ labels. labels.2 ≡ labels_past self.old.taken (self.old.made + 2)) }
        ensures made { OnOk result (self.new.made ≡ self.old.made + 3) }
        ensures taken { OnOk result (self.new.taken ≡ self.old.taken) }
        ensures spare { OnOk result (self.new.spare ≡ self.old.spare) }
        ensures own { OnOk result (self.new.own ≡ self.old.own) }
    {
        let (first, second) = self.two_labels()?;
        let third = self.fresh_label()?;
        Ok((first, second, third))
    }
}

// The labels of the source are kept.
fn keep_labels(names: &mut Names, taken: &[u32]) -> Result<(), Memory>
    requires { names.old.labels ≡ starting 23000 }
    ensures first { OnOk result (names.new.labels.first ≡ 23000) }
    ensures made { OnOk result (names.new.labels.made ≡ []) }
    ensures few { OnOk result (length names.new.labels.taken ≤ length taken.now) }
    ensures labels { OnOk result ((i : ℕ) → labels_past names.new.labels.taken i ≡ labels_past taken.now i) }
{
    for label in taken {
        names.keep_label(*label)?;
    }
    Ok(())
}

// The name of a unit, which a main lacks.
fn own_name(header: &Header) -> Result<Name, AllocError>
    ensures { IfOk result (λ name. name ≡ name_of (header_of header.now)) }
{
    match header {
        Header::Sub(name, _) | Header::Func(_, name, _) => name.copy(),
        Header::Main | Header::Block => Ok(Name::new(Text::empty())),
    }
}
