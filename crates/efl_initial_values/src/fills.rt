// Which places presets have filled so far, by ranges of the places of each owner.
ghost use Rattle.std.specs.Prelude.{◌≡◌, ◌<◌, ◌+◌, ◌^◌, ℕ, Some, Option, false, nat_lt, not, List, [], ◌∷◌, OnOk, IfOk};
ghost use Rattle.std.specs.List.{list_any};
ghost use Rattle.rule_table.specs.Words.{is_some_and};
ghost use Rattle.efl_tree.specs.Syntax.{EflProcedure};
ghost use Rattle.efl_tree.specs.Views.{preset_of};
ghost use Rattle.efl_scope.specs.Scopes.{meaning};
ghost use Rattle.efl_types.specs.Signatures.{Names, variable_type};
ghost use Rattle.efl_types.specs.Presets.{Owner, Filled, meet, first_name, owner_by, filled as filled_seen};
ghost use Rattle.efl_scoped.specs.Numbers.{Table};
ghost use Rattle.efl_expressions.specs.TypeViews.{IsType};
ghost use Rattle.efl_initial_values.specs.Fills.{ends_of, AreCodes, Notes, LastBefore, Meets, Extends, IsShort, range_of};

use crate::counts::count_values;
use crate::offsets::offset;
use efl_expressions::{DataType, Structures};
use efl_names::is_large;
use efl_tree::EflPreset;
use std::alloc::{AllocError, Global};
use std::collections::BTreeMap;

/// Ranges of places that were filled: the end of each by the number of its owner and its first place. Contracts see by `Notes` which they are.
#[derive(Drop)]
pub struct Fills {
    pub ends: BTreeMap<(usize, u64), u64>,
}

impl Fills {
    /// No ranges. It takes no memory.
    pub fn new(alloc: Global) -> Fills
        ensures { (code : Owner → Option ℕ) → Notes code (ends_of result.ends) [] }
    {
        Fills {
            ends: BTreeMap::new(alloc),
        }
    }

    /// Whether a range of the places of an owner meets one that was noted. If not, it is noted too.
    pub fn fill(&mut self, owner: usize, first: u64, many: u64) -> Result<bool, AllocError>
        ensures { (code : Owner → Option ℕ) (f : Filled) (fs : List Filled) → AreCodes code → code f.owner ≡ Some owner → f.first ≡ first → f.many ≡ many → first + many < 2 ^ 64 →
            Notes code (ends_of self.old.ends) fs →
            IfOk result (λ met. (met ≡ list_any (meet f) fs) × (met ≡ false → Notes code (ends_of self.new.ends) (f ∷ fs))) }
    {
        let end = first.saturating_add(many);
        if self.meets(owner, first, end) {
            return Ok(true);
        }
        self.note(owner, first, end)?;
        Ok(false)
    }

    /// Whether one that begins before the end of a range ends behind its first place.
    fn meets(&self, owner: usize, first: u64, end: u64) -> bool
        ensures { Meets (ends_of self.now.ends) owner first end result }
    {
        match self.last_before(owner, end) {
            None => false,
            Some(last) => first < last,
        }
    }

    /// The end of the last range that begins before a place.
    fn last_before(&self, owner: usize, place: u64) -> Option<u64>
        ensures { LastBefore (ends_of self.now.ends) owner place result }
    {
        match self.ends.range((owner, 0)..(owner, place)).next_back() {
            None => None,
            Some((_first, end)) => Some(*end),
        }
    }

    /// A range comes. Of two with the same first place the longer one stays.
    fn note(&mut self, owner: usize, first: u64, end: u64) -> Result<(), AllocError>
        ensures { OnOk result (Extends (ends_of self.old.ends) owner first end (ends_of self.new.ends)) }
    {
        if self.has_longer(owner, first, end) {
            return Ok(());
        }
        self.ends.insert((owner, first), end)?;
        Ok(())
    }

    fn has_longer(&self, owner: usize, first: u64, end: u64) -> bool
        ensures { result ≡ is_some_and (λ e. not (nat_lt e end)) (ends_of self.now.ends owner first) }
    {
        match self.ends.get(&(owner, first)) {
            None => false,
            Some(last) => *last >= end,
        }
    }
}

/// A range of places of an owner.
#[derive(Clone, Copy, Drop)]
pub struct Range {
    pub first: u64,
    pub many: u64,
}

/// The places that a preset fills: those from its place on, up to the end of its variable. What is too large is not asked.
pub fn filled(structures: &Structures, variable: &DataType, preset: &EflPreset) -> Option<Range>
    ensures { (f : Table) (k : ℕ) (u : EflProcedure) (n : Names) → let p = preset_of preset.now in let x = first_name p.place in
        IsType f structures.now.list.items (variable_type n x) variable.now → (filled_seen k u n p ≡ range_of (owner_by k u x (meaning n.blocks x)) result) × IsShort result }
{
    if is_large(variable.summary) {
        return None;
    }
    match offset(structures, variable, &preset.place) {
        None => None,
        Some(offset) => Some(Range {
            first: offset,
            many: count_values(&preset.values).min(variable.summary.places.saturating_sub(offset)),
        }),
    }
}
