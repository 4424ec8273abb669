// What is known behind the parts that were read.
ghost use Rattle.std.specs.Prelude.{◌≡◌, ℕ, ◌+◌, nat_lt, ◌&&◌, List, [], ◌∷◌, ◌++◌, map, is_some, OnOk};
ghost use Rattle.efl_tree.specs.Syntax.{EflProcedure};
ghost use Rattle.efl_tree.specs.Views.{preset_of};
ghost use Rattle.efl_scope.specs.Parts.{Part};
ghost use Rattle.efl_types.specs.TypeRules.{part_faults, presets_of};
ghost use Rattle.efl_scoped.specs.Told.{capped};
ghost use Rattle.efl_expressions.specs.FirstRule.{first_rule};
ghost use Rattle.efl_reading.specs.Reading.{Behind, NotesPresets, fault_at};
ghost use Rattle.efl_reading.specs.Alone.{GiveNone, first_alone};

use crate::Site;
use crate::presets::{fill_presets, is_top, own_rules, with_earlier};
use efl_blocks::{Types, names_within};
use efl_initial_values::{Fills, count_presets, passes_limit};
use efl_scoped::Pairs;
use efl_tree::EflPreset;
use efl_types::TypeRule;
use ground::{Fault, Place};
use std::alloc::{AllocError, Global};

/// What a walk knows behind the parts that it has read. Contracts see it by `Behind`.
#[derive(Drop)]
pub struct Progress {
    /// The first fault of these parts.
    pub fault: Option<Fault>,
    /// Which places of which owners are filled.
    pub fills: Fills,
    /// The numbers of owners.
    pub owners: Pairs,
    /// How many initial values were given, up to one more than a program may give.
    pub values: u64,
}

impl Progress {
    /// Before the first part. It takes no memory.
    pub fn new(alloc: Global) -> Progress
        ensures { (us : List EflProcedure) → Behind us [] result }
    {
        Progress {
            fault: None,
            fills: Fills::new(alloc),
            owners: Pairs::new(alloc),
            values: 0,
        }
    }

    /// Whether a fault is there. What stands behind it counts for nothing.
    pub fn is_done(&self) -> bool
        ensures { result ≡ is_some self.now.fault }
    {
        self.fault.is_some()
    }

    /// A part without initial values comes, with the first rule that it breaks.
    pub fn note(&mut self, place: Place, rule: Option<TypeRule>)
        ensures { (us : List EflProcedure) (vs : List Part) (v : Part) → Behind us vs self.old → v.place ≡ place → presets_of v.form ≡ [] → rule ≡ first_rule (part_faults us v) →
            Behind us (vs ++ v ∷ []) self.new }
    {
        if self.is_done() {
            return;
        }
        self.fault = fault_by(place, rule);
    }

    /// Parts without initial values come, with their first fault.
    pub fn note_all(&mut self, fault: Option<Fault>)
        ensures { (us : List EflProcedure) (vs ws : List Part) → Behind us vs self.old → GiveNone ws → fault ≡ first_alone us ws → Behind us (vs ++ ws) self.new }
    {
        if self.is_done() {
            return;
        }
        self.fault = fault;
    }

    /// A part with initial values comes. Behind a fault nothing is noted.
    pub fn note_presets<'a>(
        &mut self,
        place: Place,
        presets: &[EflPreset],
        site: &Site<'_, 'a>,
        types: &Types<'a>,
    ) -> Result<(), AllocError>
        ensures { OnOk result (NotesPresets types.now site.now place (map preset_of presets.now) self.old self.new) }
    {
        if self.is_done() {
            return Ok(());
        }
        let procedure = site.procedure;
        let names = names_within(
            types,
            site.blocks,
            procedure.letters,
            procedure.units,
            procedure.outcome,
        );
        let own = own_rules(presets, &names, site, is_top(site.position));
        let meets = fill_presets(presets, &names, site, &mut self.fills, &mut self.owners)?;
        let passes = self.count(count_presets(presets));
        self.fault = fault_by(place, with_earlier(own, meets, passes));
        Ok(())
    }

    /// So many initial values more are given. Whether the program then gives more than it may.
    fn count(&mut self, more: u64) -> bool
        ensures told { (m n : ℕ) → self.old.values ≡ capped m → more ≡ capped n → result ≡ (nat_lt 0 n && nat_lt 32767 (m + n)) }
        ensures counted { self.new.values ≡ capped (self.old.values + more) }
        ensures fault { self.new.fault ≡ self.old.fault }
        ensures fills { self.new.fills ≡ self.old.fills }
        ensures owners { self.new.owners ≡ self.old.owners }
    {
        let passes = passes_limit(self.values, more);
        self.values = self.values.saturating_add(more).min(MOST);
        passes
    }
}

/// One more than a program may give.
const MOST: u64 = 32_768;

/// The fault of a part that breaks this rule.
pub fn fault_by(place: Place, rule: Option<TypeRule>) -> Option<Fault>
    ensures { result ≡ fault_at place rule }
{
    match rule {
        None => None,
        Some(rule) => Some(Fault {
            kind: rule.kind(),
            place,
            number: rule.limit(),
        }),
    }
}
