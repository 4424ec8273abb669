// A unit with tables of what its names are.
ghost use Rattle.std.specs.Prelude.{◌≡◌, ℕ, List, IfOk, map, option_map};
ghost use Rattle.std.specs.HashMap.{get_by};
ghost use Rattle.std.specs.Str.{bytes_eq};
ghost use Rattle.std.proofs.Props.{props};
ghost use Rattle.rule_table.specs.Words.{find_map};
ghost use Rattle.f66_tree.specs.Units.{by_header, dummies_of, kind_of, position, sizes_of, type_in};
ghost use Rattle.f66_tree.specs.Views.{act_of, header_of, par_of, routine_of};
ghost use Rattle.f66_program.specs.Association.{size_in};
ghost use Rattle.f66_program.specs.Mentions.{context_of};
ghost use Rattle.f66_mentions.specs.Dimensions.{dims_in};
ghost use Rattle.linker.specs.Types.{type_given};

use crate::dummies::{dummies_of, positions_of};
use crate::extents::{Extent, extents_of};
use crate::implicit_types::by_header;
use f66_tree::{Name, Par, TypeWord, Unit};
use ground::Kind;
use linker::words_of;
use std::alloc::{AllocError, Global};
use std::collections::HashMap;

/// A unit, the dimensions and the types that its statements give names, and its dummies.
#[derive(Drop)]
pub struct UnitTables<'a> {
    pub unit: &'a Unit,
    pub extents: HashMap<&'a [u8], Extent<'a>>,
    pub words: HashMap<&'a [u8], TypeWord>,
    pub dummies: HashMap<&'a [u8], u32>,
    ghost extents_are: { (q : List ℕ) → option_map (λ e. map par_of e.sizes.now) (get_by (λ k. bytes_eq q k.now) extents) ≡ find_map (dims_in q) (map (λ s. act_of s.kind) unit.now.statements.items) } by { Prim.hlevel props },
    ghost words_are: { (q : List ℕ) → get_by (λ k. bytes_eq q k.now) words ≡ find_map (type_given q) (map (λ s. act_of s.kind) unit.now.statements.items) } by { Prim.hlevel props },
    ghost dummies_are: { (q : List ℕ) → get_by (λ k. bytes_eq q k.now) dummies ≡ position q (dummies_of (header_of unit.now.header)) } by { Prim.hlevel props },
}

/// The tables of a unit's names.
pub(crate) fn tables_of<'a>(alloc: Global, unit: &'a Unit) -> Result<UnitTables<'a>, AllocError>
    ensures { IfOk result (λ t. t.unit.now ≡ unit.now) }
{
    let extents = extents_of(alloc, &unit.statements)?;
    let words = words_of(alloc, &unit.statements)?;
    let dummies = positions_of(alloc, dummies_of(&unit.header))?;
    Ok(UnitTables {
        unit,
        extents,
        words,
        dummies,
    })
}

impl<'a> UnitTables<'a> {
    /// Which dummy a name is.
    pub fn dummy(&self, name: &Name) -> Option<u32>
        ensures { result ≡ position name.now (dummies_of (context_of (routine_of self.now.unit.now)).header) }
    {
        match self.dummies.get(name.as_bytes()) {
            Some(number) => Some(*number),
            None => None,
        }
    }

    /// The dimensions of a name, of which a variable has none.
    pub fn sizes(&self, name: &Name) -> &'a [Par]
        ensures { map par_of result.now ≡ sizes_of name.now (context_of (routine_of self.now.unit.now)).notes }
    {
        match self.extents.get(name.as_bytes()) {
            Some(extent) => extent.sizes,
            None => &[],
        }
    }

    /// How many places a name has.
    pub fn places(&self, name: &Name) -> u32
        ensures { result ≡ size_in (context_of (routine_of self.now.unit.now)) name.now }
    {
        match self.extents.get(name.as_bytes()) {
            Some(extent) => extent.places,
            None => 1,
        }
    }

    /// The type of a name's values (X3.9-1966, section 5.3).
    pub fn kind(&self, name: &Name) -> Kind
        ensures { result ≡ kind_of (context_of (routine_of self.now.unit.now)) name.now }
    {
        match self.word(name) {
            TypeWord::Logical => Kind::Logical,
            TypeWord::Integer | TypeWord::Other => Kind::Integer,
        }
    }

    fn word(&self, name: &Name) -> TypeWord
        ensures { result ≡ type_in name.now (context_of (routine_of self.now.unit.now)).notes (by_header name.now (header_of self.now.unit.now.header)) }
    {
        match self.words.get(name.as_bytes()) {
            Some(word) => *word,
            None => by_header(&self.unit.header, name),
        }
    }
}
