// What a unit declares, in tables by name.
ghost use Rattle.std.specs.Prelude.{◌≡◌, ℕ, List, IfOk};
ghost use Rattle.std.specs.HashMap.{get_by};
ghost use Rattle.std.specs.Str.{bytes_eq};
ghost use Rattle.std.proofs.Props.{props};
ghost use Rattle.rule_table.specs.Words.{first_place, find_map};
ghost use Rattle.f66_names.specs.ActViews.{acts_of};
ghost use Rattle.f66_names.specs.Declaring.{types, sizes, type_given, count_in};

use crate::Saying;
use crate::tables::{Tables, tables_of};
use f66_tree::{Header, TypeWord};
use std::alloc::{AllocError, Global};
use std::collections::HashMap;

/// What a unit declares: its header, all that it says in reading order, and for each name its type, the number of its
/// dimensions, and the first statements that give them.
#[derive(Drop)]
pub struct Declarations<'a> {
    pub header: &'a Header,
    pub sayings: &'a [Saying<'a>],
    pub words: HashMap<&'a [u8], TypeWord>,
    pub counts: HashMap<&'a [u8], usize>,
    pub typed: HashMap<&'a [u8], usize>,
    pub sized: HashMap<&'a [u8], usize>,
    ghost words_are: { (q : List ℕ) → get_by (λ k. bytes_eq q k.now) words ≡ find_map (type_given q) (acts_of sayings.now) } by { Prim.hlevel props },
    ghost counts_are: { (q : List ℕ) → get_by (λ k. bytes_eq q k.now) counts ≡ find_map (count_in q) (acts_of sayings.now) } by { Prim.hlevel props },
    ghost typed_are: { (q : List ℕ) → get_by (λ k. bytes_eq q k.now) typed ≡ first_place (types q) (acts_of sayings.now) } by { Prim.hlevel props },
    ghost sized_are: { (q : List ℕ) → get_by (λ k. bytes_eq q k.now) sized ≡ first_place (sizes q) (acts_of sayings.now) } by { Prim.hlevel props },
}

/// The declarations of a unit with this header that says this.
pub fn declarations_of<'a>(
    alloc: Global,
    header: &'a Header,
    sayings: &'a [Saying<'a>],
) -> Result<Declarations<'a>, AllocError>
    ensures header { IfOk result (λ d. d.header.now ≡ header.now) }
    ensures sayings { IfOk result (λ d. d.sayings.now ≡ sayings.now) }
{
    let Tables {
        words,
        counts,
        typed,
        sized,
    } = tables_of(alloc, sayings)?;
    Ok(Declarations {
        header,
        sayings,
        words,
        counts,
        typed,
        sized,
    })
}
