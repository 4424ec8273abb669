// The names of a unit: what it declares and lists, and the first class of each.
ghost use Rattle.std.specs.Prelude.{◌≡◌, ℕ, List, IfOk, map, option_map};
ghost use Rattle.std.specs.HashMap.{get_by};
ghost use Rattle.std.specs.Str.{bytes_eq};
ghost use Rattle.std.proofs.Props.{props};
ghost use Rattle.rule_table.specs.Words.{first_place, find_map};
ghost use Rattle.f66_tree.specs.Views.{par_of};
ghost use Rattle.unit_rules.specs.Bounds.{sizes_given};
ghost use Rattle.unit_rules.specs.Roles.{role_held, role_of};
ghost use Rattle.unit_rules.specs.Storage.{commons as commons_act, gives_sizes, block_in};
ghost use Rattle.f66_names.specs.DeclarationViews.{context_in, acts_in};

use crate::roles::{Role, held_table, role_table};
use crate::tables::{Tables, tables_of};
use f66_names::{Declarations, Saying, declarations_of};
use f66_tree::{Header, Par};
use std::alloc::{AllocError, Global};
use std::collections::HashMap;

/// What the rules ask of a unit of any kind as a whole: its declarations, the first class of each name
/// (X3.9-1966, section 10.1), and what stands in common blocks (section 7.2.1.3).
#[derive(Drop)]
pub struct UnitNames<'a> {
    /// What the declarations say.
    pub declarations: Declarations<'a>,
    /// The class that the header gives a name.
    pub held: HashMap<&'a [u8], Role>,
    /// The first class of each name.
    pub roles: HashMap<&'a [u8], Role>,
    /// The first statement that lists a name in a common block.
    pub commons: HashMap<&'a [u8], usize>,
    /// Whether the first block that lists a name has a name itself.
    pub blocks: HashMap<&'a [u8], bool>,
    /// The first statement that gives a name dimensions.
    pub sized: HashMap<&'a [u8], usize>,
    /// The first dimensions of a name.
    pub sizes: HashMap<&'a [u8], &'a [Par]>,
    ghost held_are: { (q : List ℕ) → get_by (λ k. bytes_eq q k.now) held ≡ role_held (context_in declarations).header q } by { Prim.hlevel props },
    ghost roles_are: { (q : List ℕ) → get_by (λ k. bytes_eq q k.now) roles ≡ role_of (context_in declarations) (acts_in declarations) q } by { Prim.hlevel props },
    ghost commons_are: { (q : List ℕ) → get_by (λ k. bytes_eq q k.now) commons ≡ first_place (commons_act q) (acts_in declarations) } by { Prim.hlevel props },
    ghost blocks_are: { (q : List ℕ) → get_by (λ k. bytes_eq q k.now) blocks ≡ find_map (block_in q) (acts_in declarations) } by { Prim.hlevel props },
    ghost sized_are: { (q : List ℕ) → get_by (λ k. bytes_eq q k.now) sized ≡ first_place (gives_sizes q) (acts_in declarations) } by { Prim.hlevel props },
    ghost sizes_are: { (q : List ℕ) → option_map (λ ns. map par_of ns.now) (get_by (λ k. bytes_eq q k.now) sizes) ≡ find_map (sizes_given q) (acts_in declarations) } by { Prim.hlevel props },
}

/// The names of a unit with this header that says this, all of it in reading order.
pub fn unit_names_of<'a>(
    alloc: Global,
    header: &'a Header,
    sayings: &'a [Saying<'a>],
) -> Result<UnitNames<'a>, AllocError>
    ensures header { IfOk result (λ n. n.declarations.header.now ≡ header.now) }
    ensures sayings { IfOk result (λ n. n.declarations.sayings.now ≡ sayings.now) }
{
    let declarations = declarations_of(alloc, header, sayings)?;
    let held = held_table(alloc, declarations.header)?;
    let roles = role_table(alloc, &declarations)?;
    let Tables {
        commons,
        blocks,
        sized,
        sizes,
    } = tables_of(alloc, declarations.sayings)?;
    Ok(UnitNames {
        declarations,
        held,
        roles,
        commons,
        blocks,
        sized,
        sizes,
    })
}
