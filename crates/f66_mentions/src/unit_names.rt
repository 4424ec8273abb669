// A unit with tables of its names.
ghost use Rattle.std.specs.Prelude.{◌≡◌, ℕ, List, IfOk, Some, None, if◌then◌else◌, map, option_map};
ghost use Rattle.std.specs.HashMap.{get_by};
ghost use Rattle.std.specs.Str.{bytes_eq};
ghost use Rattle.std.proofs.Props.{props};
ghost use Rattle.rule_table.specs.Words.{find_map};
ghost use Rattle.f66_tree.specs.Views.{act_of, header_of, par_of};
ghost use Rattle.f66_program.specs.Mentions.{is_dummy};
ghost use Rattle.f66_mentions.specs.Dimensions.{dims_in};

use crate::dimensions::dimensions_of;
use crate::dummies::{dummies_of, dummy_table};
use f66_tree::{Par, Unit};
use std::alloc::{AllocError, Global};
use std::collections::HashMap;

/// A unit, the dimensions of its names, and its dummies.
#[derive(Drop)]
pub struct UnitNames<'a> {
    pub unit: &'a Unit,
    pub dims: HashMap<&'a [u8], &'a [Par]>,
    pub dummies: HashMap<&'a [u8], ()>,
    ghost dims_are: { (q : List ℕ) → option_map (λ ps. map par_of ps.now) (get_by (λ k. bytes_eq q k.now) dims) ≡ find_map (dims_in q) (map (λ s. act_of s.kind) unit.now.statements.items) } by { Prim.hlevel props },
    ghost dummies_are: { (q : List ℕ) → get_by (λ k. bytes_eq q k.now) dummies ≡ if is_dummy q (header_of unit.now.header) then Some tt else None } by { Prim.hlevel props },
}

/// The tables of a unit's names.
pub fn names_of<'a>(alloc: Global, unit: &'a Unit) -> Result<UnitNames<'a>, AllocError>
    ensures { IfOk result (λ n. n.unit.now ≡ unit.now) }
{
    let dims = dimensions_of(alloc, &unit.statements)?;
    let dummies = dummy_table(alloc, dummies_of(&unit.header))?;
    Ok(UnitNames {
        unit,
        dims,
        dummies,
    })
}
