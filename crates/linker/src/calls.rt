// The calls of a program with what linking asks of them.
ghost use Rattle.std.specs.Prelude.{◌≡◌, IfOk, map};
ghost use Rattle.f66_tree.specs.Views.{routine_of};
ghost use Rattle.linker.specs.CallViews.{AreCalls};
ghost use Rattle.linker.specs.SiteViews.{routine_named};

use crate::numbers::numbers_of;
use crate::site::Site;
use crate::sites::sites_of;
use f66_mentions::{UnitNames, names_of};
use f66_tree::Unit;
use std::alloc::{AllocError, Global};
use std::collections::HashMap;

/// The units of a program, the number of the first subroutine or function of each name, and all calls in reading order.
#[derive(Drop)]
pub struct Calls<'a> {
    pub units: &'a [Unit],
    pub numbers: HashMap<&'a [u8], usize>,
    pub sites: Vec<Site<'a>>,
}

/// The calls of units.
pub fn calls_of<'a>(alloc: Global, units: &'a [Unit]) -> Result<Calls<'a>, AllocError>
    ensures units { IfOk result (λ c. c.units.now ≡ units.now) }
    ensures calls { IfOk result (λ c. AreCalls c) }
{
    let names = all_names(alloc, units)?;
    let numbers = numbers_of(alloc, units)?;
    let sites = sites_of(alloc, &names)?;
    Ok(Calls {
        units,
        numbers,
        sites,
    })
}

/// The tables of the names of units.
fn all_names<'a>(alloc: Global, units: &'a [Unit]) -> Result<Vec<UnitNames<'a>>, AllocError>
    ensures { IfOk result (λ v. map routine_named v.items ≡ map routine_of units.now) }
{
    let mut all = Vec::new(alloc);
    for unit in units {
        let names = names_of(alloc, unit)?;
        all.push(names)?;
    }
    Ok(all)
}
