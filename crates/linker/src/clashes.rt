// The rule that calls agree with the units that they lead to.
ghost use Rattle.std.specs.Prelude.{◌≡◌, IfOk, MatchOption, find, map, option_map};
ghost use Rattle.f66_tree.specs.Views.{routine_of};
ghost use Rattle.ground.specs.declared.place.Place.{Place as APlace};
ghost use Rattle.ground.specs.declared.fault.FaultKind.TheVariants.{TypeClash as IsTypeClash};
ghost use Rattle.linker.specs.CallRules.{is_clashing, led_to};
ghost use Rattle.linker.specs.CallViews.{AreCalls, units_in};
ghost use Rattle.linker.specs.Rules.{IsFirstBroken, IsKept, program_of};
ghost use Rattle.linker.specs.SiteViews.{site_of};
ghost use Rattle.linker.specs.Sites.{sites_of};
ghost use Rattle.linker.specs.TypeViews.{routine_typed};

use crate::agreement::clashes;
use crate::calls::Calls;
use crate::site::Site;
use crate::tells::fault_at;
use crate::types::{TypedUnit, typed_of};
use f66_tree::Unit;
use ground::{Fault, FaultKind, Place};
use std::alloc::{AllocError, Global};

/// The fault of the first call that does not agree with the unit that it leads to; or none (X3.9-1966, sections 8.3.2 and 8.4.2).
pub fn type_clash(alloc: Global, calls: &Calls) -> Result<Option<Fault>, AllocError>
    requires { AreCalls calls.now }
    ensures { IfOk result (λ o. (finish : APlace) → MatchOption o (IsKept IsTypeClash (program_of calls.now.units.now finish)) (IsFirstBroken IsTypeClash (program_of calls.now.units.now finish))) }
{
    let units = typed_units(alloc, calls.units)?;
    match first_clash(calls, &units) {
        Some(place) => Ok(Some(fault_at(FaultKind::TypeClash, place))),
        None => Ok(None),
    }
}

/// The tables of units with the types of their names.
fn typed_units<'a>(alloc: Global, units: &'a [Unit]) -> Result<Vec<TypedUnit<'a>>, AllocError>
    ensures { IfOk result (λ v. map routine_typed v.items ≡ map routine_of units.now) }
{
    let mut all = Vec::new(alloc);
    for unit in units {
        let typed = typed_of(alloc, unit)?;
        all.push(typed)?;
    }
    Ok(all)
}

/// Where the first call stands that does not agree with its unit.
fn first_clash(calls: &Calls, units: &[TypedUnit]) -> Option<Place>
    requires calls { AreCalls calls.now }
    requires units { map routine_typed units.now ≡ units_in calls.now }
    ensures { result ≡ option_map (λ s. s.place) (find (is_clashing (units_in calls.now)) (sites_of (units_in calls.now))) }
{
    for site in &calls.sites {
        if is_clashing(calls, units, site) {
            return Some(site.place);
        }
    }
    None
}

/// Whether a call does not agree with the unit that it leads to.
fn is_clashing(calls: &Calls, units: &[TypedUnit], site: &Site) -> bool
    requires calls { AreCalls calls.now }
    requires units { map routine_typed units.now ≡ units_in calls.now }
    ensures { result ≡ is_clashing (units_in calls.now) (site_of site.now) }
{
    match units.get(site.unit) {
        Some(caller) => match led_to(calls, units, site) {
            Some(called) => clashes(caller, site, called),
            None => false,
        },
        None => false,
    }
}

/// The unit that a call leads to.
fn led_to<'t, 'a>(
    calls: &Calls,
    units: &'t [TypedUnit<'a>],
    site: &Site,
) -> Option<&'t TypedUnit<'a>>
    requires calls { AreCalls calls.now }
    requires units { map routine_typed units.now ≡ units_in calls.now }
    ensures { option_map (λ t. routine_typed t.now) result ≡ led_to (units_in calls.now) (site_of site.now) }
{
    match calls.numbers.get(site.name.as_bytes()) {
        Some(number) => units.get(*number),
        None => None,
    }
}
