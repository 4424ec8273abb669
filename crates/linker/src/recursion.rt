// The rule that calls have no cycle.
ghost use Rattle.std.specs.Prelude.{◌≡◌, ◌++◌, ◌∷◌, [], filter, map, unwrap_or, IfOk, OnOk, MatchOption};
ghost use Rattle.f66_program.specs.Calls.{unit_named};
ghost use Rattle.ground.specs.declared.place.Place.{Place as APlace};
ghost use Rattle.ground.specs.declared.fault.FaultKind.TheVariants.{Recursion as IsRecursion};
ghost use Rattle.linker.specs.CallViews.{AreCalls, units_in};
ghost use Rattle.linker.specs.Cycles.{edge_of, led_sites, leads};
ghost use Rattle.linker.specs.Rules.{IsFirstBroken, IsKept, program_of};
ghost use Rattle.linker.specs.SiteViews.{site_of};

use crate::calls::Calls;
use crate::site::Site;
use crate::tells::fault_at;
use call_cycles::{Edge, first_on_cycle};
use ground::{Fault, FaultKind};
use std::alloc::{AllocError, Global};

/// The fault of the first call that lies on a cycle of calls; or none (X3.9-1966, sections 8.3.2 and 8.4.2).
pub fn first_recursion(alloc: Global, calls: &Calls) -> Result<Option<Fault>, AllocError>
    requires { AreCalls calls.now }
    ensures { IfOk result (λ o. (finish : APlace) → MatchOption o (IsKept IsRecursion (program_of calls.now.units.now finish)) (IsFirstBroken IsRecursion (program_of calls.now.units.now finish))) }
{
    let led = sites_led(alloc, calls)?;
    let edges = edges_of(alloc, calls, &led)?;
    match first_on_cycle(alloc, calls.units.len(), &edges)? {
        Some(index) => Ok(Some(fault_at(FaultKind::Recursion, led[index].place))),
        None => Ok(None),
    }
}

/// The calls of units that are there.
fn sites_led<'a>(alloc: Global, calls: &Calls<'a>) -> Result<Vec<Site<'a>>, AllocError>
    requires { AreCalls calls.now }
    ensures { IfOk result (λ v. map site_of v.items ≡ led_sites (units_in calls.now)) }
{
    let mut led = Vec::new(alloc);
    for site in &calls.sites {
        add_led(calls, &mut led, site)?;
    }
    Ok(led)
}

fn add_led<'a>(
    calls: &Calls<'a>,
    led: &mut Vec<Site<'a>>,
    site: &Site<'a>,
) -> Result<(), AllocError>
    requires { AreCalls calls.now }
    ensures { OnOk result (map site_of led.new.items ≡ map site_of led.old.items ++ filter (leads (units_in calls.now)) (site_of site.now ∷ [])) }
{
    if calls.numbers.contains_key(site.name.as_bytes()) {
        led.push(*site)?;
    }
    Ok(())
}

/// The calls as edges between units.
fn edges_of(alloc: Global, calls: &Calls, led: &[Site]) -> Result<Vec<Edge>, AllocError>
    requires { AreCalls calls.now }
    ensures { IfOk result (λ v. v.items ≡ map (edge_of (units_in calls.now)) (map site_of led.now)) }
{
    let mut edges = Vec::new(alloc);
    for site in led {
        let to = number_of(calls, site);
        edges.push(Edge {
            from: site.unit,
            to,
        })?;
    }
    Ok(edges)
}

/// The number of the unit that is called.
fn number_of(calls: &Calls, site: &Site) -> usize
    requires { AreCalls calls.now }
    ensures { result ≡ unwrap_or (unit_named site.now.name.now (units_in calls.now)) 0 }
{
    match calls.numbers.get(site.name.as_bytes()) {
        Some(number) => *number,
        None => 0,
    }
}
