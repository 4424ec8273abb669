// The calls of a program as edges between its units, and ranks that fall along each.
ghost use Rattle.std.specs.Prelude.{◌≡◌, ◌<◌, ◌++◌, ◌∷◌, [], ℕ, filter, length, map, slice_index_or, IfOk, OnOk};
ghost use Rattle.call_ranks.specs.Ranks.{HaveRanks};
ghost use Rattle.f66_program.specs.Calls.{Leads};
ghost use Rattle.linker.specs.CallViews.{AreCalls, units_in};
ghost use Rattle.linker.specs.Cycles.{edge_of, leads, led_sites};
ghost use Rattle.linker.specs.SiteViews.{site_of};

use crate::ranks::falling;
use call_cycles::Edge;
use linker::{Calls, Site};
use std::alloc::{AllocError, Global};

/// Ranks of the units of a program without recursion, which fall along each call.
pub(crate) fn ranks_of(alloc: Global, calls: &Calls<'_>) -> Result<Vec<usize>, AllocError>
    requires calls { AreCalls calls.now }
    requires ranked { HaveRanks (units_in calls.now) }
    ensures many { IfOk result (λ v. length v.items ≡ length calls.now.units.now) }
    ensures fall { IfOk result (λ v. (u w : ℕ) → Leads (units_in calls.now) u w → slice_index_or v.items w 0 < slice_index_or v.items u 0) }
{
    let edges = edges_of(alloc, calls)?;
    falling(alloc, calls.units.len(), &edges)
}

/// The calls of units that are there, as edges.
fn edges_of(alloc: Global, calls: &Calls<'_>) -> Result<Vec<Edge>, AllocError>
    requires { AreCalls calls.now }
    ensures { IfOk result (λ v. v.items ≡ map (edge_of (units_in calls.now)) (led_sites (units_in calls.now))) }
{
    let mut edges = Vec::new(alloc);
    for site in &calls.sites {
        add_edge(calls, &mut edges, site)?;
    }
    Ok(edges)
}

fn add_edge(calls: &Calls<'_>, edges: &mut Vec<Edge>, site: &Site<'_>) -> Result<(), AllocError>
    requires { AreCalls calls.now }
    ensures { OnOk result (edges.new.items ≡ edges.old.items ++ map (edge_of (units_in calls.now)) (filter (leads (units_in calls.now)) (site_of site.now ∷ []))) }
{
    match calls.numbers.get(site.name.as_bytes()) {
        Some(to) => {
            let edge = Edge {
                from: site.unit,
                to: *to,
            };
            edges.push(edge)?;
            Ok(())
        }
        None => Ok(()),
    }
}
