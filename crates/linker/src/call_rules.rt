// The rules on each call of a program.
ghost use Rattle.std.specs.Prelude.{◌≡◌, find, length, option_map};
ghost use Rattle.f66_tree.specs.Units.{dummies_of};
ghost use Rattle.f66_tree.specs.Views.{header_of, routine_of};
ghost use Rattle.f66_program.specs.Calls.{miscounts};
ghost use Rattle.linker.specs.CallRules.{is_broken, is_missing, is_miscounted};
ghost use Rattle.linker.specs.CallViews.{AreCalls, units_in};
ghost use Rattle.linker.specs.SiteViews.{call_of, site_of};
ghost use Rattle.linker.specs.Sites.{sites_of};

use crate::calls::Calls;
use crate::rule::CallRule;
use crate::site::Site;
use f66_tree::{Header, Unit};
use ground::Place;

/// Where the first call stands that breaks a rule.
pub(crate) fn first_broken(rule: CallRule, calls: &Calls) -> Option<Place>
    requires { AreCalls calls.now }
    ensures { result ≡ option_map (λ s. s.place) (find (is_broken rule (units_in calls.now)) (sites_of (units_in calls.now))) }
{
    for site in &calls.sites {
        if breaks(rule, calls, site) {
            return Some(site.place);
        }
    }
    None
}

/// Whether a call breaks a rule.
fn breaks(rule: CallRule, calls: &Calls, site: &Site) -> bool
    requires { AreCalls calls.now }
    ensures { result ≡ is_broken rule (units_in calls.now) (site_of site.now) }
{
    match rule {
        CallRule::Missing => is_missing(calls, site),
        CallRule::Counted => is_miscounted(calls, site),
    }
}

fn is_missing(calls: &Calls, site: &Site) -> bool
    requires { AreCalls calls.now }
    ensures { result ≡ is_missing (units_in calls.now) (site_of site.now) }
{
    calls.numbers.get(site.name.as_bytes()).is_none()
}

fn is_miscounted(calls: &Calls, site: &Site) -> bool
    requires { AreCalls calls.now }
    ensures { result ≡ is_miscounted (units_in calls.now) (site_of site.now) }
{
    match calls.numbers.get(site.name.as_bytes()) {
        Some(number) => match calls.units.get(*number) {
            Some(unit) => miscounts(site, unit),
            None => false,
        },
        None => false,
    }
}

/// Whether a call has another number of actuals than the unit has dummies.
fn miscounts(site: &Site, unit: &Unit) -> bool
    ensures { result ≡ miscounts (call_of site.now) (routine_of unit.now) }
{
    site.actuals.len() != dummy_count(&unit.header)
}

fn dummy_count(header: &Header) -> usize
    ensures { result ≡ length (dummies_of (header_of header.now)) }
{
    match header {
        Header::Sub(_, dummies) => dummies.len(),
        Header::Func(_, _, dummies) => dummies.len(),
        _ => 0,
    }
}
