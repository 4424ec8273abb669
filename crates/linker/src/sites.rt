// The calls of a program.
ghost use Rattle.std.specs.Prelude.{◌≡◌, ◌++◌, List, map, IfOk, OnOk};
ghost use Rattle.std.specs.List.{flat_map};
ghost use Rattle.f66_tree.specs.Views.{line_of, routine_of};
ghost use Rattle.f66_program.specs.Calls.{call_in, calls_in};
ghost use Rattle.f66_mentions.specs.UnitViews.{context_in, mention_of};
ghost use Rattle.linker.specs.SiteViews.{routine_named, site_of};
ghost use Rattle.linker.specs.Sites.{line_sites, site_at, sites_from};

use crate::site::Site;
use f66_mentions::{Mention, UnitNames, mentions_into};
use f66_tree::Stmt;
use ground::Place;
use std::alloc::{AllocError, Global};

/// The calls of units, in reading order.
pub(crate) fn sites_of<'a>(
    alloc: Global,
    units: &[UnitNames<'a>],
) -> Result<Vec<Site<'a>>, AllocError>
    ensures { IfOk result (λ v. map site_of v.items ≡ sites_from 0 (map routine_named units.now)) }
{
    let mut sites = Vec::new(alloc);
    for (unit, names) in units.iter().enumerate() {
        add_unit(alloc, &mut sites, unit, names)?;
    }
    Ok(sites)
}

/// Adds the calls of a unit.
fn add_unit<'a>(
    alloc: Global,
    sites: &mut Vec<Site<'a>>,
    unit: usize,
    names: &UnitNames<'a>,
) -> Result<(), AllocError>
    ensures { OnOk result (map site_of sites.new.items ≡ map site_of sites.old.items ++ line_sites unit 0 (context_in names.now) (map line_of names.now.unit.now.statements.items)) }
{
    let mut mentions = Vec::new(alloc);
    for (line, statement) in names.unit.statements.iter().enumerate() {
        add_line(sites, unit, line, names, statement, &mut mentions)?;
    }
    Ok(())
}

/// Adds the calls of a statement, whose names the list of mentions gets.
fn add_line<'a>(
    sites: &mut Vec<Site<'a>>,
    unit: usize,
    line: usize,
    names: &UnitNames<'a>,
    statement: &'a Stmt,
    mentions: &mut Vec<Mention<'a>>,
) -> Result<(), AllocError>
    ensures { OnOk result (map site_of sites.new.items ≡ map site_of sites.old.items
        ++ map (site_at unit line statement.now.place) (calls_in (context_in names.now) (line_of statement.now).act)) }
{
    mentions_into(names, &statement.kind, mentions)?;
    add_mentions(sites, unit, line, statement.place, mentions)
}

fn add_mentions<'a>(
    sites: &mut Vec<Site<'a>>,
    unit: usize,
    line: usize,
    place: Place,
    mentions: &[Mention<'a>],
) -> Result<(), AllocError>
    ensures { OnOk result (map site_of sites.new.items ≡ map site_of sites.old.items ++ map (site_at unit line place) (flat_map call_in (map mention_of mentions.now))) }
{
    for mention in mentions {
        add_mention(sites, unit, line, place, mention)?;
    }
    Ok(())
}

fn add_mention<'a>(
    sites: &mut Vec<Site<'a>>,
    unit: usize,
    line: usize,
    place: Place,
    mention: &Mention<'a>,
) -> Result<(), AllocError>
    ensures { OnOk result (map site_of sites.new.items ≡ map site_of sites.old.items ++ map (site_at unit line place) (call_in (mention_of mention.now))) }
{
    match *mention {
        Mention::Call(by_call, name, actuals) => {
            sites.push(Site {
                unit,
                line,
                place,
                by_call,
                name,
                actuals,
            })?;
            Ok(())
        }
        _ => Ok(()),
    }
}
