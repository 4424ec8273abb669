// Variables that statements mention.
ghost use Rattle.std.specs.Prelude.{◌≡◌, ◌||◌, ℕ, List, false, option_map, OnOk};
ghost use Rattle.std.specs.List.{list_all, list_any};
ghost use Rattle.f66_tree.specs.Evaluation.{sort_of};
ghost use Rattle.f66_tree.specs.Views.{act_of};
ghost use Rattle.f66_names.specs.ActViews.{act_said};
ghost use Rattle.f66_names.specs.UseViews.{use_of};
ghost use Rattle.f66_mentions.specs.UnitViews.{context_in};
ghost use Rattle.rat_said.specs.Brief.{holds_if_any, if_array, is_name, is_told_by_uses as are_told_by_uses, variable_used};
ghost use Rattle.rat_said.specs.Seen.{has};

use f66_mentions::{UnitNames, sizes_of};
use f66_names::{Manner, Saying, Use};
use f66_tree::{Name, StmtKind};
use name_tables::value_of;
use rule_table::note;
use std::alloc::{AllocError, Global};
use std::collections::HashMap;

/// The variables that were seen.
#[derive(Drop)]
pub struct Seen<'a> {
    pub names: HashMap<&'a [u8], ()>,
}

/// None were.
pub(crate) fn none_seen<'a>(alloc: Global) -> Seen<'a>
    ensures { (q : List ℕ) → has result q ≡ false }
{
    Seen {
        names: HashMap::new(alloc),
    }
}

/// Whether the names that a statement uses are all that it mentions.
pub(crate) fn is_told_by_uses(saying: &Saying) -> bool
    ensures { result ≡ are_told_by_uses (act_said saying.now) }
{
    match *saying {
        Saying::Act(kind) => is_act_told(kind),
        Saying::Condition(_)
        | Saying::Value(_)
        | Saying::Counting(_, _, _, _)
        | Saying::Returned(_, _) => true,
    }
}

fn is_act_told(kind: &StmtKind) -> bool
    ensures { result ≡ are_told_by_uses (act_of kind.now) }
{
    match kind {
        StmtKind::When(_, inner) => matches!(&**inner, StmtKind::Continue),
        StmtKind::Invoke(_, _)
        | StmtKind::Typed(_, _)
        | StmtKind::Dimension(_)
        | StmtKind::Common(_)
        | StmtKind::Equivalence(_)
        | StmtKind::Preset(_) => false,
        _ => true,
    }
}

/// The variable that a name is where it stands, or nothing where it is a function.
fn variable_of<'a>(names: &UnitNames, one: &Use<'a>) -> Option<&'a Name>
    ensures { option_map (λ x. x.now) result ≡ variable_used (context_in names.now) (use_of one.now) }
{
    match one.manner {
        Manner::Alone => Some(one.name),
        Manner::With(_) | Manner::Stored(_) => array_of(names, one.name),
    }
}

/// A name, where it is that of an array.
fn array_of<'a>(names: &UnitNames, name: &'a Name) -> Option<&'a Name>
    ensures { option_map (λ x. x.now) result ≡ if_array name.now (sort_of (context_in names.now) name.now) }
{
    if sizes_of(names, name.as_bytes()).is_empty() {
        None
    } else {
        Some(name)
    }
}

/// Whether all uses are of variables that were seen.
pub(crate) fn are_seen(names: &UnitNames, seen: &Seen, uses: &[Use]) -> bool
    ensures { result ≡ list_all (λ u. holds_if_any (has seen.now) (variable_used (context_in names.now) (use_of u))) uses.now }
{
    uses.iter().all(|one| is_seen(names, seen, one))
}

fn is_seen(names: &UnitNames, seen: &Seen, one: &Use) -> bool
    ensures { result ≡ holds_if_any (has seen.now) (variable_used (context_in names.now) (use_of one.now)) }
{
    match variable_of(names, one) {
        Some(name) => is_among(seen, name.as_bytes()),
        None => false,
    }
}

fn is_among(seen: &Seen, name: &[u8]) -> bool
    ensures { result ≡ has seen.now name.now }
{
    value_of(&seen.names, name).is_some()
}

/// Notes that the variables among these uses are seen.
pub(crate) fn see_all<'a>(
    names: &UnitNames,
    uses: &[Use<'a>],
    seen: &mut Seen<'a>,
) -> Result<(), AllocError>
    ensures { OnOk result ((q : List ℕ) → has seen.new q ≡ (has seen.old q || list_any (λ u. is_name (variable_used (context_in names.now) (use_of u)) q) uses.now)) }
{
    for one in uses {
        see(names, one, seen)?;
    }
    Ok(())
}

fn see<'a>(names: &UnitNames, one: &Use<'a>, seen: &mut Seen<'a>) -> Result<(), AllocError>
    ensures { OnOk result ((q : List ℕ) → has seen.new q ≡ (has seen.old q || is_name (variable_used (context_in names.now) (use_of one.now)) q)) }
{
    match variable_of(names, one) {
        Some(name) => note(&mut seen.names, name.as_bytes(), ()),
        None => Ok(()),
    }
}
