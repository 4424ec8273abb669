// The rule with the smallest number that a statement or a part of one breaks by the names that it uses.
ghost use Rattle.std.specs.Prelude.{◌≡◌, map, IfOk};
ghost use Rattle.std.specs.List.{list_any};
ghost use Rattle.rule_table.specs.FaultRules.{first_rule};
ghost use Rattle.f66_names.specs.ActViews.{act_said};
ghost use Rattle.f66_names.specs.DeclarationViews.{context_in, acts_in};
ghost use Rattle.f66_names.specs.Uses.{uses_in};
ghost use Rattle.f66_names.specs.UseViews.{use_of};
ghost use Rattle.unit_rules.specs.PartRules.{breaks_used};
ghost use Rattle.unit_rules.specs.Roles.{misuses, role_of};

use crate::UnitNames;
use crate::roles::{Role, has_other_role, role_used};
use f66_names::{
    Manner, Saying, Use, collect_in_saying, has_long_use, has_other_use, has_wrong_use,
};
use f66_tree::Name;
use name_tables::value_of;
use rule_table::Rule;
use std::alloc::AllocError;

/// What a part of a statement breaks of which it is known whether it has another form or type than it is to have, and whether
/// it stores where it may not. The list gets the names that it uses.
pub fn part_rule<'a>(
    names: &UnitNames,
    saying: &Saying<'a>,
    misformed: bool,
    clashing: bool,
    stored: bool,
    uses: &mut Vec<Use<'a>>,
) -> Result<Option<Rule>, AllocError>
    ensures { IfOk result
        (λ o. o ≡ first_rule (breaks_used (context_in names.now.declarations) (acts_in names.now.declarations) (uses_in (act_said saying.now)) misformed clashing stored)) }
{
    uses.clear();
    collect_in_saying(saying, uses)?;
    Ok(used_rule(names, uses, misformed, clashing, stored))
}

fn used_rule(
    names: &UnitNames,
    uses: &[Use],
    misformed: bool,
    clashing: bool,
    stored: bool,
) -> Option<Rule>
    ensures { result
        ≡ first_rule (breaks_used (context_in names.now.declarations) (acts_in names.now.declarations) (map use_of uses.now) misformed clashing stored) }
{
    if misformed {
        return Some(Rule::Syntax);
    }
    if has_long_use(uses) {
        return Some(Rule::NameTooLong);
    }
    if has_other_use(&names.declarations, uses) {
        return Some(Rule::OutOfProfileType);
    }
    if clashing {
        return Some(Rule::TypeClash);
    }
    if has_wrong_use(&names.declarations, uses) {
        return Some(Rule::WrongCount);
    }
    if has_misuse(names, uses) {
        return Some(Rule::DuplicateName);
    }
    if stored {
        return Some(Rule::NotAssignable);
    }
    None
}

fn misuses(names: &UnitNames, used: &Use) -> bool
    ensures { result ≡ misuses (context_in names.now.declarations) (acts_in names.now.declarations) (use_of used.now) }
{
    // A store says nothing of a name's class.
    if let Manner::Stored(_) = used.manner {
        return false;
    }
    let first = first_role(names, used.name);
    match (first, used.manner) {
        // Most names are variables, and stand alone.
        (Some(Role::Variable), Manner::Alone) => false,
        _ => has_other_role(role_used(&names.declarations, used), first),
    }
}

fn first_role(names: &UnitNames, name: &Name) -> Option<Role>
    ensures { result ≡ role_of (context_in names.now.declarations) (acts_in names.now.declarations) name.now }
{
    value_of(&names.roles, name.as_bytes()).copied()
}

/// Whether a name is used in another class than its first one (section 10.1).
#[tactic(auto, using(rule_table::proofs::WordLemmas::list_any_map))]
pub fn has_misuse(names: &UnitNames, uses: &[Use]) -> bool
    ensures { result ≡ list_any (misuses (context_in names.now.declarations) (acts_in names.now.declarations)) (map use_of uses.now) }
{
    are_some_misused(names, uses)
}

fn are_some_misused(names: &UnitNames, uses: &[Use]) -> bool
    ensures { result ≡ list_any (λ u. misuses (context_in names.now.declarations) (acts_in names.now.declarations) (use_of u)) uses.now }
{
    uses.iter().any(|u| misuses(names, u))
}
