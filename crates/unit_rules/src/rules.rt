// The rule with the smallest number that a statement breaks.
ghost use Rattle.std.specs.Prelude.{◌≡◌, ◌||◌, not, map, option_map, is_some, Some, IfOk};
ghost use Rattle.rule_table.specs.FaultRules.{first_rule};
ghost use Rattle.rule_table.specs.Words.{find_map, is_some_and};
ghost use Rattle.f66_tree.specs.Views.{act_of};
ghost use Rattle.f66_names.specs.Declaring.{type_given};
ghost use Rattle.f66_names.specs.DeclarationViews.{context_in, acts_in};
ghost use Rattle.f66_names.specs.NameRules.{is_long as is_long_text};
ghost use Rattle.f66_names.specs.StoreRules.{has_bad_constant as has_bad, stores_wrong};
ghost use Rattle.f66_names.specs.Uses.{uses_in};
ghost use Rattle.f66_names.specs.UseViews.{use_of};
ghost use Rattle.unit_rules.specs.Forms.{has_form};
ghost use Rattle.unit_rules.specs.Judged.{judged_uses};
ghost use Rattle.unit_rules.specs.Listed.{more_names, more_uses};
ghost use Rattle.unit_rules.specs.ListViews.{AreLists};
ghost use Rattle.unit_rules.specs.PartRules.{breaks_used};
ghost use Rattle.unit_rules.specs.Roles.{miscalls, mixes_roles};
ghost use Rattle.unit_rules.specs.Storage.{lists_bad_constant as lists_bad};
ghost use Rattle.unit_rules.specs.Types.{clashes};
ghost use Rattle.unit_rules.specs.UnitRules.{has_long_name as has_long, has_foreign_name as has_foreign, counts_wrong as counts_other, is_duplicate, breaks_rule};

use crate::UnitNames;
use crate::again::lists_again;
use crate::called::called_in;
use crate::constants::{has_large_common, lists_bad_constant};
use crate::counts::{has_wrong_sizes, lists_miscounted};
use crate::forms::has_form;
use crate::heads::declares_own;
use crate::judged::judged_uses;
use crate::listed::{Lists, lists_of};
use crate::more_uses::{more_names, more_uses};
use crate::presets::presets_wrong;
use crate::roles::{Role, has_other_role};
use crate::shapes::{has_long_block, lists_odd};
use crate::types::clashes;
use crate::used::{has_misuse, part_rule};
use f66_names::{
    Declarations, Saying, Use, has_bad_constant, has_bad_format, has_large_array, has_long_name,
    has_long_use, has_other_type, has_other_use, has_wrong_use, is_array, is_long, is_readable,
    redeclares, stores_wrong, uses_of_statement,
};
use f66_tree::{Name, StmtKind};
use name_tables::value_of;
use rule_table::Rule;
use std::alloc::{AllocError, Global};

/// The rule with the smallest number that the statement with the number i breaks, of those on names, types, counts,
/// constants and stores (X3.9-1966, sections 3.5, 5 to 8 and 10.1). A list of uses serves one statement after another.
pub fn broken_rule<'a>(
    alloc: Global,
    names: &UnitNames,
    i: usize,
    kind: &'a StmtKind,
    uses: &mut Vec<Use<'a>>,
) -> Result<Option<Rule>, AllocError>
    ensures { IfOk result
        (λ o. o ≡ first_rule (breaks_rule (context_in names.now.declarations) (acts_in names.now.declarations) i (act_of kind.now))) }
{
    match kind {
        StmtKind::Assign(target, _) if is_readable(&names.declarations, target) => {
            assignment_rule(names, kind, uses)
        }
        _ => statement_rule(alloc, names, i, kind),
    }
}

/// The same of an assignment to a place, of which all names that it uses have classes and counts.
fn assignment_rule<'a>(
    names: &UnitNames,
    kind: &'a StmtKind,
    uses: &mut Vec<Use<'a>>,
) -> Result<Option<Rule>, AllocError>
    ensures { IfOk result
        (λ o. o ≡ first_rule (breaks_used (context_in names.now.declarations) (acts_in names.now.declarations) (uses_in (act_of kind.now)) (not (has_form (act_of kind.now))) (clashes (context_in names.now.declarations) (act_of kind.now)) (stores_wrong (context_in names.now.declarations) (act_of kind.now)))) }
{
    let misformed = !has_form(kind);
    let clashing = clashes(&names.declarations, kind);
    let stored = stores_wrong(&names.declarations, kind);
    part_rule(names, &Saying::Act(kind), misformed, clashing, stored, uses)
}

/// The same of any statement.
fn statement_rule(
    alloc: Global,
    names: &UnitNames,
    i: usize,
    kind: &StmtKind,
) -> Result<Option<Rule>, AllocError>
    ensures { IfOk result
        (λ o. o ≡ first_rule (breaks_rule (context_in names.now.declarations) (acts_in names.now.declarations) i (act_of kind.now))) }
{
    let uses = uses_of_statement(alloc, kind)?;
    let judged = judged_uses(alloc, &names.declarations, kind)?;
    let lists = lists_of(alloc, kind)?;
    let named = more_names(alloc, kind, &lists)?;
    let more = more_uses(alloc, &names.declarations, kind, &lists)?;
    let duplicate = is_duplicate(alloc, names, i, kind, &lists, &judged, &more)?;
    if !has_form(kind) {
        return Ok(Some(Rule::Syntax));
    }
    if is_long_somewhere(kind, &uses, &named) {
        return Ok(Some(Rule::NameTooLong));
    }
    if is_foreign_somewhere(&names.declarations, kind, &uses, &named) {
        return Ok(Some(Rule::OutOfProfileType));
    }
    if clashes(&names.declarations, kind) || lists_odd(&names.declarations, kind, &lists) {
        return Ok(Some(Rule::TypeClash));
    }
    if counts_wrong(&names.declarations, kind, &lists, &judged, &more) {
        return Ok(Some(Rule::WrongCount));
    }
    if duplicate {
        return Ok(Some(Rule::DuplicateName));
    }
    if is_constant_bad(&names.declarations, kind, &lists) {
        return Ok(Some(Rule::BadConstant));
    }
    if has_bad_format(kind) {
        return Ok(Some(Rule::BadFormat));
    }
    if stores_wrong(&names.declarations, kind) || presets_wrong(names, kind, &lists) {
        return Ok(Some(Rule::NotAssignable));
    }
    if has_large_array(kind) || has_large_common(kind, &lists) {
        return Ok(Some(Rule::LargeArray));
    }
    Ok(None)
}

fn is_long_called(called: Option<&Name>) -> bool
    ensures { result ≡ is_some_and is_long_text (option_map (λ n. n.now) called.entry) }
{
    match called {
        Some(name) => is_long(name),
        None => false,
    }
}

fn is_long_somewhere(kind: &StmtKind, uses: &[Use], named: &[Use]) -> bool
    requires uses { map use_of uses.now ≡ uses_in (act_of kind.now) }
    requires named { map use_of named.now ≡ more_names (act_of kind.now) }
    ensures { result ≡ has_long (act_of kind.now) }
{
    let called = is_long_called(called_in(kind));
    has_long_name(kind, uses) || (called || (has_long_block(kind) || has_long_use(named)))
}

fn is_foreign_somewhere(
    declarations: &Declarations,
    kind: &StmtKind,
    uses: &[Use],
    named: &[Use],
) -> bool
    requires uses { map use_of uses.now ≡ uses_in (act_of kind.now) }
    requires named { map use_of named.now ≡ more_names (act_of kind.now) }
    ensures { result ≡ has_foreign (context_in declarations.now) (act_of kind.now) }
{
    has_other_type(declarations, kind, uses) || has_other_use(declarations, named)
}

fn counts_wrong(
    declarations: &Declarations,
    kind: &StmtKind,
    lists: &Lists,
    judged: &[Use],
    more: &[Use],
) -> bool
    requires lists { AreLists lists.now (act_of kind.now) }
    requires judged { map use_of judged.now ≡ judged_uses (context_in declarations.now) (act_of kind.now) }
    requires more { map use_of more.now ≡ more_uses (context_in declarations.now) (act_of kind.now) }
    ensures { result ≡ counts_other (context_in declarations.now) (act_of kind.now) }
{
    has_wrong_sizes(kind)
        || ((has_wrong_use(declarations, judged) || has_wrong_use(declarations, more))
            || lists_miscounted(declarations, kind, lists))
}

fn is_constant_bad(declarations: &Declarations, kind: &StmtKind, lists: &Lists) -> bool
    requires { AreLists lists.now (act_of kind.now) }
    ensures { result
        ≡ (has_bad (context_in declarations.now) (act_of kind.now) || lists_bad (context_in declarations.now) (act_of kind.now)) }
{
    has_bad_constant(declarations, kind) || lists_bad_constant(declarations, kind, lists)
}

fn is_duplicate(
    alloc: Global,
    names: &UnitNames,
    i: usize,
    kind: &StmtKind,
    lists: &Lists,
    judged: &[Use],
    more: &[Use],
) -> Result<bool, AllocError>
    requires lists { AreLists lists.now (act_of kind.now) }
    requires judged { map use_of judged.now ≡ judged_uses (context_in names.now.declarations) (act_of kind.now) }
    requires more { map use_of more.now ≡ more_uses (context_in names.now.declarations) (act_of kind.now) }
    ensures { IfOk result (λ b. b ≡ is_duplicate (context_in names.now.declarations) (acts_in names.now.declarations) i (act_of kind.now)) }
{
    let again = redeclares(alloc, &names.declarations, i, kind)?;
    let listed = lists_again(alloc, names, i, kind, lists)?;
    let own = declares_own(names.declarations.header, kind);
    let mixed = mixes_roles(names, kind, judged, more);
    Ok(again || (listed || (own || mixed)))
}

fn mixes_roles(names: &UnitNames, kind: &StmtKind, judged: &[Use], more: &[Use]) -> bool
    requires judged { map use_of judged.now ≡ judged_uses (context_in names.now.declarations) (act_of kind.now) }
    requires more { map use_of more.now ≡ more_uses (context_in names.now.declarations) (act_of kind.now) }
    ensures { result ≡ mixes_roles (context_in names.now.declarations) (acts_in names.now.declarations) (act_of kind.now) }
{
    let called = is_miscalled(names, called_in(kind));
    (has_misuse(names, judged) || has_misuse(names, more)) || called
}

fn is_miscalled(names: &UnitNames, called: Option<&Name>) -> bool
    ensures { result
        ≡ is_some_and (miscalls (context_in names.now.declarations) (acts_in names.now.declarations)) (option_map (λ n. n.now) called.entry) }
{
    match called {
        Some(name) => miscalls(names, name),
        None => false,
    }
}

/// Whether a CALL names what is no subroutine: a name of another class, or one with a type or dimensions.
fn miscalls(names: &UnitNames, name: &Name) -> bool
    ensures { result ≡ miscalls (context_in names.now.declarations) (acts_in names.now.declarations) name.now }
{
    let first = value_of(&names.roles, name.as_bytes()).copied();
    has_other_role(Some(Role::Subroutine), first)
        || (has_type(&names.declarations, name) || is_array(&names.declarations, name))
}

fn has_type(declarations: &Declarations, name: &Name) -> bool
    ensures { result ≡ is_some (find_map (type_given name.now) (acts_in declarations.now)) }
{
    declarations.words.contains_key(name.as_bytes())
}
