// The first rule that a preset breaks.
ghost use Rattle.std.specs.Prelude.{◌≡◌, ◌≤◌, ◌+◌, ◌++◌, ℕ, nat_lt, drop, not, ◌&&◌, ◌||◌, is_none, nat_eq, sum_by, Bool, List, Option};
ghost use Rattle.std.specs.List.{list_any};
ghost use Rattle.std.specs.Option.{option_map};
ghost use Rattle.rule_table.specs.Words.{is_some_and};
ghost use Rattle.efl_tree.specs.Syntax.{EflProcedure};
ghost use Rattle.efl_tree.specs.Views.{preset_of};
ghost use Rattle.efl_scope.specs.DataTypes.{DataType as TypeSeen, places as places_seen, is_large as is_large_seen};
ghost use Rattle.efl_scope.specs.Scopes.{meaning};
ghost use Rattle.efl_types.specs.declared.rule.TypeRule.{TypeRule as RuleSeen};
ghost use Rattle.efl_types.specs.declared.rule.TypeRule.TheVariants as rules;
ghost use Rattle.efl_types.specs.Signatures.{Names, variable_type};
ghost use Rattle.efl_types.specs.Types.{target_type, is_single as is_single_seen};
ghost use Rattle.efl_types.specs.Expressions.{when, place_faults, store_faults};
ghost use Rattle.efl_types.specs.Presets.{first_name, may_begin as may_begin_seen, kinds_if_small, kinds_from, misfit, is_open_array, overflows as overflows_seen, preset_faults};
ghost use Rattle.efl_scoped.specs.Numbers.{Table};
ghost use Rattle.efl_scoped.specs.Told.{capped, Tells};
ghost use Rattle.efl_expressions.specs.declared.types.Structure as structures;
ghost use Rattle.efl_expressions.specs.FirstRule.{first_rule};
ghost use Rattle.efl_expressions.specs.TypeViews.{IsType};

use crate::counts::count_values;
use crate::offsets::offset;
use crate::subscripts::add;
use crate::values::misfits;
use efl_expressions::{DataType, Structures, form, is_single, lower, rule_if};
use efl_names::is_large;
use efl_scoped::Summary;
use efl_tree::{EflBound, EflConst, EflPreset};
use efl_types::TypeRule;

/// The first rule that a preset breaks, by the types of its variable and of what is stored into, whether the variable may have initial
/// values, and the first rule that its place breaks by itself.
pub fn preset_rule(
    structures: &Structures,
    variable: &DataType,
    target: &DataType,
    preset: &EflPreset,
    may_begin: bool,
    place: Option<TypeRule>,
) -> Option<TypeRule>
    ensures { (f : Table) (u : EflProcedure) (n : Names) (is_outer : Bool) → let p = preset_of preset.now in
        IsType f structures.now.list.items (variable_type n (first_name p.place)) variable.now → IsType f structures.now.list.items (target_type n p.place) target.now →
        may_begin_seen u is_outer (meaning n.blocks (first_name p.place)) ≡ may_begin → first_rule (place_faults n p.place ++ store_faults n p.place) ≡ place →
        result ≡ first_rule (preset_faults u n is_outer p) }
{
    let found = offset(structures, variable, &preset.place);
    let unlisted = lower(place, unlisted_rule(preset.listed, target));
    values_rule(
        structures,
        variable,
        target,
        found,
        &preset.values,
        may_begin,
        unlisted,
    )
}

fn unlisted_rule(listed: bool, target: &DataType) -> Option<TypeRule>
    ensures { (f : Table) (ss : List structures.Structure) (t : TypeSeen) → IsType f ss t target.now → result ≡ first_rule (when (not listed && not (is_single_seen t)) rules.TypeClash) }
{
    rule_if(is_unlisted(listed, target), TypeRule::TypeClash)
}

/// Whether constants stand without parentheses where more than one place is.
fn is_unlisted(listed: bool, target: &DataType) -> bool
    ensures { (f : Table) (ss : List structures.Structure) (t : TypeSeen) → IsType f ss t target.now → result ≡ (not listed && not (is_single_seen t)) }
{
    if listed {
        return false;
    }
    !is_single(form(target))
}

/// The first rule that values break, where others go before.
fn values_rule(
    structures: &Structures,
    variable: &DataType,
    target: &DataType,
    found: Option<u64>,
    values: &[(u32, EflConst)],
    may_begin: bool,
    before: Option<TypeRule>,
) -> Option<TypeRule>
    ensures { (f : Table) (t p : TypeSeen) (o : Option ℕ) (rs : List RuleSeen) → IsType f structures.now.list.items t variable.now → IsType f structures.now.list.items p target.now →
        found ≡ option_map capped o → first_rule rs ≡ before →
        result ≡ first_rule (rs ++ when (overflows_seen t (sum_by (λ c. c.0) values.now) o) rules.WrongCount ++ when (list_any (λ c. nat_eq c.0 0) values.now || misfit (kinds_from o t p) values.now) rules.BadConstant ++ when (is_none o || not may_begin) rules.NotAssignable) }
{
    let many = rule_if(
        overflows(variable, count_values(values), found),
        TypeRule::WrongCount,
    );
    let bad = rule_if(
        has_bad_value(structures, variable, target, found, values),
        TypeRule::BadConstant,
    );
    let barred = rule_if(is_barred(found, may_begin), TypeRule::NotAssignable);
    let counted = lower(before, many);
    let valued = lower(counted, bad);
    lower(valued, barred)
}

/// Whether there are more values than places from a place on. What is too large is not asked, nor an array with `*`.
fn overflows(variable: &DataType, values: u64, found: Option<u64>) -> bool
    ensures { (f : Table) (ss : List structures.Structure) (t : TypeSeen) (n : ℕ) (o : Option ℕ) → IsType f ss t variable.now → values ≡ capped n → found ≡ option_map capped o →
        result ≡ overflows_seen t n o }
{
    if is_unmeasured(variable) {
        return false;
    }
    are_too_many(variable.summary.places, values, found)
}

fn is_unmeasured(variable: &DataType) -> bool
    ensures { (f : Table) (ss : List structures.Structure) (t : TypeSeen) → IsType f ss t variable.now → result ≡ (is_large_seen t || is_open_array t) }
{
    is_either(is_large(variable.summary), has_open(variable.bounds))
}

fn is_either(one: bool, other: bool) -> bool
    ensures { result ≡ (one || other) }
{
    one || other
}

/// Whether `*` is among bounds.
fn has_open(bounds: &[EflBound]) -> bool
    ensures { result ≡ list_any (λ b. is_none b.high) bounds.now }
{
    bounds.iter().any(|bound| is_open(*bound))
}

/// `*`.
fn is_open(bound: EflBound) -> bool
    ensures { result ≡ is_none bound.high }
{
    bound.high.is_none()
}

fn are_too_many(places: u64, values: u64, found: Option<u64>) -> bool
    ensures { (t : TypeSeen) (n : ℕ) (o : Option ℕ) → places ≡ places_seen t → places ≤ 32767 → values ≡ capped n → found ≡ option_map capped o →
        result ≡ is_some_and (λ i. nat_lt (places_seen t) (i + n)) o }
{
    match found {
        None => false,
        Some(offset) => places < add(offset, values),
    }
}

/// Whether no place was found, or it may have no initial values.
fn is_barred(found: Option<u64>, may_begin: bool) -> bool
    ensures { (o : Option ℕ) → found ≡ option_map capped o → result ≡ (is_none o || not may_begin) }
{
    match found {
        None => true,
        Some(_offset) => !may_begin,
    }
}

/// Whether a count is zero, or a value of another kind than its place.
fn has_bad_value(
    structures: &Structures,
    variable: &DataType,
    target: &DataType,
    found: Option<u64>,
    values: &[(u32, EflConst)],
) -> bool
    ensures { (f : Table) (t p : TypeSeen) (o : Option ℕ) → IsType f structures.now.list.items t variable.now → IsType f structures.now.list.items p target.now → found ≡ option_map capped o →
        result ≡ (list_any (λ c. nat_eq c.0 0) values.now || misfit (kinds_from o t p) values.now) }
{
    if has_zero(values) {
        return true;
    }
    misfits_from(structures, variable, target, found, values)
}

fn misfits_from(
    structures: &Structures,
    variable: &DataType,
    target: &DataType,
    found: Option<u64>,
    values: &[(u32, EflConst)],
) -> bool
    ensures { (f : Table) (t p : TypeSeen) (o : Option ℕ) → IsType f structures.now.list.items t variable.now → IsType f structures.now.list.items p target.now → found ≡ option_map capped o →
        result ≡ misfit (kinds_from o t p) values.now }
{
    match found {
        None => misfits_if_small(structures, target, 0, values),
        Some(offset) => misfits_if_small(structures, variable, offset, values),
    }
}

/// Whether a value misfits from a place on, where not too much is there.
fn misfits_if_small(
    structures: &Structures,
    kind: &DataType,
    from: u64,
    values: &[(u32, EflConst)],
) -> bool
    ensures { (f : Table) (t : TypeSeen) → IsType f structures.now.list.items t kind.now → result ≡ misfit (drop from (kinds_if_small t)) values.now }
{
    if is_large(kind.summary) {
        return false;
    }
    misfits(structures, kind, from, values)
}

fn has_zero(values: &[(u32, EflConst)]) -> bool
    ensures { result ≡ list_any (λ c. nat_eq c.0 0) values.now }
{
    values.iter().any(|value| value.0 == 0)
}
