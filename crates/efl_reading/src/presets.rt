// The first rule that initial values break by themselves, and whether they fill what is filled.
ghost use Rattle.std.specs.Prelude.{◌≡◌, nat_eq, length, Bool, List, ◌++◌, map, flat_map, IfOk};
ghost use Rattle.efl_tree.specs.Syntax.{EflPlace, EflProcedure};
ghost use Rattle.efl_tree.specs.Views.{preset_of};
ghost use Rattle.efl_types.specs.Signatures.{Names as NamesSeen};
ghost use Rattle.efl_types.specs.Types.{target_type};
ghost use Rattle.efl_types.specs.declared.rule.TypeRule.TheVariants.{InitialTwice, ManyValues};
ghost use Rattle.efl_types.specs.Expressions.{store_faults, when};
ghost use Rattle.efl_types.specs.Presets.{preset_faults, filled as filled_seen};
ghost use Rattle.efl_scoped.specs.Numbers.{Table};
ghost use Rattle.efl_scoped.specs.Seen.{table_of};
ghost use Rattle.efl_expressions.specs.declared.types.Structure as structures;
ghost use Rattle.efl_expressions.specs.FirstRule.{first_rule};
ghost use Rattle.efl_expressions.specs.TypeViews.{IsType};
ghost use Rattle.efl_names.specs.NameViews.{Stands};
ghost use Rattle.efl_places.specs.Checks.{IsPlaced};
ghost use Rattle.efl_blocks.specs.HomeViews.{position_of, AreHomes};
ghost use Rattle.efl_initial_values.specs.Fills.{ends_of};
ghost use Rattle.efl_initial_values.specs.Owners.{AreAreas};
ghost use Rattle.efl_reading.specs.Reading.{FillsMore};

use crate::Site;
use efl_blocks::Position;
use efl_expressions::{DataType, lower, nothing, rule_if};
use efl_initial_values::{Fills, filled, may_begin, number_owner, preset_rule};
use efl_names::Names;
use efl_places::{Placed, check_place};
use efl_scoped::Pairs;
use efl_tree::EflPreset;
use efl_types::TypeRule;
use std::alloc::AllocError;

/// The first rule that presets break by themselves.
pub fn own_rules(
    presets: &[EflPreset],
    names: &Names,
    site: &Site,
    is_outer: bool,
) -> Option<TypeRule>
    ensures { (f : Table) (n : NamesSeen) (u : EflProcedure) → Stands f n names.now → AreHomes u n.blocks site.now.homes.now → AreAreas u site.now.procedure.now.areas.now →
        u.formals ≡ site.now.procedure.now.formals.now → result ≡ first_rule (flat_map (preset_faults u n is_outer) (map preset_of presets.now)) }
{
    let mut rule = None;
    for preset in presets {
        rule = lower(rule, own_rule(preset, names, site, is_outer));
    }
    rule
}

/// The first rule that a preset breaks by itself, in the outer block of its procedure or in an inner one.
fn own_rule(preset: &EflPreset, names: &Names, site: &Site, is_outer: bool) -> Option<TypeRule>
    ensures { (f : Table) (n : NamesSeen) (u : EflProcedure) → Stands f n names.now → AreHomes u n.blocks site.now.homes.now → AreAreas u site.now.procedure.now.areas.now →
        u.formals ≡ site.now.procedure.now.formals.now → result ≡ first_rule (preset_faults u n is_outer (preset_of preset.now)) }
{
    let name = preset.place.first.as_bytes();
    let variable = names.variable_type(name);
    let placed = check_place(&preset.place, names);
    let target = stored_type(&placed);
    let procedure = site.procedure;
    let begins = may_begin(
        name,
        site.homes,
        procedure.areas,
        procedure.formals,
        is_outer,
    );
    let place = lower(placed.rule, stored_rule(&placed));
    preset_rule(names.structures, &variable, &target, preset, begins, place)
}

/// What a place breaks by being stored into: a call may not be.
fn stored_rule(place: &Placed) -> Option<TypeRule>
    ensures { (f : Table) (ss : List structures.Structure) (n : NamesSeen) (p : EflPlace) → IsPlaced f ss n p place.now → result ≡ first_rule (store_faults n p) }
{
    rule_if(place.is_call, TypeRule::NotAssignable)
}

/// The type of what is stored into: a call has none there.
fn stored_type<'a>(place: &Placed<'a>) -> DataType<'a>
    ensures { (f : Table) (ss : List structures.Structure) (n : NamesSeen) (p : EflPlace) → IsPlaced f ss n p place.now → IsType f ss (target_type n p) result }
{
    if place.is_call {
        return nothing();
    }
    place.kind
}

/// The first rule that initial values break: by themselves, by filling what is filled, and by being too many.
pub fn with_earlier(own: Option<TypeRule>, meets: bool, passes: bool) -> Option<TypeRule>
    ensures { (rs : List TypeRule) → own ≡ first_rule rs → result ≡ first_rule (rs ++ when meets InitialTwice ++ when passes ManyValues) }
{
    let twice = rule_if(meets, TypeRule::InitialTwice);
    let many = rule_if(passes, TypeRule::ManyValues);
    lower(own, lower(twice, many))
}

/// Whether presets fill what is filled. If not, that counts as filled too.
pub fn fill_presets(
    presets: &[EflPreset],
    names: &Names,
    site: &Site,
    fills: &mut Fills,
    owners: &mut Pairs,
) -> Result<bool, AllocError>
    ensures { IfOk result (λ met. (f : Table) (n : NamesSeen) (u : EflProcedure) → Stands f n names.now → AreHomes u n.blocks site.now.homes.now → AreAreas u site.now.procedure.now.areas.now →
        FillsMore (table_of owners.old) (ends_of fills.old.ends) (flat_map (filled_seen site.now.procedure.now.unit u n) (map preset_of presets.now)) (table_of owners.new) (ends_of fills.new.ends) met) }
{
    for preset in presets {
        if fill_preset(preset, names, site, fills, owners)? {
            return Ok(true);
        }
    }
    Ok(false)
}

fn fill_preset(
    preset: &EflPreset,
    names: &Names,
    site: &Site,
    fills: &mut Fills,
    owners: &mut Pairs,
) -> Result<bool, AllocError>
    ensures { IfOk result (λ met. (f : Table) (n : NamesSeen) (u : EflProcedure) → Stands f n names.now → AreHomes u n.blocks site.now.homes.now → AreAreas u site.now.procedure.now.areas.now →
        FillsMore (table_of owners.old) (ends_of fills.old.ends) (filled_seen site.now.procedure.now.unit u n (preset_of preset.now)) (table_of owners.new) (ends_of fills.new.ends) met) }
{
    let name = preset.place.first.as_bytes();
    let variable = names.variable_type(name);
    let procedure = site.procedure;
    match filled(names.structures, &variable, preset) {
        None => Ok(false),
        Some(range) => {
            let owner = number_owner(procedure.unit, name, site.homes, procedure.areas, owners)?;
            fills.fill(owner, range.first, range.many)
        }
    }
}

/// Whether a block is the outer one of its procedure.
pub fn is_top(position: &Position) -> bool
    ensures { result ≡ nat_eq (length (position_of position.now)) 0 }
{
    match position {
        Position::Top => true,
        Position::Inside(_, _) => false,
    }
}
