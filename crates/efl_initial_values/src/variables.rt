// What is known of a variable with initial values by where its block stands and by its area.
ghost use Rattle.std.specs.Prelude.{◌≡◌, [], Some, option_map, IfOk};
ghost use Rattle.efl_tree.specs.Syntax.{EflProcedure};
ghost use Rattle.efl_scope.specs.Scopes.{Blocks, Variable, IsVariable, meaning};
ghost use Rattle.efl_scope.specs.ScopeRules.{holds};
ghost use Rattle.efl_types.specs.Presets.{area_if_outer, may_begin as may_begin_seen, by_area, owner_by};
ghost use Rattle.efl_scoped.specs.Seen.{table_of};
ghost use Rattle.efl_blocks.specs.HomeViews.{position_of, AreHomes};
ghost use Rattle.efl_initial_values.specs.Owners.{shared_of, shared_in, AreAreas, Codes, IsAt};

use crate::Areas;
use crate::owners::{number_own, number_shared};
use efl_blocks::{Homes, Position, home_of};
use efl_scoped::Pairs;
use efl_tree::EflName;
use std::alloc::AllocError;

/// Whether a variable of this name may have initial values.
pub fn may_begin(
    name: &[u8],
    homes: &Homes,
    areas: &Areas,
    formals: &[EflName],
    is_outer: bool,
) -> bool
    ensures { (u : EflProcedure) (bs : Blocks) → AreHomes u bs homes.now → AreAreas u areas.now → u.formals ≡ formals.now → may_begin_seen u is_outer (meaning bs name.now) ≡ result }
{
    match home_of(homes, name) {
        None => true,
        Some(home) => may_begin_at(home, name, areas, formals, is_outer),
    }
}

fn may_begin_at(
    home: &Position,
    name: &[u8],
    areas: &Areas,
    formals: &[EflName],
    is_outer: bool,
) -> bool
    ensures { (u : EflProcedure) (v : Variable) → IsAt u areas.now name.now (position_of home.now) v → u.formals ≡ formals.now → may_begin_seen u is_outer (Some (IsVariable v)) ≡ result }
{
    match home {
        Position::Inside(_, _) => true,
        Position::Top => (is_outer || areas.get(name).is_none()) && !is_formal(formals, name),
    }
}

fn is_formal(formals: &[EflName], name: &[u8]) -> bool
    ensures { result ≡ holds formals.now name.now }
{
    formals.iter().any(|formal| name == formal.as_bytes())
}

/// The number of what the places of this name are in, in the procedure with this number.
pub fn number_owner(
    unit: usize,
    name: &[u8],
    homes: &Homes,
    areas: &Areas,
    numbers: &mut Pairs,
) -> Result<usize, AllocError>
    ensures { IfOk result (λ n. (u : EflProcedure) (bs : Blocks) → AreHomes u bs homes.now → AreAreas u areas.now →
        Codes (table_of numbers.old) (owner_by unit u name.now (meaning bs name.now)) (table_of numbers.new) n) }
{
    match home_of(homes, name) {
        None => number_own(unit, &Position::Top, name, numbers),
        Some(home) => number_at(unit, home, name, areas, numbers),
    }
}

fn number_at(
    unit: usize,
    home: &Position,
    name: &[u8],
    areas: &Areas,
    numbers: &mut Pairs,
) -> Result<usize, AllocError>
    ensures { IfOk result (λ n. (u : EflProcedure) (v : Variable) → IsAt u areas.now name.now (position_of home.now) v →
        Codes (table_of numbers.old) (by_area unit u v (area_if_outer v)) (table_of numbers.new) n) }
{
    match home {
        Position::Inside(_, _) => number_own(unit, home, name, numbers),
        Position::Top => match areas.get(name) {
            None => number_own(unit, home, name, numbers),
            Some(shared) => number_shared(shared.area, shared.number, numbers),
        },
    }
}
