// The numbers of units by their names.
ghost use Rattle.std.specs.Prelude.{◌≡◌, ℕ, List, IfOk, OnOk, Some, None, if◌then◌else◌, map};
ghost use Rattle.std.specs.HashMap.{get_by};
ghost use Rattle.std.specs.Option.{option_or};
ghost use Rattle.std.specs.Str.{bytes_eq};
ghost use Rattle.f66_tree.specs.Views.{header_of, routine_of};
ghost use Rattle.f66_program.specs.Calls.{is_called, unit_named};

use f66_tree::{Header, Unit};
use rule_table::note;
use std::alloc::{AllocError, Global};
use std::collections::HashMap;

/// The number of the first subroutine or function of each name.
pub(crate) fn numbers_of<'a>(
    alloc: Global,
    units: &'a [Unit],
) -> Result<HashMap<&'a [u8], usize>, AllocError>
    ensures { IfOk result (λ t. (q : List ℕ) → get_by (λ k. bytes_eq q k.now) t ≡ unit_named q (map routine_of units.now)) }
{
    let mut numbers = HashMap::new(alloc);
    for (number, unit) in units.iter().enumerate() {
        note_unit(&mut numbers, unit, number)?;
    }
    Ok(numbers)
}

fn note_unit<'a>(
    numbers: &mut HashMap<&'a [u8], usize>,
    unit: &'a Unit,
    number: usize,
) -> Result<(), AllocError>
    ensures { OnOk result ((q : List ℕ) → get_by (λ k. bytes_eq q k.now) numbers.new
        ≡ option_or (get_by (λ k. bytes_eq q k.now) numbers.old) (if is_called q (header_of unit.now.header) then Some number else None)) }
{
    match &unit.header {
        Header::Sub(name, _) => note(numbers, name.as_bytes(), number),
        Header::Func(_, name, _) => note(numbers, name.as_bytes(), number),
        _ => Ok(()),
    }
}
