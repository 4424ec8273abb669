// The numbers of the owners of places, which the same ones alone share.
ghost use Rattle.std.specs.Prelude.{IfOk};
ghost use Rattle.efl_scoped.specs.Seen.{table_of, Leads};
ghost use Rattle.efl_types.specs.Presets as seen;
ghost use Rattle.efl_blocks.specs.HomeViews.{position_of};
ghost use Rattle.efl_initial_values.specs.Owners.{Codes};

use efl_blocks::Position;
use efl_scoped::Pairs;
use std::alloc::AllocError;

/// The number from which what tells a variable of a procedure goes on.
const OWN: usize = 0;

/// The number from which what tells a variable of an area goes on.
const OF_AREA: usize = 1;

/// The number from which the bytes of a name go on.
const NAME: usize = 2;

/// The number of a variable of a procedure, by the procedure's number, where the variable's block stands, and its name.
pub fn number_own(
    unit: usize,
    position: &Position,
    name: &[u8],
    numbers: &mut Pairs,
) -> Result<usize, AllocError>
    ensures { IfOk result (λ n. Codes (table_of numbers.old) (seen.Own unit (position_of position.now) name.now) (table_of numbers.new) n) }
{
    let word = number_bytes(NAME, name, numbers)?;
    let first = numbers.number(OWN, unit)?;
    let second = numbers.number(first, word)?;
    number_position(second, position, numbers)
}

/// The number of a variable of an area, by its number there.
pub fn number_shared(area: &[u8], number: usize, numbers: &mut Pairs) -> Result<usize, AllocError>
    ensures { IfOk result (λ n. Codes (table_of numbers.old) (seen.OfArea area.now number) (table_of numbers.new) n) }
{
    let first = numbers.number(OF_AREA, number)?;
    number_bytes(first, area, numbers)
}

/// From a number on by the bytes of a text.
fn number_bytes(from: usize, bytes: &[u8], numbers: &mut Pairs) -> Result<usize, AllocError>
    ensures { IfOk result (λ n. Leads (table_of numbers.old) bytes.now from (table_of numbers.new) n) }
{
    let mut so_far = from;
    for byte in bytes {
        so_far = numbers.number(so_far, *byte as usize)?;
    }
    Ok(so_far)
}

/// From a number on by where a block stands.
fn number_position(
    from: usize,
    position: &Position,
    numbers: &mut Pairs,
) -> Result<usize, AllocError>
    ensures { IfOk result (λ n. Leads (table_of numbers.old) (position_of position.now) from (table_of numbers.new) n) }
{
    match position {
        Position::Top => Ok(from),
        Position::Inside(number, outside) => {
            let next = numbers.number(from, *number)?;
            number_position(next, outside, numbers)
        }
    }
}
