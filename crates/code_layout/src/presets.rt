// The initial values of a linked program's storage units.
ghost use Rattle.std.specs.Prelude.{◌≡◌, IfOk, map};
ghost use Rattle.linker.specs.CallViews.{units_in};
ghost use Rattle.whole_program.specs.Linked.{IsLinked};
ghost use Rattle.code_emit.specs.Names.{preset_in};
ghost use Rattle.code_layout.specs.Presets.{pair_in};
ghost use Rattle.code_layout.specs.Ranked.{initial_of};

use ground::Value;
use std::alloc::{AllocError, Global};
use whole_program::Linked;

/// The storage units that DATA fills with their values, in reading order. A constant that is no value, which no sound unit has, counts
/// as out of memory.
pub(crate) fn presets_of(
    alloc: Global,
    linked: &Linked<'_>,
) -> Result<Vec<(u32, Value)>, AllocError>
    requires { IsLinked (units_in linked.now.calls) linked.now }
    ensures { IfOk result (λ v. map preset_in v.items ≡ initial_of linked.now) }
{
    let pairs = linked.initial(alloc)?;
    values_of(alloc, &pairs)
}

fn values_of(
    alloc: Global,
    pairs: &[(usize, Option<Value>)],
) -> Result<Vec<(u32, Value)>, AllocError>
    ensures { IfOk result (λ v. map preset_in v.items ≡ map pair_in pairs.now) }
{
    let mut values = Vec::new(alloc);
    for pair in pairs {
        let value = value_of(pair)?;
        values.push(value)?;
    }
    Ok(values)
}

fn value_of(pair: &(usize, Option<Value>)) -> Result<(u32, Value), AllocError>
    ensures { IfOk result (λ p. preset_in p ≡ pair_in pair.now) }
{
    let Some(value) = pair.1 else {
        return Err(AllocError);
    };
    match u32::try_from(pair.0) {
        Ok(number) => Ok((number, value)),
        Err(_) => Err(AllocError),
    }
}
