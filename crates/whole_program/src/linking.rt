// Units taken together, by all rules of linking in their order.
ghost use Rattle.std.specs.Prelude.{◌≡◌, IfOk, IfErr, map};
ghost use Rattle.std.specs.List.{All};
ghost use Rattle.f66_tree.specs.Views.{routine_of};
ghost use Rattle.f66_program.specs.Association.{IsBadUnit};
ghost use Rattle.f66_program.specs.Linking.{IsWhole};
ghost use Rattle.linker.specs.Rules.{program_of};
ghost use Rattle.storage_assoc.specs.Naming.{IsReady};
ghost use Rattle.whole_program.specs.Linked.{IsLinked, IsLinkRefusal};

use crate::linked::Linked;
use crate::main_unit::main_of;
use f66_tree::Unit;
use ground::{Place, Refusal};
use linker::link_calls;
use program_storage::{number_program, storage_limit};
use std::alloc::Global;
use storage_rules::{common_mismatch, initial_twice, numbers_of, presets_of};

/// The units of a whole program linked, or the first fault of it (X3.9-1966, sections 7.2, 8.3, 8.4, 9.1 and 10). Each unit is ready,
/// and none is bad by itself; `finish` is the place of the end of their text.
pub fn link<'a>(alloc: Global, units: &'a [Unit], finish: Place) -> Result<Linked<'a>, Refusal>
    requires ready { All (λ u. IsReady (routine_of u)) units.now }
    requires well { All (λ u. ¬ IsBadUnit (routine_of u)) units.now }
    ensures units { IfOk result (λ l. l.calls.units.now ≡ units.now) }
    ensures whole { IfOk result (λ l. IsWhole (program_of units.now finish)) }
    ensures linked { IfOk result (λ l. IsLinked (map routine_of units.now) l) }
    ensures refused { IfErr result (λ e. IsLinkRefusal (program_of units.now finish) e) }
{
    let calls = link_calls(alloc, units, finish)?;
    if let Some(fault) = common_mismatch(alloc, units)? {
        return Err(Refusal::Fault(fault));
    }
    let storage = number_program(alloc, units)?;
    let presets = presets_of(alloc, units)?;
    let numbers = numbers_of(alloc, &storage, &presets)?;
    if let Some(fault) = initial_twice(alloc, units, &storage, &presets, &numbers)? {
        return Err(Refusal::Fault(fault));
    }
    if let Some(fault) = storage_limit(alloc, units, &storage)? {
        return Err(Refusal::Fault(fault));
    }
    let Some(main) = main_of(units) else {
        unreachable!()
    };
    Ok(Linked {
        calls,
        storage,
        main,
        presets,
        numbers,
    })
}
