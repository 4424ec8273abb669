// The laws of sound units. The functions do nothing: their contracts are the laws.
ghost use Rattle.f66_tree.specs.Views.{routine_of};
ghost use Rattle.storage_assoc.specs.Naming.{IsReady};
ghost use Rattle.sound_units.specs.Laws.{SoundIsReady};

use f66_check::SoundUnit;

/// In a sound unit of any kind what stands in COMMON or EQUIVALENCE has places of the unit's own, and no name has too many
/// (X3.9-1966, sections 7.2.1.3, 7.2.1.4 and 10.1).
pub fn sound_is_ready()
    ensures { SoundIsReady }
{}

/// So is each unit that the checks accept.
pub fn checked_is_ready(checked: &SoundUnit)
    ensures { IsReady (routine_of checked.now) }
{
    let _unit = checked.unit();
}
