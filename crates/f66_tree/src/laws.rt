// Laws of the definitions. The functions do nothing: their contracts are the laws.
ghost use Rattle.f66_tree.specs.FirstLaws.{StoreKeeps, RecordsStay};
ghost use Rattle.f66_tree.specs.Laws.{RunsExtend, PlacesTellTrapsAlone, UnaskedChangeNothing};

/// A store holds what was put last.
pub fn store_keeps()
    ensures { StoreKeeps }
{}

/// Editing leaves the records that were written.
pub fn records_stay()
    ensures { RecordsStay }
{}

/// A run of linked units that has ended is the same at every greater bound, and one that goes on has records that begin
/// those at every greater bound.
pub fn runs_extend()
    ensures { RunsExtend }
{}

/// Units that differ in the places of their statements alone have runs that differ in the place of the trap alone.
pub fn places_tell_traps_alone()
    ensures { PlacesTellTrapsAlone }
{}

/// Records of input that a run does not ask for do not change it.
pub fn unasked_change_nothing()
    ensures { UnaskedChangeNothing }
{}
