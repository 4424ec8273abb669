// Laws of what EFL programs mean. The functions do nothing: their contracts are the laws.
ghost use Rattle.efl_program.specs.Laws.{EflMeaningsExtend, EflPlacesTellTrapsAlone, EflUnaskedChangeNothing, ScopedNeverLost};

/// A program whose jumps, `break`s and `next`s have where to go, and whose calls lead to procedures of lesser rank, means
/// something over any input at every bound.
pub fn scoped_never_lost()
    ensures { ScopedNeverLost }
{}

/// A program that has ended at a bound shows the same at every greater bound, and one that goes on has records that begin
/// those at every greater bound.
pub fn meanings_extend()
    ensures { EflMeaningsExtend }
{}

/// Programs that differ in the places of their statements alone have meanings that differ in the place of the trap alone.
pub fn places_tell_traps_alone()
    ensures { EflPlacesTellTrapsAlone }
{}

/// Records of input that a program does not ask for do not change it.
pub fn unasked_change_nothing()
    ensures { EflUnaskedChangeNothing }
{}
