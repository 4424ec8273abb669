// Laws of what programs mean. The functions do nothing: their contracts are the laws.
ghost use Rattle.rat_tree.specs.Laws.{MeaningsExtend, RatforPlacesTellTrapsAlone, RatforUnaskedChangeNothing};

/// A program that has ended at a bound shows the same at every greater bound, and one that goes on has records that begin
/// those at every greater bound.
pub fn meanings_extend()
    ensures { MeaningsExtend }
{}

/// Programs that differ in the places of their statements alone have meanings that differ in the place of the trap alone.
pub fn places_tell_traps_alone()
    ensures { RatforPlacesTellTrapsAlone }
{}

/// Records of input that a program does not ask for do not change it.
pub fn unasked_change_nothing()
    ensures { RatforUnaskedChangeNothing }
{}
