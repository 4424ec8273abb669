// Laws of linking what was lowered. The functions do nothing: their contracts are the laws.
ghost use Rattle.rat_linked.specs.Laws.{CleanIsProper, MadeAreWell, MadeAreWhole};
ghost use Rattle.rat_linked.specs.Meaning.{SourceLinks};

/// The units that Ratfor units become have a good association where what their sources say has (X3.9-1966, sections 7.2.1.3 and
/// 7.2.1.4).
pub fn made_are_well()
    ensures { MadeAreWell }
{}

/// And they link where what their sources say links, so that no rule is broken that the source does not break (X3.9-1966, sections
/// 7.2, 8.3, 8.4, 9.1 and 10).
pub fn made_are_whole()
    ensures { MadeAreWhole }
{}

/// What a linkage of the units that a program became says of its sources is a linkage of what these say: by it the program means what
/// it means, whichever labels and spare names were made.
pub fn source_links()
    ensures { SourceLinks }
{}

/// The parts of a unit that its checks accept have no statement in the words of a `for` that is not executed, and return values in a
/// function alone.
pub fn clean_is_proper()
    ensures { CleanIsProper }
{}
