// The laws of numbers of storage units. The functions do nothing: their contracts are the laws.
ghost use Rattle.renumbering.specs.Numbered.{NumberingLinks};
ghost use Rattle.renumbering.specs.Laws.{NumbersAlone, OwnAreNamed, RatforNumbersAlone, WholeIsMatched};

/// Runs of a program of sound units by any two linkages show the same records, end with its place, and count, on every input and at
/// every bound, where there is one main and references lead to functions: numbers of storage units that are equal where places are
/// one, and else not, are all the same to a run (X3.9-1966, sections 7.2.1, 8.3 and 10.2.1).
pub fn numbers_alone()
    ensures { NumbersAlone }
{}

/// So is what a program of Ratfor means whose names stand for what those of units do whose places are right by the rules of names.
pub fn ratfor_numbers_alone()
    ensures { RatforNumbersAlone }
{}

/// The names that such units use by themselves do.
pub fn own_are_named()
    ensures { OwnAreNamed }
{}

/// A whole program has one main, and its references lead to functions.
pub fn whole_is_matched()
    ensures { WholeIsMatched }
{}

/// A program of sound units has a linkage by each numbering of its storage units, where none of them is given two initial values
/// (X3.9-1966, section 7.2.2).
pub fn numbering_links()
    ensures { NumberingLinks }
{}
