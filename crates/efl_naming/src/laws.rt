// The laws of the names that are chosen. The functions do nothing: their contracts are the laws.
ghost use Rattle.efl_naming.specs.Laws.{NamesAreApart, NamingHasRoom};

/// The names of what is in a unit of an accepted program are apart, and so are its labels and the names of its procedures, where the
/// numbers in those that are made have five digits.
pub fn names_are_apart()
    ensures { NamesAreApart }
{}

/// Each unit has room for the temporaries of its body.
pub fn naming_has_room()
    ensures { NamingHasRoom }
{}
