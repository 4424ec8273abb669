// The laws of the parser's limits. The functions do nothing: their contracts are the laws.
ghost use Rattle.rat_room.specs.Room.{ParsedHasFewUnits, ParsedHasRoom, ParsedIsFew};

/// Each unit of a program that the parser accepts has room for its labels and names.
pub fn parsed_has_room()
    ensures { ParsedHasRoom }
{}

/// Each unit of a program that the parser accepts becomes 80,002 statements of FORTRAN at most.
pub fn parsed_is_few()
    ensures { ParsedIsFew }
{}

/// A program that the parser accepts has 500 units at most.
pub fn parsed_has_few_units()
    ensures { ParsedHasFewUnits }
{}
