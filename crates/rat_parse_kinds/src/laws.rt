// The law of what the productions make. The function does nothing: its contract is the law.
ghost use Rattle.rat_parse_kinds.specs.Readings.{EachIsMeant};

/// Each production reads each of its parts as what the grammar has there, and makes what the grammar has it make.
pub fn each_is_meant()
    ensures { EachIsMeant }
{}
