// The laws of first faults. The functions do nothing: their contracts are the laws.
ghost use Rattle.one_fault.specs.Laws.{BadIsWhole, OneBadFault, OneLinkFault};

/// The first statement up to which a unit's COMMON and EQUIVALENCE are bad is one (X3.9-1966, sections 7.2.1.3 and 7.2.1.4), and where
/// there is one the unit is bad.
pub fn one_bad_fault()
    ensures one { OneBadFault }
    ensures whole { BadIsWhole }
{}

/// The first fault of linking is one.
pub fn one_link_fault()
    ensures { OneLinkFault }
{}
