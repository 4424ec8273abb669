// The laws of decks and their faults. The functions do nothing: their contracts are the laws.
ghost use Rattle.deck_link.specs.Laws.{AcceptedHasNone, OneFirstFault};

/// Units without a fault of their own that link have no fault: what is accepted is not refused.
pub fn accepted_has_none()
    ensures { AcceptedHasNone }
{}

/// A deck has at most one first fault.
pub fn one_first_fault()
    ensures { OneFirstFault }
{}
