// The laws of whole programs and of verdicts. The functions do nothing: their contracts are the laws.
ghost use Rattle.front.specs.Laws.{AcceptedHasNone, OneFirstFault, OneMeaning, OneVerdict, UnitsServe};

/// A program of Ratfor has at most one first fault.
pub fn one_first_fault()
    ensures { OneFirstFault }
{}

/// An accepted program has none.
pub fn accepted_has_none()
    ensures { AcceptedHasNone }
{}

/// What an accepted program means is not a matter of how its storage units are numbered (X3.9-1966, sections 7.2.1 and 10.2.1).
pub fn one_meaning()
    ensures { OneMeaning }
{}

/// The units that the units of an accepted program become link, do what it means, and fit their cards.
pub fn units_serve()
    ensures { UnitsServe }
{}

/// A text has one verdict.
pub fn one_verdict()
    ensures { OneVerdict }
{
    rat_grammar::answers_are_published();
    efl_grammar::answers_are_published();
    one_first_fault();
    accepted_has_none();
    one_meaning();
}
