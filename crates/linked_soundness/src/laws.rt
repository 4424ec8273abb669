// The laws of linked sound units. The functions do nothing: their contracts are the laws.
ghost use Rattle.linked_soundness.specs.Laws.{CompleteNeverWrong, LinkedNeverWrong};

/// No run of a program ends Wrong whose units are sound, and whose calls lead to units with as many dummies (X3.9-1966, sections 5
/// to 10), on any input and at any bound.
pub fn complete_never_wrong()
    ensures { CompleteNeverWrong }
{}

/// So no run of a whole program of sound units does.
pub fn linked_never_wrong()
    ensures { LinkedNeverWrong }
{}
