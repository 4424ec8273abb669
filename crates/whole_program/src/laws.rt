// The law of linked programs. The function does nothing: its contract is the law.
ghost use Rattle.whole_program.specs.Linkage.{LinkedIsLinkage};

/// The tables of a whole program are what a run of its units goes by (X3.9-1966, sections 7.2.2, 8 and 10.2).
pub fn linked_is_linkage()
    ensures { LinkedIsLinkage }
{}
