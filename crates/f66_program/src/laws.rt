// Laws of the definitions. The functions do nothing: their contracts are the laws.
ghost use Rattle.f66_program.specs.Laws.{OneCount, WellTogether};

/// Units whose storage association is not bad by itself make a program whose association is not bad (X3.9-1966, section 10.2.1).
pub fn well_together()
    ensures { WellTogether }
{}

/// A program has one number of storage units, however they are numbered.
pub fn one_count()
    ensures { OneCount }
{}
