// The laws of ranks. The functions do nothing: their contracts are the laws.
ghost use Rattle.call_ranks.specs.Ranks.{CallsHaveRanks, WholeHasRanks};

/// Where no call leads back, there are ranks below the number of units that fall along each call (X3.9-1966, sections 8.3.2 and 8.4.2).
pub fn calls_have_ranks()
    ensures { CallsHaveRanks }
{}

/// So there are in a whole program.
pub fn whole_has_ranks()
    ensures { WholeHasRanks }
{}
