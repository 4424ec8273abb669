// The law of runs over a source and a sink. The function does nothing: its contract is the law.
ghost use Rattle.machine.specs.Loading.{LoadedRuns};

use ports::{Sink, Source};

/// What a loaded runner does over a source and a sink is what its units do.
pub fn loaded_runs<S: Source, K: Sink>()
    ensures { (i0 i1 : S) (o0 o1 : K) → LoadedRuns S.left K.puts S.faults K.faults i0 i1 o0 o1 }
{}
