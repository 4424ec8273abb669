// What the clauses of `eft` say of a run, in the words of the languages. The functions do nothing: their contracts are the laws.
ghost use Rattle.eft_top.specs.Input.{HasGiven};
ghost use Rattle.eft_top.specs.Laws.{RunShowsMeaning, RunMissesNothing, InputIsWhole};

use f66_tree::runs_extend;
use front::one_verdict;
use ports::{Sink, Source};

/// What a run shows is what the text means.
pub fn a_run_shows_the_meaning<S: Source, K: Sink, D: Sink>()
    ensures { (input rest : S) (out shown : K) (diag told : D) →
        RunShowsMeaning (HasGiven S.left S.faults input rest) (λ bytes. K.puts out bytes shown) (λ bytes. D.puts diag bytes told) }
{
    one_verdict();
}

/// A run misses nothing that the text means.
pub fn a_run_misses_nothing<S: Source, K: Sink, D: Sink>()
    ensures { (input rest : S) (out shown : K) (diag told : D) →
        RunMissesNothing (HasGiven S.left S.faults input rest) (λ bytes. K.puts out bytes shown) (λ bytes. D.puts diag bytes told) }
{
    // What a longer run shows begins with what a shorter one does.
    runs_extend();
    one_verdict();
}

/// The whole input of a source that tells its bytes is one of those that begin with what was got.
pub fn a_told_input_is_whole<S: Source>()
    ensures { (input rest : S) → InputIsWhole S.left S.faults input rest }
{}
