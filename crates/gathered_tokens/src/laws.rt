// The laws of the tokens that are gathered. The functions do nothing: their contracts are the laws.
ghost use Rattle.gathered_tokens.specs.Few.{GatheredAreFew};
ghost use Rattle.gathered_tokens.specs.Written.{GatheredAreWritten};

/// A text that is gathered has at most 200,000 tokens.
pub fn gathered_are_few()
    ensures { GatheredAreFew }
{}

/// Of the tokens of a text that is gathered each number is from 0 to 2147483647, each word is a letter with letters and digits behind
/// it, and each quoted text has characters that a card may have.
pub fn gathered_are_written()
    ensures { GatheredAreWritten }
{}
