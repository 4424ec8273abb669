// Laws of the grammar. The functions do nothing: their contracts are the laws.
ghost use Rattle.efl_parse.specs.OneTree.{EachHasOneTree};

/// A text has at most one derivation, and at most one tree.
pub fn one_tree()
    ensures { EachHasOneTree }
{}
