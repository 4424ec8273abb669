// The laws of the shape that a lowering of EFL asks for. The functions do nothing: their contracts are the laws.
ghost use Rattle.efl_shape.specs.Laws.{BuiltIsOverScalars, GrammarIsShaped};

/// A program that the checks accept, and of which each form is built, is one over scalars.
pub fn built_is_over_scalars()
    ensures { BuiltIsOverScalars }
{}

/// A program that the published grammar derives has the shape that its lowering asks for beyond its tree.
pub fn grammar_is_shaped()
    ensures { GrammarIsShaped }
{}
