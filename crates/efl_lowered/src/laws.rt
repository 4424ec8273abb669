// The laws of EFL's lowering to units of FORTRAN. The functions do nothing: their contracts are the laws.
ghost use Rattle.efl_lowered.specs.Laws.{AcceptedIsReady, ScalarUnitsAgree};

/// An accepted program of EFL whose variables are scalars agrees with the units that it becomes, over any input and however their places
/// are numbered: what a run of the units shows is what the program means, and nothing that it does is missed.
pub fn scalar_units_agree()
    ensures { ScalarUnitsAgree }
{}

/// What the checks accept of a program whose variables are scalars meets what the law of its units asks, where these have room for its
/// temporaries.
pub fn accepted_is_ready()
    ensures { AcceptedIsReady }
{}
