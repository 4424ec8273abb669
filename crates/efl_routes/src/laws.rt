// The law of EFL's lowering. The function does nothing: its contract is the law.
ghost use Rattle.efl_routes.specs.Laws.{ScalarProgramsAgree};

/// A program of EFL whose variables are scalars and whose units are those of its routes agrees with them, over any input: what a
/// run shows is what the program means, and nothing that it does is missed.
pub fn scalar_programs_agree()
    ensures { ScalarProgramsAgree }
{}
