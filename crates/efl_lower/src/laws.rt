// The law of the units of an accepted program of EFL. The function does nothing: its contract is the law.
ghost use Rattle.efl_lower.specs.Laws.{AcceptedServes};

use efl_grammar::answers_are_published;
use efl_limits::{
    grammar_has_little_storage, grammar_is_short, parsed_has_few_labels, parsed_has_few_procedures,
    parsed_is_small,
};
use efl_lowered::{accepted_is_ready, scalar_units_agree};
use efl_naming::{names_are_apart, naming_has_room};
use efl_shape::{built_is_over_scalars, grammar_is_shaped};
use efl_typed::{accepted_is_scoped, accepted_never_lost};
use efl_written::grammar_is_written;

/// The units of an accepted program are a legal deck, and a run of them shows what the program means, however their places are numbered.
pub fn accepted_serves()
    ensures { AcceptedServes }
{
    answers_are_published();
    grammar_is_shaped();
    grammar_is_written();
    parsed_is_small();
    parsed_has_few_labels();
    parsed_has_few_procedures();
    grammar_has_little_storage();
    grammar_is_short();
    built_is_over_scalars();
    accepted_is_ready();
    accepted_is_scoped();
    accepted_never_lost();
    naming_has_room();
    names_are_apart();
    scalar_units_agree();
}
