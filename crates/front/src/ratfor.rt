// From the tokens of a Ratfor text to its units.
ghost use Rattle.std.specs.Prelude.{◌≤◌, length};
ghost use Rattle.rat_tree.specs.Views.{program_of as tree_of};
ghost use Rattle.rat_lower.specs.Lowered.{AllHaveRoom};
ghost use Rattle.macro_define.specs.GatherAnswers.{EndsText};
ghost use Rattle.front.specs.Programs.{PassWhereServed};
ghost use Rattle.front.specs.Ratfor.{IsJudged, IsRatfor};
ghost use Rattle.front.specs.Translated.{Finds};

use crate::Made;
use crate::laws::units_serve;
use deck_room::serving_units_pass_no_limit;
use ground::{List, Refusal, Token};
use rat_grammar::{answers_are_published, parse};
use rat_link::check_program;
use rat_lower::lower_accepted;
use rat_room::{parsed_has_few_units, parsed_has_room};
use rat_tree::RatProgram;
use std::alloc::Global;

/// The units of a text with these tokens, or the text's fault.
pub fn program_of(alloc: Global, tokens: List<Token>) -> Result<Made, Refusal>
    requires ends { EndsText tokens.items }
    requires few { length tokens.items ≤ 200000 }
    ensures { Finds (IsRatfor tokens.items) result }
{
    let program = parse(alloc, &tokens)?;
    // The tree is all that is used from here on.
    drop(tokens);
    answers_are_published();
    parsed_has_room();
    parsed_has_few_units();
    serving_units_pass_no_limit();
    made_of(alloc, program)
}

/// The units of a tree, or its first fault.
fn made_of(alloc: Global, program: RatProgram) -> Result<Made, Refusal>
    requires room { AllHaveRoom (tree_of program).routines }
    requires few { length (tree_of program).routines ≤ 500 }
    requires passes { PassWhereServed (tree_of program) }
    ensures { Finds (IsJudged (tree_of program)) result }
{
    check_program(alloc, &program)?;
    units_serve();
    let finish = program.finish;
    let units = lower_accepted(alloc, program)?;
    Ok(Made { units, finish })
}
