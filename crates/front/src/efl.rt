// From the tokens of an EFL text to its units.
ghost use Rattle.std.specs.Prelude.{◌≡◌, ◌≤◌, None, length};
ghost use Rattle.std.specs.List.{All};
ghost use Rattle.gathered_tokens.specs.Written.{TokenIsWritten};
ghost use Rattle.efl_tree.specs.Views.{program_of as tree_of};
ghost use Rattle.efl_scope.specs.Marks.{program_variables};
ghost use Rattle.efl_scoped.specs.Answers.{IsScoped};
ghost use Rattle.efl_types.specs.Whole.{TellsWhole};
ghost use Rattle.efl_checks.specs.Walks.{ProceduresFit};
ghost use Rattle.efl_checks.specs.Answers.{typed_fault};
ghost use Rattle.efl_variables.specs.Numbered.{AreVariables};
ghost use Rattle.efl_built.specs.Unbuilt.{first_unbuilt as first_unbuilt_seen};
ghost use Rattle.efl_lower.specs.Laws.{IsAccepted, IsOfText};
ghost use Rattle.macro_define.specs.GatherAnswers.{EndsText};
ghost use Rattle.front.specs.Checked.{Means};
ghost use Rattle.front.specs.Efl.{IsEfl, IsJudged, IsTyped, meaning_of};
ghost use Rattle.front.specs.Translated.{Finds};

use crate::Made;
use efl_built::first_unbuilt;
use efl_checks::check;
use efl_grammar::parse;
use efl_lower::{accepted_serves, lower};
use efl_scoped::scope;
use efl_tree::EflProgram;
use efl_variables::Variables;
use efl_whole::whole;
use ground::{Fault, FaultKind, List, Refusal, Token};
use legal_decks::{legal_has_linkage, legal_is_whole};
use std::alloc::Global;

/// The units of a text with these tokens, or the text's fault: the first of its grammar, of its scopes, of its types, of the limit on
/// all variables (limit 8), or of the whole program (Feldman, The Programming Language EFL, 1979). What all accept is not built where it
/// has a form that is not.
pub fn program_of(alloc: Global, tokens: List<Token>) -> Result<Made, Refusal>
    requires ends { EndsText tokens.items }
    requires written { All TokenIsWritten tokens.items }
    requires few { length tokens.items ≤ 200000 }
    ensures { Finds (IsEfl tokens.items) result }
{
    let program = parse(alloc, &tokens)?;
    // The tree is all that is used from here on.
    drop(tokens);
    made_of(alloc, program)
}

/// The units of a tree, or its first fault.
fn made_of(alloc: Global, program: EflProgram) -> Result<Made, Refusal>
    requires fit { ProceduresFit (tree_of program).procedures }
    requires text { IsOfText (tree_of program) }
    ensures { Finds (IsJudged (tree_of program)) result }
{
    let scoped = scope(alloc, program)?;
    made_of_scoped(alloc, scoped.program())
}

/// The units of a tree whose scopes have no fault.
fn made_of_scoped(alloc: Global, program: &EflProgram) -> Result<Made, Refusal>
    requires fit { ProceduresFit (tree_of program.now).procedures }
    requires text { IsOfText (tree_of program.now) }
    requires scoped { IsScoped (tree_of program.now) }
    ensures { Finds (IsTyped (tree_of program.now) (typed_fault (tree_of program.now))) result }
{
    let variables = check(alloc, program)?;
    made_of_typed(alloc, program, &variables)
}

/// The units of a tree whose types have no fault, by the numbers of its variables.
fn made_of_typed(
    alloc: Global,
    program: &EflProgram,
    variables: &Variables,
) -> Result<Made, Refusal>
    requires text { IsOfText (tree_of program.now) }
    requires scoped { IsScoped (tree_of program.now) }
    requires typed { typed_fault (tree_of program.now) ≡ None }
    requires numbered { AreVariables (program_variables (tree_of program.now)) variables.now }
    ensures { Finds (IsTyped (tree_of program.now) None) result }
{
    whole(alloc, program)?;
    match first_unbuilt(program) {
        Some(place) => Err(Refusal::Fault(Fault::new(place, FaultKind::Unbuilt))),
        None => made_of_built(alloc, program, variables),
    }
}

/// The units of an accepted tree all of whose forms are built.
fn made_of_built(
    alloc: Global,
    program: &EflProgram,
    variables: &Variables,
) -> Result<Made, Refusal>
    requires accepted { IsAccepted (tree_of program.now) }
    requires numbered { AreVariables (program_variables (tree_of program.now)) variables.now }
    ensures { Finds (λ c. c ≡ Means (meaning_of (tree_of program.now))) result }
{
    accepted_serves();
    legal_has_linkage();
    legal_is_whole();
    let units = lower(alloc, program, variables)?;
    Ok(Made {
        units,
        finish: program.finish,
    })
}
