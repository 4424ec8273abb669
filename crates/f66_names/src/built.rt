// Which statements are built so far.
ghost use Rattle.std.specs.Prelude.{◌≡◌, IfOk, map};
ghost use Rattle.std.specs.List.{list_any};
ghost use Rattle.f66_tree.specs.Views.{act_of};
ghost use Rattle.f66_names.specs.ActViews.{act_said};
ghost use Rattle.f66_names.specs.UseViews.{use_of};
ghost use Rattle.f66_names.specs.BuiltActs.{is_function_by, is_function, is_built_form, is_built};
ghost use Rattle.f66_names.specs.DeclarationViews.{context_in};

use crate::declarations::Declarations;
use crate::sorts::form_of;
use crate::uses::{Use, uses_of_saying, uses_of_statement};
use crate::{Manner, NameForm, Saying};
use f66_tree::StmtKind;
use std::alloc::{AllocError, Global};

/// Whether a statement is built so far.
pub fn is_built(
    alloc: Global,
    declarations: &Declarations,
    kind: &StmtKind,
) -> Result<bool, AllocError>
    ensures { IfOk result (λ b. b ≡ is_built (context_in declarations.now) (act_of kind.now)) }
{
    let uses = uses_of_statement(alloc, kind)?;
    Ok(is_built_form(kind) && !has_function(declarations, &uses))
}

/// Whether a statement or a part of one is built so far.
pub fn is_built_saying(
    alloc: Global,
    declarations: &Declarations,
    saying: &Saying,
) -> Result<bool, AllocError>
    ensures { IfOk result (λ b. b ≡ is_built (context_in declarations.now) (act_said saying.now)) }
{
    let uses = uses_of_saying(alloc, saying)?;
    Ok(has_built_form(saying) && !has_function(declarations, &uses))
}

fn has_built_form(saying: &Saying) -> bool
    ensures { result ≡ is_built_form (act_said saying.now) }
{
    match *saying {
        Saying::Act(kind) => is_built_form(kind),
        Saying::Condition(_)
        | Saying::Value(_)
        | Saying::Counting(_, _, _, _)
        | Saying::Returned(_, _) => true,
    }
}

fn is_built_form(kind: &StmtKind) -> bool
    ensures { result ≡ is_built_form (act_of kind.now) }
{
    match kind {
        StmtKind::Invoke(_, _) | StmtKind::Return => false,
        StmtKind::Common(_) | StmtKind::Equivalence(_) | StmtKind::Preset(_) => false,
        StmtKind::When(_, inner) => is_built_form(inner),
        _ => true,
    }
}

fn is_function(declarations: &Declarations, used: &Use) -> bool
    ensures { result ≡ is_function (context_in declarations.now) (use_of used.now) }
{
    match form_of(declarations, used.name) {
        NameForm::Plain => matches!(used.manner, Manner::With(_)),
        NameForm::Array(_) | NameForm::Intrinsic(_) => false,
    }
}

#[tactic(auto, using(rule_table::proofs::WordLemmas::list_any_map))]
fn has_function(declarations: &Declarations, uses: &[Use]) -> bool
    ensures { result ≡ list_any (is_function (context_in declarations.now)) (map use_of uses.now) }
{
    are_some_functions(declarations, uses)
}

fn are_some_functions(declarations: &Declarations, uses: &[Use]) -> bool
    ensures { result ≡ list_any (λ u. is_function (context_in declarations.now) (use_of u)) uses.now }
{
    uses.iter().any(|u| is_function(declarations, u))
}
