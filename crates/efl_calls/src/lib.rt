//! The parser of EFL and what it makes of `**` once more, under the same contracts: on them wrong bodies are tried.
#![tactic(auto)]

ghost use Rattle.std.specs.Prelude.{◌≡◌, IfOk};
ghost use Rattle.grammar.specs.Grammar.{EndsWith};
ghost use Rattle.grammar.specs.Answers.{Answers};
ghost use Rattle.efl_parse_table.specs.Efl.{certificate};
ghost use Rattle.efl_parse_table.specs.Limits.{meter};
ghost use Rattle.efl_parse_table.specs.declared.table.Production.TheVariants.{Raised};
ghost use Rattle.efl_parse_values.specs.Values.{value, values};
ghost use Rattle.efl_parse.specs.Efl.{grammar as efl, whole};
ghost use Rattle.efl_parse.specs.Phrases.{build_expressions};

use efl_parse::parse;
use efl_parse_expressions::expressions::one_join_by;
use efl_parse_values::Value;
use efl_tree::EflProgram;
use ground::{List, Refusal, Token};
use std::alloc::{AllocError, Global};

/// The tree of an EFL text, or its first fault of the grammar or of a limit (Feldman, The Programming Language EFL, 1979).
pub fn parsed(alloc: Global, tokens: &List<Token>) -> Result<EflProgram, Refusal>
    requires { EndsWith efl certificate.end tokens.now.items }
    ensures { Answers efl meter whole tokens.now.items result }
{
    parse(alloc, tokens)
}

/// What `**` joins to the operand before it: the power that begins behind it.
#[tactic(auto, unfolding(efl_parse::specs::Phrases::build_expressions))]
pub fn raised(alloc: Global, parts: &mut Vec<Value>) -> Result<Value, AllocError>
    ensures { IfOk result (λ v. value v ≡ build_expressions Raised (values parts.old.items)) }
{
    one_join_by(alloc, parts)
}
