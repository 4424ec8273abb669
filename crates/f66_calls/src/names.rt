// The rules of names, types, counts, constants and stores, of statements and parts of them, and what is built.
ghost use Rattle.std.specs.Prelude.{◌≡◌, IfOk};
ghost use Rattle.rule_table.specs.FaultRules.{first_rule};
ghost use Rattle.f66_tree.specs.Views.{act_of};
ghost use Rattle.f66_names.specs.ActViews.{act_said};
ghost use Rattle.f66_names.specs.BuiltActs.{is_built as is_built_act};
ghost use Rattle.f66_names.specs.DeclarationViews.{context_in, acts_in};
ghost use Rattle.unit_rules.specs.UnitRules.{breaks_rule};

use f66_names::{Declarations, Saying, is_built};
use f66_tree::{Header, StmtKind};
use rule_table::Rule;
use std::alloc::{AllocError, Global};
use unit_rules::{UnitNames, saying_rule, unit_names_of};

/// The rule with the smallest number that a statement or a part of one breaks, the i-th that the unit says.
pub fn saying_breaks(
    alloc: Global,
    names: &UnitNames,
    i: usize,
    saying: &Saying,
) -> Result<Option<Rule>, AllocError>
    ensures { IfOk result
        (λ o. o ≡ first_rule (breaks_rule (context_in names.now.declarations) (acts_in names.now.declarations) i (act_said saying.now))) }
{
    saying_rule(alloc, names, i, saying, &mut Vec::new(alloc))
}

/// Whether a statement is built so far.
pub fn built(
    alloc: Global,
    declarations: &Declarations,
    kind: &StmtKind,
) -> Result<bool, AllocError>
    ensures { IfOk result (λ b. b ≡ is_built_act (context_in declarations.now) (act_of kind.now)) }
{
    is_built(alloc, declarations, kind)
}

/// The names of a unit with this header that says this.
pub fn names_in<'a>(
    alloc: Global,
    header: &'a Header,
    sayings: &'a [Saying<'a>],
) -> Result<UnitNames<'a>, AllocError>
    ensures header { IfOk result (λ n. n.declarations.header.now ≡ header.now) }
    ensures sayings { IfOk result (λ n. n.declarations.sayings.now ≡ sayings.now) }
{
    unit_names_of(alloc, header, sayings)
}
