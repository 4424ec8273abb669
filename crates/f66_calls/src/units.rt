// The rules of names, types, counts, constants and stores for units of every kind.
ghost use Rattle.std.specs.Prelude.{◌≡◌, IfOk};
ghost use Rattle.rule_table.specs.FaultRules.{first_rule};
ghost use Rattle.f66_tree.specs.Views.{act_of};
ghost use Rattle.f66_names.specs.DeclarationViews.{context_in, acts_in};
ghost use Rattle.unit_rules.specs.Heads.{breaks_header};
ghost use Rattle.unit_rules.specs.UnitRules.{breaks_rule};

use f66_names::Declarations;
use f66_tree::StmtKind;
use rule_table::Rule;
use std::alloc::{AllocError, Global};
use unit_rules::{UnitNames, broken_rule, header_rule};

/// The rule with the smallest number that the statement with the number i breaks, in a unit of any kind.
pub fn statement_breaks(
    alloc: Global,
    names: &UnitNames,
    i: usize,
    kind: &StmtKind,
) -> Result<Option<Rule>, AllocError>
    ensures { IfOk result
        (λ o. o ≡ first_rule (breaks_rule (context_in names.now.declarations) (acts_in names.now.declarations) i (act_of kind.now))) }
{
    broken_rule(alloc, names, i, kind, &mut Vec::new(alloc))
}

/// The rule with the smallest number that a header breaks.
pub fn head_breaks(alloc: Global, declarations: &Declarations) -> Result<Option<Rule>, AllocError>
    ensures { IfOk result (λ o. o ≡ first_rule (breaks_header (context_in declarations.now))) }
{
    header_rule(alloc, declarations)
}
